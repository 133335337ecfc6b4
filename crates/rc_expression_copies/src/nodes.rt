// Expressions, each in memory of its own. A generic call at the type of a tree is dear to prove, so that
// each such call stands in one function.
ghost use Rattle.std.specs.Prelude.{◌≡◌, ◌++◌, ◌∷◌, [], IfOk, OnOk};
ghost use Rattle.rc_syntax.specs.Shape.{expr_of, exprs_of};
ghost use Rattle.rc_syntax.specs.Tree as t;

use crate::parts::{add, boxed};
use rc_base::NoMemory;
use rc_syntax::tree::{Expr, Name};
use std::alloc::Global;

/// Puts an expression in memory of its own.
pub(crate) fn expr_node(alloc: Global, value: Expr) -> Result<Box<Expr>, NoMemory>
    ensures { IfOk result (λ b. b.value ≡ value) }
{
    boxed(alloc, value)
}

/// Puts an expression behind others.
pub(crate) fn add_expr(values: &mut Vec<Expr>, value: Box<Expr>) -> Result<(), NoMemory>
    ensures { OnOk result (values.new.items ≡ values.old.items ++ value.value ∷ []) }
{
    add(values, value)
}

pub(crate) fn call_node(alloc: Global, name: Name, values: Vec<Expr>) -> Result<Box<Expr>, NoMemory>
    ensures { IfOk result (λ e. expr_of e.value ≡ t.call name (exprs_of values.items)) }
{
    expr_node(alloc, Expr::Call(name, values))
}
