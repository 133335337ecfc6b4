// Nodes of trees, each in memory of its own. A generic call at the type of a tree is dear to prove, so
// that each such call stands in one function.
ghost use Rattle.std.specs.Prelude.{◌≡◌, ◌++◌, ◌∷◌, [], IfOk, OnOk};
ghost use Rattle.rc_syntax.specs.Shape as written;
ghost use Rattle.rc_syntax.specs.Shape.{expr_of, simple_of, start_of, stmt_of};
ghost use Rattle.rc_syntax.specs.Tree as t;

use rc_base::NoMemory;
use rc_expression_copies::{add, boxed};
use rc_syntax::tree::{Expr, ForStart, Item, Simple, Spot, Stmt};
use std::alloc::Global;

/// Puts what a statement does in memory of its own.
pub(crate) fn simple_node(alloc: Global, value: Simple) -> Result<Box<Simple>, NoMemory>
    ensures { IfOk result (λ b. b.value ≡ value) }
{
    boxed(alloc, value)
}

/// Puts the first part of a head in memory of its own.
pub(crate) fn start_node(alloc: Global, value: ForStart) -> Result<Box<ForStart>, NoMemory>
    ensures { IfOk result (λ b. b.value ≡ value) }
{
    boxed(alloc, value)
}

/// Puts a statement in memory of its own.
pub(crate) fn stmt_node(alloc: Global, value: Stmt) -> Result<Box<Stmt>, NoMemory>
    ensures { IfOk result (λ b. b.value ≡ value) }
{
    boxed(alloc, value)
}

/// Puts an item in memory of its own.
pub(crate) fn item_node(alloc: Global, value: Item) -> Result<Box<Item>, NoMemory>
    ensures { IfOk result (λ b. b.value ≡ value) }
{
    boxed(alloc, value)
}

/// Puts a statement behind others.
pub(crate) fn add_stmt(values: &mut Vec<Stmt>, value: Box<Stmt>) -> Result<(), NoMemory>
    ensures { OnOk result (values.new.items ≡ values.old.items ++ value.value ∷ []) }
{
    add(values, value)
}

/// An expression, where there is one, out of its box.
pub(crate) fn unboxed_expr(value: Option<Box<Expr>>) -> Option<Expr>
    ensures { result ≡ written.mapped (λ b. b.value) value }
{
    match value {
        Some(value) => Some(Box::into_inner(value)),
        None => None,
    }
}

/// What a statement does, where there is one, out of its box.
pub(crate) fn unboxed_simple(value: Option<Box<Simple>>) -> Option<Simple>
    ensures { result ≡ written.mapped (λ b. b.value) value }
{
    match value {
        Some(value) => Some(Box::into_inner(value)),
        None => None,
    }
}

pub(crate) fn block_node(alloc: Global, at: Spot, body: Vec<Stmt>) -> Result<Box<Stmt>, NoMemory>
    ensures { IfOk result (λ s. stmt_of s.value ≡ t.block at (written.stmts_of body.items)) }
{
    stmt_node(alloc, Stmt::Block(at, body))
}

pub(crate) fn for_node(
    alloc: Global,
    at: Spot,
    start: Box<ForStart>,
    test: Option<Box<Expr>>,
    next: Option<Box<Simple>>,
    body: Box<Stmt>,
) -> Result<Box<Stmt>, NoMemory>
    ensures { IfOk result (λ s. stmt_of s.value ≡ t.for_do at (start_of start.value) (written.mapped (λ b. expr_of b.value) test) (written.mapped (λ b. simple_of b.value) next) (stmt_of body.value)) }
{
    stmt_node(
        alloc,
        Stmt::For(
            at,
            Box::into_inner(start),
            unboxed_expr(test),
            unboxed_simple(next),
            body,
        ),
    )
}
