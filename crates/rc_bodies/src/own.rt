// The expressions and simple statements of a statement, whose strings are put after those before.
ghost use Rattle.std.specs.Prelude.{◌≡◌, option_map, IfOk, IfErr, OnOk};
ghost use Rattle.rc_core.specs.Shapes.{expr_of, stmt_of};
ghost use Rattle.rc_deletes.specs.Judged.{Holds};
ghost use Rattle.rc_deletes.specs.Statements as rule;
ghost use Rattle.rc_typed_values.specs.Shapes.{typed_of};
ghost use Rattle.rc_typed_values.specs.Stops.{StopsAt};
ghost use Rattle.rc_syntax.specs.Shape as written;
ghost use Rattle.rc_defined.specs.Contexts.{context_of};
ghost use Rattle.rc_bodies.specs.Here.{here_of};

use crate::here::Here;
use crate::steps::{condition, condition_option, simple, simple_option, value_option};
use rc_core::expr::Expr as Value;
use rc_core::stmt::Stmt as Step;
use rc_defined::{Context, Environment};
use rc_syntax::tree::{Expr, Simple};
use rc_typed_values::{Stop, Typed};
use std::alloc::Global;

#[tactic(auto, using(crate::proofs::Kept::more_strings))]
pub(crate) fn own_value(
    e: &Option<Expr>,
    alloc: Global,
    context: &Context,
    here: &mut Here,
) -> Result<Option<Typed>, Stop>
    ensures ok { IfOk result (λ r. rule.value_option (context_of context.now) (here_of here.old).names (here_of here.old).strings (written.mapped written.expr_of e.now) ≡ Holds (option_map typed_of r)) }
    ensures behind { OnOk result (here_of here.new ≡ rule.behind_option (here_of here.old) (written.mapped written.expr_of e.now)) }
    ensures err { IfErr result (StopsAt (rule.value_option (context_of context.now) (here_of here.old).names (here_of here.old).strings (written.mapped written.expr_of e.now))) }
{
    let environment = Environment {
        alloc,
        context,
        names: &here.names,
    };
    value_option(e, &environment, &mut here.strings)
}

#[tactic(auto, using(crate::proofs::Kept::more_strings))]
pub(crate) fn own_condition(
    e: &Expr,
    alloc: Global,
    context: &Context,
    here: &mut Here,
) -> Result<Box<Value>, Stop>
    ensures ok { IfOk result (λ r. rule.condition (context_of context.now) (here_of here.old).names (here_of here.old).strings (written.expr_of e.now) ≡ Holds (expr_of r.value)) }
    ensures behind { OnOk result (here_of here.new ≡ rule.behind (here_of here.old) (written.expr_of e.now)) }
    ensures err { IfErr result (StopsAt (rule.condition (context_of context.now) (here_of here.old).names (here_of here.old).strings (written.expr_of e.now))) }
{
    let environment = Environment {
        alloc,
        context,
        names: &here.names,
    };
    condition(e, &environment, &mut here.strings)
}

#[tactic(auto, using(crate::proofs::Kept::more_strings))]
pub(crate) fn own_condition_option(
    e: &Option<Expr>,
    alloc: Global,
    context: &Context,
    here: &mut Here,
) -> Result<Option<Box<Value>>, Stop>
    ensures ok { IfOk result (λ r. rule.condition_option (context_of context.now) (here_of here.old).names (here_of here.old).strings (written.mapped written.expr_of e.now) ≡ Holds (option_map (λ c. expr_of c.value) r)) }
    ensures behind { OnOk result (here_of here.new ≡ rule.behind_option (here_of here.old) (written.mapped written.expr_of e.now)) }
    ensures err { IfErr result (StopsAt (rule.condition_option (context_of context.now) (here_of here.old).names (here_of here.old).strings (written.mapped written.expr_of e.now))) }
{
    let environment = Environment {
        alloc,
        context,
        names: &here.names,
    };
    condition_option(e, &environment, &mut here.strings)
}

#[tactic(auto, using(crate::proofs::Kept::more_strings))]
pub(crate) fn own_simple(
    s: &Simple,
    alloc: Global,
    context: &Context,
    here: &mut Here,
) -> Result<Box<Step>, Stop>
    ensures ok { IfOk result (λ r. rule.simple (context_of context.now) (here_of here.old).names (here_of here.old).strings (written.simple_of s.now) ≡ Holds (stmt_of r.value)) }
    ensures behind { OnOk result (here_of here.new ≡ rule.behind_simple (here_of here.old) (written.simple_of s.now)) }
    ensures err { IfErr result (StopsAt (rule.simple (context_of context.now) (here_of here.old).names (here_of here.old).strings (written.simple_of s.now))) }
{
    let environment = Environment {
        alloc,
        context,
        names: &here.names,
    };
    simple(s, &environment, &mut here.strings)
}

#[tactic(auto, using(crate::proofs::Kept::more_strings))]
pub(crate) fn own_simple_option(
    s: &Option<Simple>,
    alloc: Global,
    context: &Context,
    here: &mut Here,
) -> Result<Box<Step>, Stop>
    ensures ok { IfOk result (λ r. rule.simple_option (context_of context.now) (here_of here.old).names (here_of here.old).strings (written.mapped written.simple_of s.now) ≡ Holds (stmt_of r.value)) }
    ensures behind { OnOk result (here_of here.new ≡ rule.behind_simple_option (here_of here.old) (written.mapped written.simple_of s.now)) }
    ensures err { IfErr result (StopsAt (rule.simple_option (context_of context.now) (here_of here.old).names (here_of here.old).strings (written.mapped written.simple_of s.now))) }
{
    let environment = Environment {
        alloc,
        context,
        names: &here.names,
    };
    simple_option(s, &environment, &mut here.strings)
}
