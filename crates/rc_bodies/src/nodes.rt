// Statements, made of their parts.
ghost use Rattle.std.specs.Prelude.{◌≡◌, ◌++◌, ◌∷◌, [], map, option_map, IfOk, IfErr, OnOk};
ghost use Rattle.rc_core.specs.Programs as p;
ghost use Rattle.rc_core.specs.Shapes.{expr_of, stmt_of, stmts_of};

use rc_core::expr::Expr as Value;
use rc_core::stmt::Stmt as Step;
use rc_typed_values::{Stop, add, boxed};
use std::alloc::Global;

/// Puts a statement after those before it.
#[tactic(auto, using(rc_defined::proofs::Lists::map_push))]
pub(crate) fn add_step(steps: &mut Vec<Step>, step: Box<Step>) -> Result<(), Stop>
    ensures ok { OnOk result (map stmt_of steps.new.items ≡ map stmt_of steps.old.items ++ stmt_of step.value ∷ []) }
    ensures err { IfErr result (λ s. s ≡ Stop.Memory) }
{
    add(steps, Box::into_inner(step))
}

/// A block of these statements.
#[tactic(auto, using(rc_core::proofs::ShapeRows::made_block))]
pub(crate) fn block(alloc: Global, body: Vec<Step>) -> Result<Box<Step>, Stop>
    ensures ok { IfOk result (λ s. stmt_of s.value ≡ p.block (stmts_of body.items)) }
    ensures err { IfErr result (λ s. s ≡ Stop.Memory) }
{
    boxed(alloc, Step::Block { body })
}

/// The block without statements.
pub(crate) fn empty_block(alloc: Global) -> Result<Box<Step>, Stop>
    ensures ok { IfOk result (λ s. stmt_of s.value ≡ p.block p.done) }
    ensures err { IfErr result (λ s. s ≡ Stop.Memory) }
{
    block(alloc, Vec::new(alloc))
}

/// `if`, whose absent `else` is an empty block.
pub(crate) fn branch(
    alloc: Global,
    line: u32,
    test: Box<Value>,
    yes: Box<Step>,
    no: Box<Step>,
) -> Result<Box<Step>, Stop>
    ensures ok { IfOk result (λ s. stmt_of s.value ≡ p.branch line (expr_of test.value) (stmt_of yes.value) (stmt_of no.value)) }
    ensures err { IfErr result (λ s. s ≡ Stop.Memory) }
{
    let test = Box::into_inner(test);
    boxed(
        alloc,
        Step::If {
            line,
            test,
            yes,
            no,
        },
    )
}

pub(crate) fn while_loop(
    alloc: Global,
    line: u32,
    test: Box<Value>,
    body: Box<Step>,
) -> Result<Box<Step>, Stop>
    ensures ok { IfOk result (λ s. stmt_of s.value ≡ p.while line (expr_of test.value) (stmt_of body.value)) }
    ensures err { IfErr result (λ s. s ≡ Stop.Memory) }
{
    let test = Box::into_inner(test);
    boxed(alloc, Step::While { line, test, body })
}

pub(crate) fn do_loop(
    alloc: Global,
    line: u32,
    body: Box<Step>,
    test: Box<Value>,
) -> Result<Box<Step>, Stop>
    ensures ok { IfOk result (λ s. stmt_of s.value ≡ p.repeat line (stmt_of body.value) (expr_of test.value)) }
    ensures err { IfErr result (λ s. s ≡ Stop.Memory) }
{
    let test = Box::into_inner(test);
    boxed(alloc, Step::Do { line, body, test })
}

fn unboxed(value: Option<Box<Value>>) -> Option<Value>
    ensures { option_map expr_of result ≡ option_map (λ e. expr_of e.value) value }
{
    match value {
        None => None,
        Some(value) => Some(Box::into_inner(value)),
    }
}

pub(crate) fn for_loop(
    alloc: Global,
    line: u32,
    first: Box<Step>,
    test: Option<Box<Value>>,
    third: Box<Step>,
    body: Box<Step>,
) -> Result<Box<Step>, Stop>
    ensures ok { IfOk result (λ s. stmt_of s.value ≡ p.for line (stmt_of first.value) (option_map (λ e. expr_of e.value) test) (stmt_of third.value) (stmt_of body.value)) }
    ensures err { IfErr result (λ s. s ≡ Stop.Memory) }
{
    let test = unboxed(test);
    boxed(
        alloc,
        Step::For {
            line,
            first,
            test,
            third,
            body,
        },
    )
}
