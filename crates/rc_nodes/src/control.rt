// What a run does next.

use rc_core::expr::{Expr, PathStep};
use rc_core::stmt::Stmt;
use rc_values::{Target, Value};

/// What a run does next: it evaluates or executes, or something has come out.
#[derive(Drop)]
pub enum Control<'p> {
    Evaluate(&'p Expr),
    Execute(&'p Stmt),
    /// A place was evaluated so far, and this way inward is left.
    GoAlong(Target, &'p [PathStep]),
    /// An expression gave a value.
    Gives(Value),
    /// A place was evaluated.
    Aims(Target),
    /// A statement went on.
    Goes,
    Breaks,
    Continues,
    Returns(Value),
}
