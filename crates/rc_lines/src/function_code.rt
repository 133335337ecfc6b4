// The stack code of a function.

use crate::instruction::Line;
use rc_core::ty::Ty;

/// The stack code of a function.
#[derive(Drop)]
pub struct FunctionCode<'a> {
    /// The types of its locals: those of the source, and behind them those that keep operands.
    pub locals: Vec<Ty>,
    /// Its instructions, from the first on.
    pub lines: Vec<Line<'a>>,
}
