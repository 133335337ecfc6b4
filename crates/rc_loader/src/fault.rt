// Why an image isn't loaded.

use std::alloc::{AllocError, AllocFailed};

/// The rules of code, in the order in which they are asked at one instruction.
#[derive(Clone, Copy, Debug, PartialEq, Eq)]
pub enum Rule {
    /// Every operand names what is there, pins are locals of region or pointer kind in increasing
    /// order, a mark stands at an annotated cell alone, and `main` has no parameters and gives an
    /// `int`.
    Number,
    /// A jump leads to an instruction of its function, forwards or back as it says. There is code,
    /// and it doesn't run off its end.
    Target,
    /// No operand is missing, and the stack is empty where it has to be.
    Height,
    /// Operands have their kinds.
    Kind,
}

/// A broken rule, with the numbers of the function and of its instruction.
#[derive(Clone, Copy, Debug, PartialEq, Eq)]
pub struct Violation {
    pub rule: Rule,
    pub function: u32,
    pub instruction: u32,
}

/// Why an image isn't loaded.
#[derive(Clone, Copy, Debug, PartialEq, Eq)]
pub enum LoadFault {
    /// It breaks a rule, first there.
    Broken(Violation),
    /// There was no memory.
    Memory,
}
