// What a pass has to know of an instruction.

use crate::lead::Lead;
use rc_graph::Effect;

/// What a pass has to know of an instruction.
#[derive(Drop)]
pub struct Spot {
    /// What it does to the variables.
    pub effect: Effect,
    /// The set of the target that it names and goes to, by its number among those of the function.
    pub jumped: Lead,
    /// The set of the next instruction, if that is a target and the run may go on there.
    pub fallen: Lead,
    /// The set of the next instruction, if that is a target.
    pub next: Lead,
    /// Nothing stays known of the variables from here ..
    pub low: u8,
    /// .. to below this one, but of the assigned one.
    pub top: u8,
    /// Whether the function ends there.
    pub returns: bool,
}

/// A function, and the numbers of its variables.
#[derive(Clone, Copy)]
pub struct Place {
    pub function: usize,
    /// How many hidden copies it has.
    pub copies: u32,
    /// The variable of its result. The next one is the scratch variable, and the last.
    pub result: u32,
}
