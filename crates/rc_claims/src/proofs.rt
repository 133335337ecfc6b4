// What an image claims of regions.

use rc_code::Items;

/// The facts before an instruction, as bits.
#[derive(Drop)]
pub struct Frame {
    /// The number of the instruction.
    pub at: u32,
    pub facts: Items<u8>,
}

/// What is claimed of a function, as bits.
#[derive(Drop)]
pub struct Known {
    /// The facts at its entry, on its hidden copies.
    pub entry: Items<u8>,
    /// The facts at its exit, on these and on its result.
    pub exit: Items<u8>,
    /// The facts before instructions, on its hidden copies and locals, in the order of the instructions.
    pub frames: Items<Frame>,
}

/// What is claimed of the functions of an image, in their order.
#[derive(Drop)]
pub struct Proofs {
    pub functions: Items<Known>,
}
