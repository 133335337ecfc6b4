//! Images: the table of instructions, and what an image consists of. `specs/` is to be read in the
//! order of `specs/Lib.antt`: `Table` has the instructions' numbers and names, and `Image` the rules
//! that every image keeps.
#![tactic(auto)]

mod image;
mod instruction;
mod items;
mod kind;
mod laws;
mod loaded;
mod opcode;
mod pins;

pub use image::{Function, Global, Image, Index, Initial, Parts, Path};
pub use instruction::Instruction;
pub use items::Items;
pub use kind::{Cell, Storage};
pub use laws::{
    marks_are_right_where_checks_pass, numbers_are_those_of_the_table,
    operands_are_those_of_the_table, tags_are_those_of_cells, tags_are_those_of_locals,
};
pub use loaded::Loaded;
pub use opcode::{Arithmetic, Jump, Opcode, Operand, Simple, Typed};
pub use pins::Pins;
