//! What each instruction of a sound image asks of a machine, and what it does there: the definitions and
//! the laws on which the machine's functions stand, instruction by instruction. A machine has its place in
//! the code, a pile of words, and a heap; beside it there is a world with every region that was ever made,
//! in which the same image runs one instruction after another.
//!
//! `specs/` is to be read in the order of `specs/Lib.antt`: `Places` says where a machine is in the code,
//! `Stands` what its pile and its heap stand for, `Leads` what it is to go on, `Ready` what holds before
//! each instruction, `Follows` what the machine's end says of the image's meaning, and `ShortForms` what a
//! machine finds before each short form of an instruction.
#![tactic(auto)]

mod ready;
mod steps;

pub use ready::short_forms_are_ready;
pub use steps::{instructions_are_ready, machines_come_to_the_meaning, marked_values_fit};
