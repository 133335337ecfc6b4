//! The stack code of a program in region code: that of each of its functions, in lists.
//!
//! The operands that a function keeps in locals are gathered, each once and with a number, with the types
//! of these locals; `specs/Numbering` says what it means that keys number them. Statements and whole
//! functions are made from their end to their beginning, so that it is known how far each jump leads;
//! `specs/Onward` says how the code is kept meanwhile, and `specs/Placed` where a piece of it stands.
#![tactic(auto)]

mod bodies;
mod code;
mod entering;
mod fronts;
mod leads;
mod pieces;
mod points;
mod program;
mod table;

pub use program::program_code;
pub use table::KeptTable;
