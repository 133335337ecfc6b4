//! Operands, locals and waiting calls of a machine, the values as words of sixteen bytes, whose halves stand
//! in two lists and are written by place. `specs/Words` says which value a word stands for, and
//! `specs/Stacks` what a pile shows and what each call changes.
#![tactic(auto)]

mod caller;
mod pile;
mod word;
mod words;

pub use caller::Caller;
pub use pile::Pile;
pub use word::Word;
