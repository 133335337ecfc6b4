//! What programs are and what they mean. The types of a program stand here, and its meaning in
//! `specs/`, to be read in the order of `specs/Lib.antt`: `Types` and `Programs` say what a program
//! is, `Layout` to `Meaning` what it means, `Store` what a heap has to keep of that, and `Typing` to
//! `WellTyped` when its parts fit together. In code it has the arithmetic of the language (`calculate`,
//! `converted`) and the layouts of structs (`Layouts`).
#![tactic(auto)]

mod arithmetic;
pub mod cells;
pub mod examples;
pub mod expr;
pub mod laws;
pub mod layout;
mod layouts;
pub mod liveness;
pub mod operators;
pub mod parts;
pub mod program;
pub mod stmt;
pub mod ty;

pub use arithmetic::{as_int, byte_of, calculate, calculate_one, converted, type_of};
pub use layouts::{FieldPlace, Kind, Layouts};
