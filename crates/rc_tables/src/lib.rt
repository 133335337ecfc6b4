//! Numbers in place of types, paths and strings.
//!
//! Tables of types and of paths have each once, and find it by its key: `specs/Keys` has the keys of paths
//! (those of types are in rc_lines), and `specs/Kept` what tables are made of; what a table becomes is said
//! by rc_numbering's `seen_behind`, and a number by `place_in`. What a program names is gathered from its
//! parts and from the stack code of its functions, in the order of rc_numbering's `program_names` and
//! `paths_of`. The functions of an image are instructions with these numbers, and with the targets of
//! jumps: `specs/Placed` says what they are made of, and rc_numbering's `function_of` what they become.
#![tactic(auto)]

mod code;
mod functions;
mod instructions;
mod keys;
mod named_paths;
mod named_types;
mod numbers;
mod paths;
mod program;
mod rows;
mod types;

pub use functions::{function, storage};
pub use named_paths::program_paths;
pub use numbers::Numbers;
pub use program::{program_types, struct_types};
pub use rows::word_of;
