//! The fields of an image, as bytes: numbers, types, globals, and what locals and results hold.
//! `specs/Spelling` says which bytes a field has, and `specs/Reading` how it is read, and where a
//! reader stops; both speak of paths too, which `rc_path_rules` reads and writes.
#![tactic(auto)]

mod globals;
mod numbers;
mod stop;
mod types;

pub use globals::{cells_of, read_globals, write_globals};
pub use numbers::{
    read_kind, read_number, read_numbers, read_within, write_kind, write_number, write_numbers,
};
pub use stop::Stop;
pub use types::{read_locals, read_result, read_types, write_locals, write_result, write_types};
