//! Values, places and objects of an evaluation, and why it stops. Objects are arrays of elements of one
//! layout, with the values of their cells.
#![tactic(auto)]

mod cells;
mod object;
mod stop;
mod target;
mod value;
mod values;

pub use cells::{blank_cell, note_of, zero_of};
pub use object::{Object, blank, literal, number_object};
pub use stop::{Stop, trap};
pub use target::{Chosen, Target, aimed, is_index, product_of_cells, sum_of_cells};
pub use value::{Address, Value, as_wanted, is_same, is_true, names, number_in, static_pointer};
pub use values::{Values, front_of};
