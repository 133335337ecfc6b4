//! Files of rows, each of which says what something must come to and is compared with what it does.
//!
//! A line is a key and what it gives, with a blank between them; a line that begins with `#` says
//! nothing, nor does an empty one. The key `row` gives a name, with which a row begins: the lines up to
//! the next one are the row's. What the other keys give, each kind of row says.
//!
//! A row that differs is a line, and behind the rows of a file stands how many there are and how many of
//! them differ.
#![tactic(auto)]

mod comparing;
mod found;
mod reading;
mod row;
mod values;

pub use comparing::compare_files;
pub use found::Found;
pub use row::Row;
pub use values::{bytes, number, numbers, push_line, small_number, unread};
