//! The first heap of an image: an unused heap is given the image's globals with their first values, one
//! object for each, and is then the heap from which the image runs. `specs/First` says what an unused heap
//! is. What a heap keeps beside the store model stands here too: a call of a heap does to the one what the
//! store model says of the other (`specs/Keeping`).
#![tactic(auto)]

mod cells;
mod globals;
mod laws;
mod layouts;

pub use globals::add_globals;
pub use laws::{the_store_is_changed, the_store_is_shown};
pub use layouts::layouts_of;
