//! What a machine does at calls and returns, where the arguments become locals and the values that a caller
//! pinned are pinned while the call runs, and at each short form that touches regions, objects or cells, or
//! the outside. It goes with rc_ops, and says what it did in the same words.
#![tactic(auto)]

mod calls;
mod found;
mod objects;
mod outside;
mod pins;
mod regions;

pub use calls::{body_of, call, give_back, number_in};
pub use found::{Miss, live_region};
pub use objects::{allocate, allocate_array, index_below, move_pointer, region_of};
pub use outside::{get_char, put_char};
pub use pins::{is_fresh, pin_all, unpin_all};
pub use regions::{new_region, new_subregion};
