//! What a machine does at loads, stores and deletions.
#![tactic(auto)]

mod cells;
mod deletions;
mod reaching;

pub use cells::{
    FlatCell, FlatStore, PathStore, load, load_indexed, store, store_byte, store_indexed,
    store_number,
};
pub use deletions::delete;
