//! The heap: regions with objects, as long as they are live, and the values that are pinned.
//!
//! `Heap` is the trait of all heaps. `specs/Kept.antt` says what a heap keeps of the store model of
//! rc_core, and `specs/Stores.antt` what each call does to it.
#![tactic(auto)]

mod cell;
mod elements;
mod heap;
mod kinds;
mod laws;
mod pins;
mod set_heap;

pub use cell::{Cell, Denied, MakeFault, Missed, Place, Pointer};
pub use elements::element_at;
pub use heap::Heap;
pub use kinds::{blank_of, is_counted, kind_of, kinds_of};
pub use laws::a_heap_keeps_the_store;
pub use pins::Pins;
pub use set_heap::SetHeap;
