//! The outside as traits, with the objects in memory that stand for it, the ends of a run, the limits of
//! the language, a counter of steps, and sets of small numbers.
#![tactic(auto)]

mod bit_set;
mod buffer;
mod bytes;
mod calls;
mod discard;
mod drawer;
mod ends;
mod limits;
mod octets;
mod outside;
mod steps;
mod write;

pub use bit_set::BitSet;
pub use buffer::Buffer;
pub use bytes::Bytes;
pub use discard::Discard;
pub use drawer::Drawer;
pub use ends::{End, Limits, RunFault, Trap};
pub use limits::{
    BUFFER_BYTES, MOST_BLOCKS, MOST_COPIED_CELLS, MOST_DEPTH, MOST_GLOBAL_CELLS, MOST_IMAGE_BYTES,
    MOST_POINTS, MOST_REACH, MOST_REGIONS, MOST_STRUCT_CELLS, MOST_TEXT_BYTES, MOST_TURNS,
    MOST_VARIABLES, MOST_WORDS, USUAL_TURNS,
};
pub use octets::Octets;
pub use outside::{Failed, NoMemory, Piece, Shelf, ShelfFault, Sink, Source};
pub use steps::Steps;
pub use write::write_all;
