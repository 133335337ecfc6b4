//! The objects of the outside over the real one: a source over a reader, a sink over a writer, and a
//! shelf over the files of the system. They tell nothing but their counts of faults.
#![tactic(auto)]

mod folder;
mod std_sink;
mod std_source;
mod write_front;

pub use folder::Folder;
pub use std_sink::StdSink;
pub use std_source::StdSource;
