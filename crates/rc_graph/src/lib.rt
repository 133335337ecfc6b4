//! The points of region code in code: what each does to the region variables, and where it leads.
//! `specs/Nodes` leads from these types to the definitions of rc_rlang's `specs/RegionFlow`.
#![tactic(auto)]

mod acts;
mod graph;
mod heads;
mod names;
mod node;
mod operations;
mod output;
mod walk;

pub use graph::{Graph, graph_of};
pub use names::{cell_note, note_in};
pub use node::{Effect, Entry, Node};
