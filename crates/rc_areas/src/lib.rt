//! The objects of a region: all their cells together, of 16 bytes each, and 16 bytes an object.
#![tactic(auto)]

mod area;
mod head;
mod naming;
mod shapes;

pub use area::Area;
pub use head::Head;
pub use shapes::Shapes;
