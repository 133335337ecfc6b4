//! The plain heap: a deletion looks at the cells of all live regions. Other heaps are compared with it.
#![tactic(auto)]

mod region;
mod regions;
mod scan;
mod together;

pub use scan::ScanHeap;
