//! What a pass over the facts of a function of an image has to know of each instruction: what it does to
//! the variables, what has to follow before and behind it, and what is given before the next one.
//! `specs/Sites` says what a function with its shape is.
#![tactic(auto)]

mod asking;
mod beginning;
mod framing;
mod site;
mod steps;
mod ways;

pub use beginning::begins;
pub use framing::frame_of;
pub use site::{Site, Span, View, next_height, view_at};
pub use steps::step_of;
