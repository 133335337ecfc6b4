//! What waits while a part of a program is evaluated: frames in a function, callers, and the values that
//! they hold.
//!
//! What waits for a part lies in a list of frames, so that no node is evaluated inside another. Which
//! locals are live after the frames is computed when a region is deleted or a function is called that
//! deletes.
#![tactic(auto)]

mod calls;
mod frames;
mod live;
mod waiting;

pub use calls::{Activation, Callers, first_locals, held_for, held_values};
pub use frames::{Frame, Stage};
pub use waiting::Waiting;
