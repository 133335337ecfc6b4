//! What the program answers: its answers, the status and the line of each, and how the line is told.
#![tactic(auto)]

mod answer;
mod image_refusal;
mod line;
mod link_refusal;
mod numbered;
mod telling;
mod texts;

pub use answer::{Done, Fault, status_of};
pub use image_refusal::ImageRefusal;
pub use link_refusal::LinkRefusal;
pub use telling::tell;
pub use texts::trap_name;
