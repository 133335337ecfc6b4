//! A text that grows at its end, for what is written of images and reports.
#![tactic(auto)]

mod text;

pub use text::Text;
