//! What several files are together: definitions, and laws without code.
#![tactic(auto)]

mod laws;

pub use laws::{a_text_is_limited, examples_compute};
