//! The words of a list at their places: which stands there, how one is taken, and what statements begin
//! with.
#![tactic(auto)]

mod begins;
mod words;

pub use begins::{Head, head_at, too_deep};
pub use words::{
    deep_at, expect_mark, is_key, is_mark, key_at, line_at, mark_at, name, refused_at, shared,
    spot_at, taken, word_here,
};
