//! What the refusals of an image's bytes mean, said without a reader, and what it means that the cells
//! which a path reaches have one kind, said without a test.
//!
//! `specs/Refusals` speaks of the bytes of images and of what stands behind them, `specs/Kinds` of every
//! choice of indices. Each reader that is added to those of an image has to be added to the proofs here:
//! it goes on, or stops, at bytes that it has read, and never because of what comes behind them.
#![tactic(auto)]

mod laws;

pub use laws::{
    one_kind_is_of_all_indices, refusals_speak_of_carried_images, refusals_speak_of_spellings,
};
