//! From programs and texts to images: the image of a text does what the text's program does.
//! `specs/Built` says what such an image is, and what building one answers.
#![tactic(auto)]

mod building;

pub use building::{compile, finish, image, ready};
