//! What the words on the command line ask.
#![tactic(auto)]

mod request;

pub use request::{Request, request_of};
