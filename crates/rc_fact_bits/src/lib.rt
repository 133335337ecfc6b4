//! Sets of facts as bits, in the order that `rc_claims` reads them.
//! `specs/Standing` says when bits stand for facts, and `specs/Framing` which frames stand before targets.
#![tactic(auto)]

mod bits;
mod frames;
mod numbers;

pub use bits::bits_of;
pub use frames::frames_of;
