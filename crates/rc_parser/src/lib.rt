//! Reads whole texts: from their words to their tree.
#![tactic(auto)]

mod fields;
mod functions;
mod globals;
mod items;
mod params;
mod parts;

pub use items::parse;
pub use rc_syntax::fault::ParseFault;
