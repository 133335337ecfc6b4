//! Runs scripts of heap commands.
//!
//! What a script answers is defined in rc_replies, specs/Replies.antt.
#![tactic(auto)]

mod deletion;
mod links;
mod obeying;
mod objects;
mod pins;
mod records;
mod regions;
mod run;

pub use run::{ScriptFault, script};
