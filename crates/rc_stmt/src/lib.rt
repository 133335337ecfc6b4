//! Reads statements, blocks and declarations of locals.
#![tactic(auto)]

mod blocks;
mod branches;
mod heads;
mod locals;
mod loops;
mod nodes;
mod parts;
mod simples;
mod statements;

pub use blocks::block;
pub use parts::{base, expect_mark, name, shared_base, stars, type_name};
pub use rc_syntax::fault::ParseFault;
