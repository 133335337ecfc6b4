//! The bodies of functions: statements, and the locals and scopes in them.
#![tactic(auto)]

mod enclosing;
mod here;
mod locals;
mod nodes;
mod own;
mod statements;
mod steps;

pub use enclosing::Enclosing;
pub use here::{Here, Outer};
pub use locals::{add_local, named_local, new_name};
pub use statements::stmts;
