// What is known where an expression stands.

use crate::context::Context;
use rc_rules::Meaning;
use rc_scope::Scopes;
use std::alloc::Global;

/// What is known where an expression stands, and where the memory for its program comes from.
#[derive(Clone, Copy)]
pub struct Environment<'a> {
    pub alloc: Global,
    /// What the whole text defines.
    pub context: &'a Context,
    /// What names stand for.
    pub names: &'a Scopes<Meaning>,
}
