// What typing rules refuse.

use rc_syntax::tree::Spot;

/// What is wrong with a node.
#[derive(Clone, Copy, Debug, PartialEq, Eq)]
pub enum Refusal {
    /// A name, struct, field or function definition isn't there.
    Unknown,
    /// A name is declared twice in one scope.
    Twice,
    /// The types don't fit.
    Mistyped,
    /// A call has another number of arguments than its function has parameters.
    Arity,
    /// An array without elements, a struct or globals with too many cells.
    TooBig,
}

/// A node at which a rule fails, by its first word, and what is wrong with it.
#[derive(Clone, Copy, Debug, PartialEq, Eq)]
pub struct Fault {
    pub at: Spot,
    pub refusal: Refusal,
}
