// What encloses a statement.

use rc_core::ty::Ty;
use rc_defined::Context;
use std::alloc::Global;

/// What encloses a statement, and where the memory for its program comes from.
#[derive(Clone, Copy)]
pub struct Enclosing<'a> {
    pub alloc: Global,
    /// What the whole text defines.
    pub context: &'a Context,
    /// The result of the function, none for `void`.
    pub gives: &'a Option<Ty>,
    /// Whether the statement stands in a loop.
    pub looping: bool,
}

impl Enclosing<'_> {
    ghost use Rattle.std.specs.Prelude.{◌≡◌, true};

    /// What encloses a statement in a loop that stands here.
    pub(crate) fn in_loop(&self) -> Enclosing<'_>
        ensures { result ≡ record self.now { looping = true } }
    {
        Enclosing {
            alloc: self.alloc,
            context: self.context,
            gives: self.gives,
            looping: true,
        }
    }
}
