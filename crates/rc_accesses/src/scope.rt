// What the code of a function's expressions stands on.

use rc_core::Layouts;
use rc_core::parts::Parts;
use rc_core::ty::Ty;
use std::alloc::Global;

/// What the code of a function's expressions stands on: the allocator, the program, the layouts of
/// its structs, and the types of the function's locals.
#[derive(Clone, Copy)]
pub struct Scope<'p> {
    pub alloc: Global,
    pub parts: &'p Parts,
    pub layouts: &'p Layouts,
    pub locals: &'p [Ty],
}
