// What a run stands on.

use rc_base::Limits;
use rc_core::Layouts;
use rc_core::parts::Parts;
use std::alloc::Global;

/// What a run stands on: the allocator, the program, the layouts of its structs, and the limits.
#[derive(Clone, Copy)]
pub struct Setting<'p> {
    pub alloc: Global,
    pub parts: &'p Parts,
    pub layouts: &'p Layouts,
    pub limits: Limits,
}
