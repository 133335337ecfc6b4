// What a function's spots are made of.

use rc_image_steps::Site;
use std::alloc::Global;

/// A function with the tables of its targets.
#[derive(Clone, Copy)]
pub(crate) struct Walk<'a> {
    pub(crate) alloc: Global,
    pub(crate) site: Site<'a>,
    /// For each instruction whether a jump leads to it.
    pub(crate) targets: &'a [bool],
    /// For each instruction how many targets stand before it.
    pub(crate) ranks: &'a [u32],
}
