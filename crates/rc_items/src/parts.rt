// The parts of an item, as they are written.

use rc_syntax::tree::{Constant, Name, Param, Spot, TypeName};

/// A function without its body.
#[derive(Drop)]
pub(crate) struct Head<'a> {
    pub(crate) at: Spot,
    /// Whether it may delete a region.
    pub(crate) deletes: bool,
    /// The type of its result, none for `void`.
    pub(crate) gives: &'a Option<TypeName>,
    pub(crate) name: &'a Name,
    pub(crate) params: &'a [Param],
}

/// A global.
#[derive(Drop)]
pub(crate) struct WrittenGlobal<'a> {
    pub(crate) at: Spot,
    pub(crate) type_name: &'a TypeName,
    pub(crate) name: &'a Name,
    /// How many elements it has, where it is an array.
    pub(crate) length: Option<u32>,
    /// Its first value, where one is written.
    pub(crate) constant: &'a Option<Constant>,
}
