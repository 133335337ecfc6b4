// Items of earlier files.
use rc_scope::Names;
use rc_syntax::tree::Item;
use std::alloc::Global;

/// The items of earlier files, by their names. Of items that clash with the same others one is kept.
#[derive(Drop)]
pub struct Earlier<'a> {
    pub(crate) alloc: Global,
    pub(crate) names: Names,
    pub(crate) kept: Vec<Vec<&'a Item>>,
}
