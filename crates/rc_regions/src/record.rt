// The record of a slot.

/// What stands at a slot.
#[derive(Clone, Copy)]
pub(crate) enum Slot {
    Free,
    Root,
    /// A child of the slot that is named.
    Child(u32),
}

/// What is kept of a slot. Each slot but the root's stands in one list: that of its parent's
/// children, or that of the free slots.
#[derive(Clone, Copy)]
pub(crate) struct Record {
    pub slot: Slot,
    pub first_child: Option<u32>,
    /// The neighbours in the list.
    pub previous: Option<u32>,
    pub next: Option<u32>,
    /// How many ancestors the slot has.
    pub depth: u32,
}

/// The record of a free slot that stands in no list.
pub(crate) const BLANK: Record = Record {
    slot: Slot::Free,
    first_child: None,
    previous: None,
    next: None,
    depth: 0,
};
