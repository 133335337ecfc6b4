// A cell as it is kept.
use rc_core::Kind;
use rc_store::Cell;

/// A value, and what its cell holds.
#[derive(Clone, Copy)]
pub(crate) struct Slot {
    pub kind: Kind,
    pub value: Cell,
}
