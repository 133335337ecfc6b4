// Where a caller waits.

/// A call that waits for another one: its function, and the instruction at which it goes on.
#[derive(Clone, Copy, Debug, PartialEq, Eq)]
pub struct Caller {
    pub function: u32,
    pub place: u32,
}
