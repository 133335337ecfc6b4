// What is kept of an object beside its cells.

/// Where its cells begin among those of its region, how many elements it has, and the number of an
/// element's shape.
#[derive(Clone, Copy)]
pub struct Head {
    pub start: u64,
    pub count: u32,
    pub shape: u32,
}
