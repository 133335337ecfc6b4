// What the directory has of a live region.

/// The slot at which a live region stands, the number of its parent, and how many references to it are
/// counted.
#[derive(Clone, Copy)]
pub struct Entry {
    pub slot: u32,
    pub parent: u32,
    pub count: u64,
}
