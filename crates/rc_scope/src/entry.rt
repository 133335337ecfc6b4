// Entries of scopes.

/// The number of a name, what it stands for, and the place of the entry of this name that it hides.
#[derive(Drop)]
pub struct Entry<T> {
    pub name: u32,
    pub meaning: T,
    pub hidden: Option<usize>,
}
