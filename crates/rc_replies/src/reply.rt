// What a line answers.

/// The answer to a line of a script.
#[derive(Clone, Copy, Debug, PartialEq, Eq)]
pub enum Reply {
    /// A region was made, with this number.
    Region(u32),
    /// An object was made, with this number in its region.
    Object(u32),
    /// As many were made as the limits allow.
    Full,
    Done,
    /// Region 0 isn't deleted.
    Root,
    /// A region whose parent was to be deleted would stay.
    Subregion,
    /// A region that was to be deleted is named by one that would stay, or pinned.
    Reference,
    /// The line is no command, or none that can be obeyed.
    Bad,
}
