// How an item clashes with an item of an earlier file.

/// How an item clashes with one of an earlier file, and on which line it stands.
#[derive(Clone, Copy, Debug, PartialEq, Eq)]
pub enum Clash {
    /// A struct has other fields, or a function another head.
    Disagree(u32),
    /// A function is defined in both files, or a name is a global of one of them and a global or
    /// function of the other.
    Double(u32),
}
