// The orders in which a function's sites come.

/// An order of sites. The two differ at loops alone: the third part of a loop's head stands before its
/// body, and has its points behind it.
#[derive(Clone, Copy)]
pub enum Order {
    /// As they stand in the text.
    Text,
    /// As their points come.
    Points,
}
