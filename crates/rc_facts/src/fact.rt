// What a fact is.

/// What is known of variables that hold null or name a region, by their numbers.
#[derive(Clone, Copy, Debug, PartialEq, Eq)]
pub enum Fact {
    /// The first is null, or the second isn't and both name one region.
    In(u32, u32),
    /// The first is null, or the second isn't and the first's region is the second's or above it.
    Up(u32, u32),
    /// It is null or names the traditional region.
    Trad(u32),
    /// It isn't null.
    NonNull(u32),
}
