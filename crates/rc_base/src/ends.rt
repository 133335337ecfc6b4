// How a run ends.

/// Why a run was stopped by a rule of the language. The numbers are those of the error messages'
/// order, from 1.
#[derive(Clone, Copy, Debug, PartialEq, Eq)]
pub enum Trap {
    /// A null pointer or region was used.
    Null = 1,
    /// An index or a pointer lies outside its array.
    Bounds,
    /// An array was asked for with a negative number of elements.
    Size,
    /// A division by zero.
    Zero,
    /// A result that is no `int`.
    Overflow,
    /// A shift by less than 0 or more than 31.
    Shift,
    /// A `sameregion` cell would name another region than its own.
    SameRegion,
    /// A `parentptr` cell would name a region that isn't above its own.
    ParentPtr,
    /// A `traditional` cell would name another region than the traditional one.
    Traditional,
    /// The traditional region was to be deleted.
    Root,
    /// A region with a live subregion was to be deleted.
    Subregion,
    /// A region that is named from outside was to be deleted.
    Reference,
    /// The run made as many regions, or a region has as many objects, as the limits allow.
    Full,
}

/// How a run ends.
#[derive(Clone, Copy, Debug, PartialEq, Eq)]
pub enum End {
    /// `main` gave this value.
    Exit(i32),
    /// A trap, with its line.
    Trapped(Trap, u32),
    /// One more turn was asked for than the limits allow.
    Spent,
}

/// What a run may use up: turns, regions made, and objects of each region.
#[derive(Clone, Copy, Debug, PartialEq, Eq)]
pub struct Limits {
    pub turns: u64,
    pub regions: u32,
    pub blocks: u32,
}

/// What cut a run short.
#[derive(Clone, Copy, Debug, PartialEq, Eq)]
pub enum RunFault {
    /// The input failed.
    ReadFault = 26,
    /// The output failed.
    WriteFault = 27,
    /// There was no memory.
    Memory = 28,
}
