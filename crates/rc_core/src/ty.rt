// Types.

/// What a pointer says about the region that it names (after Gay and Aiken).
#[derive(Clone, Copy, Debug, PartialEq, Eq)]
pub enum Note {
    /// Nothing: such a pointer counts as a reference from outside.
    Plain,
    /// It is null, or names the region of the object that holds it.
    SameRegion,
    /// It is null, or names a region above that of the object that holds it.
    ParentPtr,
    /// It is null, or names the traditional region.
    Traditional,
}

/// A type of values, or of the cells that hold them (ISO C 6.2.5, narrowed).
#[derive(Debug, Drop, PartialEq, Eq)]
pub enum Ty {
    Int,
    Unsigned,
    Char,
    Region,
    /// A struct, by its number in the order of the text.
    Struct(u32),
    Pointer(Note, Box<Ty>),
}

/// A type of numbers.
#[derive(Clone, Copy, Debug, PartialEq, Eq)]
pub enum NumberType {
    /// -2147483648 to 2147483647.
    Int,
    /// 0 to 4294967295.
    Unsigned,
    /// 0 to 255.
    Char,
}

/// What arithmetic is done in, after the promotions (ISO C 6.3.1.8).
#[derive(Clone, Copy, Debug, PartialEq, Eq)]
pub enum Signedness {
    /// On `int`: a result that doesn't fit is a trap.
    Signed,
    /// On `unsigned`: results wrap.
    Unsigned,
}
