// What a cell has, and where it is.
ghost use Rattle.std.specs.Prelude.{◌≡◌, ◌↔◌, IsTrue};

/// An element of an object, or the end of the object.
#[derive(Clone, Copy, Debug, PartialEq, Eq)]
pub struct Pointer {
    pub region: u32,
    pub object: u32,
    pub index: u32,
}

/// What a cell holds.
#[derive(Clone, Copy, Debug, PartialEq, Eq)]
pub enum Cell {
    Number(i64),
    /// Null.
    Nothing,
    Region(u32),
    Pointer(Pointer),
}

/// A cell: the element in which it lies, and its number there.
#[derive(Clone, Copy, Debug, PartialEq, Eq)]
pub struct Place {
    pub pointer: Pointer,
    pub cell: u32,
}

/// Why a pointer leads to no element.
#[derive(Clone, Copy, Debug, PartialEq, Eq)]
pub enum Missed {
    /// Its region is dead.
    Dead,
    /// The object has no such element.
    Outside,
}

/// Why a region or an object wasn't made.
#[derive(Clone, Copy, Debug, PartialEq, Eq)]
pub enum MakeFault {
    /// There are as many as the limit.
    Full,
    /// Out of memory.
    Memory,
}

/// Why a region wasn't deleted.
#[derive(Clone, Copy, Debug, PartialEq, Eq)]
pub enum Denied {
    /// It is region 0.
    Root,
    /// A live region has it as its parent.
    Subregion,
    /// A counted cell of another live region names it, or a pin does.
    Reference,
}

impl Cell {
    ghost use Rattle.rc_core.specs.Heap.{names};
    ghost use Rattle.rc_store.specs.Values.{value_of};

    /// Whether it names the region.
    pub fn names(self, region: u32) -> bool
        ensures { result ≡ names region (value_of self) }
    {
        match self {
            Cell::Number(_) => false,
            Cell::Nothing => false,
            Cell::Region(r) => r == region,
            Cell::Pointer(p) => p.region == region,
        }
    }

    /// Whether they are one value.
    pub fn is(self, other: Cell) -> bool
        ensures { IsTrue result ↔ (value_of self ≡ value_of other) }
    {
        match (self, other) {
            (Cell::Number(a), Cell::Number(b)) => a == b,
            (Cell::Nothing, Cell::Nothing) => true,
            (Cell::Region(a), Cell::Region(b)) => a == b,
            (Cell::Pointer(a), Cell::Pointer(b)) => {
                a.region == b.region && a.object == b.object && a.index == b.index
            }
            _ => false,
        }
    }
}
