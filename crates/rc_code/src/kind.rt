// What cells and locals hold, and the tags that tell them apart in an image.
ghost use Rattle.std.specs.Prelude.{◌≡◌};
ghost use Rattle.rc_code.specs.Kinds.{cell_tag, cell_tagged, cell_type, same_cell, storage_tag, storage_tagged};

use rc_core::ty::{Note, NumberType};

/// What a cell of a type holds. A pointer names the type that it points to by its number.
#[derive(Clone, Copy, Debug, PartialEq, Eq)]
pub enum Cell {
    Number(NumberType),
    Region,
    Pointer(Note, u32),
}

/// What a local, a parameter or a result holds. A pointer names its type by its number.
#[derive(Clone, Copy, Debug, PartialEq, Eq)]
pub enum Storage {
    Number(NumberType),
    Region,
    Pointer(u32),
}

const CELLS: [Cell; 8] = [
    Cell::Number(NumberType::Int),
    Cell::Number(NumberType::Unsigned),
    Cell::Number(NumberType::Char),
    Cell::Region,
    Cell::Pointer(Note::Plain, 0),
    Cell::Pointer(Note::SameRegion, 0),
    Cell::Pointer(Note::ParentPtr, 0),
    Cell::Pointer(Note::Traditional, 0),
];

const STORAGES: [Storage; 5] = [
    Storage::Number(NumberType::Int),
    Storage::Number(NumberType::Unsigned),
    Storage::Number(NumberType::Char),
    Storage::Region,
    Storage::Pointer(0),
];

impl Cell {
    /// The number that tells it apart from cells of other kinds, at most 7.
    pub fn tag(self) -> u8
        ensures { result ≡ cell_tag self }
    {
        match self {
            Cell::Number(NumberType::Int) => 0,
            Cell::Number(NumberType::Unsigned) => 1,
            Cell::Number(NumberType::Char) => 2,
            Cell::Region => 3,
            Cell::Pointer(Note::Plain, _) => 4,
            Cell::Pointer(Note::SameRegion, _) => 5,
            Cell::Pointer(Note::ParentPtr, _) => 6,
            Cell::Pointer(Note::Traditional, _) => 7,
        }
    }

    /// The cell with that tag, a pointer with type 0, or none where the tag is over 7.
    #[tactic(auto, unfolding(crate::specs::Kinds::cells))]
    pub fn tagged(tag: u32) -> Option<Cell>
        ensures { result ≡ cell_tagged tag }
    {
        CELLS.get(tag as usize).copied()
    }

    /// The number of the type that a pointer points to, and 0 for other cells.
    fn type_number(self) -> u32
        ensures { result ≡ cell_type self }
    {
        match self {
            Cell::Pointer(_, type_number) => type_number,
            _ => 0,
        }
    }

    /// Whether both are of one kind, annotation and type included.
    pub fn is_as(self, other: Cell) -> bool
        ensures { result ≡ same_cell self other }
    {
        self.tag() == other.tag() && self.type_number() == other.type_number()
    }
}

impl Storage {
    /// The number that tells it apart from other storage, at most 4.
    pub fn tag(self) -> u8
        ensures { result ≡ storage_tag self }
    {
        match self {
            Storage::Number(NumberType::Int) => 0,
            Storage::Number(NumberType::Unsigned) => 1,
            Storage::Number(NumberType::Char) => 2,
            Storage::Region => 3,
            Storage::Pointer(_) => 4,
        }
    }

    /// The storage with that tag, a pointer with type 0, or none where the tag is over 4.
    #[tactic(auto, unfolding(crate::specs::Kinds::storages))]
    pub fn tagged(tag: u32) -> Option<Storage>
        ensures { result ≡ storage_tagged tag }
    {
        STORAGES.get(tag as usize).copied()
    }
}
