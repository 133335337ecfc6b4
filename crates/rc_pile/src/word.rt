// A value in sixteen bytes.
ghost use Rattle.std.specs.Prelude.{◌≡◌, ◌≢◌, ◌↔◌, ◌+◌, ◌*◌, ◌/◌, ◌%◌, ◌<◌, ◌^◌, ℕ, ℤ, IsTrue};
ghost use Rattle.rc_core.specs.Heap.{Number, Null, Handle, Address};
ghost use Rattle.rc_core.specs.Heap.{Pointer as PointerTo};
ghost use Rattle.rc_core.specs.Evaluation.{is_true, same_value};
ghost use Rattle.rc_store.specs.Values.{address_of};
ghost use Rattle.rc_store.specs.Values.{value_of as value_of_cell};
ghost use Rattle.rc_pile.specs.Words.{value_of};

use rc_store::{Cell, Pointer};

/// A value that a local or an operand has. Numbers are read by `low` alone.
#[derive(Clone, Copy)]
pub struct Word {
    pub(crate) low: u64,
    pub(crate) high: u64,
}

const NULL: u64 = 1 << 32;

const REGION: u64 = 2 << 32;

const POINTER: u64 = 3 << 32;

impl Word {
    #[inline(always)]
    pub fn of_number(n: i64) -> Word
        ensures { value_of result ≡ Number n }
    {
        Word {
            low: n.cast_unsigned(),
            high: 0,
        }
    }

    #[inline(always)]
    pub fn null() -> Word
        ensures { value_of result ≡ Null }
    {
        Word { low: 0, high: NULL }
    }

    #[inline(always)]
    pub fn of_region(region: u32) -> Word
        ensures { value_of result ≡ Handle region }
    {
        Word {
            low: 0,
            high: REGION | region as u64,
        }
    }

    #[inline(always)]
    pub fn of_pointer(pointer: Pointer) -> Word
        ensures { value_of result ≡ PointerTo (address_of pointer) }
    {
        Word {
            low: (pointer.object as u64) << 32 | pointer.index as u64,
            high: POINTER | pointer.region as u64,
        }
    }

    #[inline(always)]
    pub fn of_cell(cell: Cell) -> Word
        ensures { value_of result ≡ value_of_cell cell }
    {
        match cell {
            Cell::Number(n) => Word::of_number(n),
            Cell::Nothing => Word::null(),
            Cell::Region(region) => Word::of_region(region),
            Cell::Pointer(pointer) => Word::of_pointer(pointer),
        }
    }

    /// The number, of one that is a number.
    #[inline(always)]
    pub fn number(self) -> i64
        ensures { (n : ℤ) → value_of self ≡ Number n → result ≡ n }
    {
        self.low.cast_signed()
    }

    /// The region, of one that is a region.
    #[tactic(auto, using(crate::proofs::WordLaws::region_is))]
    #[inline(always)]
    pub fn region(self) -> u32
        ensures { (r : ℕ) → value_of self ≡ Handle r → result ≡ r }
    {
        (self.high % (1 << 32)) as u32
    }

    /// The pointer, of one that is a pointer.
    #[tactic(auto, using(crate::proofs::WordLaws::pointer_is))]
    #[inline(always)]
    pub fn pointer(self) -> Pointer
        ensures { (a : Address) → value_of self ≡ PointerTo a → address_of result ≡ a }
    {
        Pointer {
            region: (self.high % (1 << 32)) as u32,
            object: (self.low >> 32) as u32,
            index: (self.low % (1 << 32)) as u32,
        }
    }

    #[inline(always)]
    pub fn cell(self) -> Cell
        ensures { value_of_cell result ≡ value_of self }
    {
        match self.high >> 32 {
            0 => Cell::Number(self.number()),
            1 => Cell::Nothing,
            2 => Cell::Region(self.region()),
            _ => Cell::Pointer(self.pointer()),
        }
    }

    #[inline(always)]
    pub fn is_null(self) -> bool
        ensures { IsTrue result ↔ (value_of self ≡ Null) }
    {
        self.high >> 32 == 1
    }

    /// Whether it is null, of one that is no number.
    #[inline(always)]
    pub fn leads_nowhere(self) -> bool
        ensures { ((n : ℤ) → value_of self ≢ Number n) → (IsTrue result ↔ (value_of self ≡ Null)) }
    {
        self.high < REGION
    }

    /// Whether it is a number that isn't zero, a region or a pointer.
    #[inline(always)]
    pub fn is_true(self) -> bool
        ensures { result ≡ is_true (value_of self) }
    {
        match self.high >> 32 {
            0 => self.number() != 0,
            1 => false,
            _ => true,
        }
    }

    /// Whether both stand for one value.
    #[inline(always)]
    pub fn is_same(self, other: Word) -> bool
        ensures { result ≡ same_value (value_of self) (value_of other) }
    {
        match (self.cell(), other.cell()) {
            (Cell::Number(n), Cell::Number(m)) => n == m,
            (Cell::Nothing, Cell::Nothing) => true,
            (Cell::Region(r), Cell::Region(q)) => r == q,
            (Cell::Pointer(a), Cell::Pointer(b)) => {
                a.region == b.region && a.object == b.object && a.index == b.index
            }
            _ => false,
        }
    }
}
