// Between values and their codes.
ghost use Rattle.std.specs.Prelude.{◌≡◌, IsTrue};
ghost use Rattle.rc_core.specs.declared.layouts.Kind.{Kind as CellKind};
ghost use Rattle.rc_store.specs.Values.{suits, value_of};
ghost use Rattle.rc_cells.specs.Codes.{code_of, decoded, pointer_coded, region_coded};

use rc_core::Kind;
use rc_store::{Cell, Pointer};

/// How many numbers 32 bits tell apart.
const WORD: u128 = 4294967296;

/// The code of a value: a number has its 64 bits, null has 0, a region has 2^32 added to its number,
/// and a pointer 2^96 added to its region times 2^64, its object times 2^32 and its index.
#[inline(always)]
pub fn encode(value: Cell) -> u128
    ensures code { result ≡ code_of (value_of value) }
    ensures back { (kind : CellKind) → IsTrue (suits kind (value_of value)) → decoded kind result ≡ value_of value }
{
    match value {
        Cell::Number(number) => number.cast_unsigned() as u128,
        Cell::Nothing => 0,
        Cell::Region(region) => WORD + region as u128,
        Cell::Pointer(pointer) => {
            ((WORD + pointer.region as u128) * WORD + pointer.object as u128) * WORD
                + pointer.index as u128
        }
    }
}

/// The region with this code, or null.
#[inline(always)]
fn region_in(code: u128) -> Cell
    ensures { value_of result ≡ region_coded code }
{
    if code == 0 {
        return Cell::Nothing;
    }
    Cell::Region((code % WORD) as u32)
}

/// The pointer with this code, or null.
#[inline(always)]
fn pointer_in(code: u128) -> Cell
    ensures { value_of result ≡ pointer_coded code }
{
    if code == 0 {
        return Cell::Nothing;
    }
    Cell::Pointer(Pointer {
        region: (code / WORD / WORD % WORD) as u32,
        object: (code / WORD % WORD) as u32,
        index: (code % WORD) as u32,
    })
}

/// The value that has this code in a cell of this kind. Zero is zero or null in every cell.
#[inline(always)]
pub fn decode(kind: Kind, code: u128) -> Cell
    ensures { value_of result ≡ decoded kind code }
{
    match kind {
        Kind::Number => Cell::Number(((code % (WORD * WORD)) as u64).cast_signed()),
        Kind::Region => region_in(code),
        Kind::Pointer(_) => pointer_in(code),
    }
}
