// What an operand leads to.
ghost use Rattle.std.specs.Prelude.{◌≡◌, ◌⊎◌, ℕ};
ghost use Rattle.rc_core.specs.Heap.{Address, Handle, Null, Pointer as PointerTo};
ghost use Rattle.rc_pile.specs.Words.{value_of};
ghost use Rattle.rc_calls.specs.Found.{FindsObject, FindsRegion, exit_of};

use rc_base::Trap;
use rc_ops::Exit;
use rc_pile::Word;
use rc_store::{Heap, Pointer};

/// Why operands lead to no region, object or cell.
#[derive(Clone, Copy, Debug, PartialEq, Eq)]
pub enum Miss {
    /// Null.
    Null,
    /// A region that is dead, or a pointer into one.
    Dead,
    /// There is no such element, or an index is out of its range.
    Bounds,
    /// There was no memory.
    Memory,
}

impl Miss {
    /// How the machine leaves then.
    #[inline(always)]
    pub fn exit(self) -> Exit
        ensures { result ≡ exit_of self }
    {
        match self {
            Miss::Null => Exit::Trapped(Trap::Null),
            Miss::Dead => Exit::Stale,
            Miss::Bounds => Exit::Trapped(Trap::Bounds),
            Miss::Memory => Exit::NoMemory,
        }
    }
}

/// The live region that an operand names.
///
/// # Errors
///
/// Null traps, and a dead region is touched.
#[inline(always)]
pub fn live_region<H: Heap>(heap: &H, word: Word) -> Result<u32, Exit>
    requires { (value_of word ≡ Null) ⊎ ((r : ℕ) × (value_of word ≡ Handle r)) }
    ensures { FindsRegion (H.store heap.now) (value_of word) result }
{
    if word.leads_nowhere() {
        return Err(Exit::Trapped(Trap::Null));
    }
    let region = word.region();
    if !heap.is_live(region) {
        return Err(Exit::Stale);
    }
    Ok(region)
}

/// The pointer that an operand is, where it leads into a live region.
///
/// # Errors
///
/// Null traps, and a dead region is touched.
#[inline(always)]
pub(crate) fn live_pointer<H: Heap>(heap: &H, word: Word) -> Result<Pointer, Miss>
    requires { (value_of word ≡ Null) ⊎ ((a : Address) × (value_of word ≡ PointerTo a)) }
    ensures { FindsObject (H.store heap.now) (value_of word) result }
{
    if word.leads_nowhere() {
        return Err(Miss::Null);
    }
    let pointer = word.pointer();
    if !heap.is_live(pointer.region) {
        return Err(Miss::Dead);
    }
    Ok(pointer)
}
