// One value at a time.
ghost use Rattle.std.specs.Prelude.{◌≡◌, ◌<◌, ◌≤◌, ◌+◌, ℕ};
ghost use Rattle.rc_core.specs.Heap.{names};
ghost use Rattle.rc_store.specs.Values.{value_of};
ghost use Rattle.rc_slots.specs.Entries.{IsEntry, counted, entry_at};
ghost use Rattle.rc_tally.specs.Tally.{IsGiven, IsTaken, is_target, pin_refs, value_refs};

use rc_slots::Directory;
use rc_store::Cell;

/// The region that a value names.
pub fn target(value: Cell) -> Option<u32>
    ensures { (r : ℕ) → is_target r result ≡ names r (value_of value) }
{
    match value {
        Cell::Number(_) => None,
        Cell::Nothing => None,
        Cell::Region(region) => Some(region),
        Cell::Pointer(pointer) => Some(pointer.region),
    }
}

/// One reference less to the region that a pinned value names.
pub fn unpin(directory: &mut Directory, value: Cell)
    requires { (r : ℕ) → pin_refs r (value_of value) ≤ counted (entry_at directory.old r) }
    ensures { IsTaken directory.old directory.new (λ r. pin_refs r (value_of value)) }
{
    if let Some(region) = target(value) {
        directory.lower(region);
    }
}

/// One reference more to the region that a pinned value names. The region is live.
pub fn pin(directory: &mut Directory, value: Cell)
    requires live { (r : ℕ) → 0 < pin_refs r (value_of value) → IsEntry (entry_at directory.old r) }
    requires few { (r : ℕ) → counted (entry_at directory.old r) + pin_refs r (value_of value) ≤ 18446744073709551615 }
    ensures { IsGiven directory.old directory.new (λ r. pin_refs r (value_of value)) }
{
    if let Some(region) = target(value) {
        directory.raise(region);
    }
}

/// One reference less to the region that a value names, if it isn't the holder's.
pub fn take_back(directory: &mut Directory, holder: u32, value: Cell)
    requires { (r : ℕ) → value_refs r holder (value_of value) ≤ counted (entry_at directory.old r) }
    ensures { IsTaken directory.old directory.new (λ r. value_refs r holder (value_of value)) }
{
    if let Some(region) = target(value) {
        if region != holder {
            directory.lower(region);
        }
    }
}

/// One reference more to the region that a value names, if it isn't the holder's. The region is live.
pub fn give(directory: &mut Directory, holder: u32, value: Cell)
    requires live { (r : ℕ) → 0 < value_refs r holder (value_of value) → IsEntry (entry_at directory.old r) }
    requires few { (r : ℕ) → counted (entry_at directory.old r) + value_refs r holder (value_of value) ≤ 18446744073709551615 }
    ensures { IsGiven directory.old directory.new (λ r. value_refs r holder (value_of value)) }
{
    if let Some(region) = target(value) {
        if holder != region {
            directory.raise(region);
        }
    }
}
