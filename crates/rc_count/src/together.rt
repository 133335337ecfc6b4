// Several regions at once.
ghost use Rattle.std.specs.Prelude.{◌≡◌, ◌<◌, ◌≤◌, ◌+◌, ◌↔◌, ℕ, All, Contains, IsTrue};
ghost use Rattle.rc_store.specs.Stores.{live_in};
ghost use Rattle.rc_space.specs.Spaces.{count_of};
ghost use Rattle.rc_count.specs.Together.{all_held, cells_among};

use rc_base::Steps;
use rc_space::Space;
use std::sync::ledger::Ledger;

/// Whether region 0 is in a set.
pub(crate) fn has_root(set: &[u32]) -> bool
    ensures { IsTrue result ↔ Contains set.now 0 }
{
    for region in set {
        if *region == 0 {
            return true;
        }
    }
    false
}

/// Whether a reference to a region of a set is counted.
pub(crate) fn is_named<L: Ledger>(space: &Space<L>, set: &[u32]) -> bool
    ensures { IsTrue result ↔ ((r : ℕ) × Contains set.now r × (0 < count_of space.now r)) }
{
    for region in set {
        if space.count(*region) > 0 {
            return true;
        }
    }
    false
}

/// How many cells the regions of a set have, all of them live. They are few enough.
pub(crate) fn cells_of<L: Ledger>(space: &Space<L>, set: &[u32]) -> u64
    requires live { All (λ r. IsTrue (live_in space.now.regions r)) set.now }
    requires few { cells_among space.now.regions set.now ≤ 18446744073709551615 }
    ensures { result ≡ cells_among space.now.regions set.now }
{
    let mut cells = 0;
    for region in set {
        cells += space.cells(*region);
    }
    cells
}

/// Takes back what the cells of a set's regions count, all of them live. Each cell that counts is read,
/// which is a step.
pub(crate) fn take_back_all<L: Ledger>(space: &mut Space<L>, set: &[u32], steps: &mut Steps<L>)
    requires live { All (λ r. IsTrue (live_in space.old.regions r)) set.now }
    requires enough { (r : ℕ) → all_held space.old.regions set.now r ≤ count_of space.old r }
    ensures counts { (r : ℕ) → count_of space.new r + all_held space.old.regions set.now r ≡ count_of space.old r }
    ensures targets { (r : ℕ) → 0 < all_held space.old.regions set.now r → IsTrue (live_in space.old.regions r) }
    ensures regions { space.new.regions ≡ space.old.regions }
    ensures cost { steps.new ≤ steps.old + cells_among space.old.regions set.now }
    ensures never_falls { steps.old ≤ steps.new }
{
    for region in set {
        space.take_back_region(*region, steps);
    }
}

/// Gives again what the cells of a set's regions count, all of them live. Each cell that counts is read,
/// which is a step.
pub(crate) fn give_all<L: Ledger>(space: &mut Space<L>, set: &[u32], steps: &mut Steps<L>)
    requires live { All (λ r. IsTrue (live_in space.old.regions r)) set.now }
    requires targets { (r : ℕ) → 0 < all_held space.old.regions set.now r → IsTrue (live_in space.old.regions r) }
    requires few { (r : ℕ) → count_of space.old r + all_held space.old.regions set.now r ≤ 18446744073709551615 }
    ensures counts { (r : ℕ) → count_of space.new r ≡ count_of space.old r + all_held space.old.regions set.now r }
    ensures regions { space.new.regions ≡ space.old.regions }
    ensures cost { steps.new ≤ steps.old + cells_among space.old.regions set.now }
    ensures never_falls { steps.old ≤ steps.new }
{
    for region in set {
        space.give_region(*region, steps);
    }
}
