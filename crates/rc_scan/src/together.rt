// Several regions at once.
ghost use Rattle.std.specs.Prelude.{◌≡◌, ◌+◌, ◌<◌, ◌≤◌, ◌↔◌, ◌&&◌, not, if◌then◌else◌, IsTrue, None, All, length, sum_by, slice_index_or};
ghost use Rattle.rc_store.specs.Kept.{KeptStore, view_refs};
ghost use Rattle.rc_store.specs.Sets.{deleted_all, has_child_outside, is_child_of, is_in, without};
ghost use Rattle.rc_store.specs.Stores.{cells_in};

use crate::region::{Region, slot_names};
use rc_base::Steps;
use std::sync::ledger::Ledger;

/// Whether a region is of the set.
fn is_member(set: &[u32], region: usize) -> bool
    ensures { result ≡ is_in set.now region }
{
    for member in set {
        if *member as usize == region {
            return true;
        }
    }
    false
}

/// Whether a region is live and has one of the set as its parent.
fn is_child_of<L: Ledger>(slot: &Option<Region<L>>, set: &[u32]) -> bool
    ensures { result ≡ is_child_of set.now slot.now }
{
    match slot {
        Some(region) => is_member(set, region.parent() as usize),
        None => false,
    }
}

/// Whether the region i is live, isn't of the set, and has one of the set as its parent.
fn is_child_outside<L: Ledger>(regions: &[Option<Region<L>>], i: usize, set: &[u32]) -> bool
    requires { i < length regions.now }
    ensures { result ≡ not (is_in set.now i) && is_child_of set.now (slice_index_or regions.now i None) }
{
    !is_member(set, i) && is_child_of(&regions[i], set)
}

/// Whether a live region that isn't of the set has one of the set as its parent.
pub(crate) fn has_child_outside<L: Ledger>(regions: &[Option<Region<L>>], set: &[u32]) -> bool
    ensures { result ≡ has_child_outside set.now regions.now }
{
    for i in 0..regions.len() {
        if is_child_outside(regions, i, set) {
            return true;
        }
    }
    false
}

/// Whether a counted cell of the region i, if it is live and not of the set, names this one. Each cell
/// that is read is a step.
fn beside_names<L: Ledger>(
    regions: &[Option<Region<L>>],
    i: usize,
    set: &[u32],
    region: u32,
    steps: &mut Steps<L>,
) -> bool
    requires { i < length regions.now }
    ensures found { IsTrue result ↔ (0 < (if is_in set.now i then 0 else view_refs region (slice_index_or regions.now i None))) }
    ensures cost { steps.new ≤ steps.old + cells_in (slice_index_or regions.now i None) }
    ensures never_falls { steps.old ≤ steps.new }
{
    if is_member(set, i) {
        return false;
    }
    slot_names(&regions[i], region, steps)
}

/// Whether a counted cell of a live region that isn't of the set names this one. Each cell that is read
/// is a step.
pub(crate) fn any_beside_names<L: Ledger>(
    regions: &[Option<Region<L>>],
    set: &[u32],
    region: u32,
    steps: &mut Steps<L>,
) -> bool
    ensures found { IsTrue result ↔ (0 < sum_by (view_refs region) (without set.now regions.now)) }
    ensures cost { steps.new ≤ steps.old + sum_by cells_in regions.now }
    ensures never_falls { steps.old ≤ steps.new }
{
    for i in 0..regions.len() {
        if beside_names(regions, i, set, region, steps) {
            return true;
        }
    }
    false
}

/// Lets the regions of a set go.
pub(crate) fn clear_all<L: Ledger>(regions: &mut [Option<Region<L>>], set: &[u32])
    requires { All (λ r. r < length regions.old) set.now }
    ensures { (s : KeptStore) → s.regions ≡ regions.old → deleted_all set.now s ≡ record s { regions = regions.new } }
{
    for region in set {
        regions[*region as usize] = None;
    }
}
