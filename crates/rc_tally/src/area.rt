// All cells of a region.
ghost use Rattle.std.specs.Prelude.{◌≡◌, ◌<◌, ◌≤◌, ◌+◌, ◌*◌, ℕ, length, drop, replicate, flat_map};
ghost use Rattle.rc_areas.specs.Areas.{IsLaid, kinds_in, objects_of, size_in};
ghost use Rattle.rc_slots.specs.Entries.{counted, entry_at};
ghost use Rattle.rc_tally.specs.Tally.{IsTaken, codes_refs, held_refs};

use crate::cell::take_back_cell;
use rc_areas::{Area, Head, Shapes};
use rc_base::Steps;
use rc_core::Kind;
use rc_slots::Directory;
use std::sync::ledger::Ledger;

/// Takes back what the cells of an element count, of which the first stands at a place.
fn take_back_element<L: Ledger>(
    area: &Area<L>,
    place: u64,
    shape: &[Kind],
    holder: u32,
    directory: &mut Directory,
    steps: &mut Steps<L>,
)
    requires inside { place + length shape.now ≤ length area.now.codes }
    requires few { length area.now.codes ≤ 18446744073709551615 }
    requires enough { (r : ℕ) → codes_refs r holder shape.now (drop place area.now.codes) ≤ counted (entry_at directory.old r) }
    ensures taken { IsTaken directory.old directory.new (λ r. codes_refs r holder shape.now (drop place area.now.codes)) }
    ensures cost { steps.new ≤ steps.old + length shape.now }
    ensures never_falls { steps.old ≤ steps.new }
{
    for cell in 0..shape.len() {
        take_back_cell(
            area,
            place + cell as u64,
            shape[cell],
            holder,
            directory,
            steps,
        );
    }
}

/// Takes back what the cells of an object's elements count.
fn take_back_elements<L: Ledger>(
    area: &Area<L>,
    head: Head,
    shape: &[Kind],
    holder: u32,
    directory: &mut Directory,
    steps: &mut Steps<L>,
)
    requires inside { head.start + head.count * length shape.now ≤ length area.now.codes }
    requires few { length area.now.codes ≤ 18446744073709551615 }
    requires enough { (r : ℕ) → codes_refs r holder (flat_map (λ ks. ks) (replicate head.count shape.now)) (drop head.start area.now.codes) ≤ counted (entry_at directory.old r) }
    ensures taken { IsTaken directory.old directory.new (λ r. codes_refs r holder (flat_map (λ ks. ks) (replicate head.count shape.now)) (drop head.start area.now.codes)) }
    ensures cost { steps.new ≤ steps.old + head.count * length shape.now }
    ensures never_falls { steps.old ≤ steps.new }
{
    let mut place = head.start;
    for _ in 0..head.count {
        take_back_element(area, place, shape, holder, directory, steps);
        place += shape.len() as u64;
    }
}

/// Takes back what the cells of an object count. No cell is looked at where none of an element counts.
fn take_back_object<L: Ledger>(
    area: &Area<L>,
    head: Head,
    shapes: &Shapes,
    holder: u32,
    directory: &mut Directory,
    steps: &mut Steps<L>,
)
    requires shape { head.shape < length shapes.now }
    requires inside { head.start + size_in shapes.now head ≤ length area.now.codes }
    requires few { length area.now.codes ≤ 18446744073709551615 }
    requires enough { (r : ℕ) → codes_refs r holder (kinds_in shapes.now head) (drop head.start area.now.codes) ≤ counted (entry_at directory.old r) }
    ensures taken { IsTaken directory.old directory.new (λ r. codes_refs r holder (kinds_in shapes.now head) (drop head.start area.now.codes)) }
    ensures cost { steps.new ≤ steps.old + size_in shapes.now head }
    ensures never_falls { steps.old ≤ steps.new }
{
    if !shapes.counts(head.shape) {
        return;
    }
    take_back_elements(area, head, shapes.get(head.shape), holder, directory, steps);
}

/// Takes back what the cells of a region, the holder, count. Each cell that counts is read, which is a
/// step.
pub fn take_back_area<L: Ledger>(
    area: &Area<L>,
    shapes: &Shapes,
    holder: u32,
    directory: &mut Directory,
    steps: &mut Steps<L>,
)
    requires laid { IsLaid shapes.now area.now }
    requires enough { (r : ℕ) → held_refs r holder (objects_of shapes.now area.now) ≤ counted (entry_at directory.old r) }
    ensures taken { IsTaken directory.old directory.new (λ r. held_refs r holder (objects_of shapes.now area.now)) }
    ensures cost { steps.new ≤ steps.old + length area.now.codes }
    ensures never_falls { steps.old ≤ steps.new }
{
    for head in area.heads() {
        take_back_object(area, *head, shapes, holder, directory, steps);
    }
}
