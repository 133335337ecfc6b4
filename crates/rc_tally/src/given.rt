// All cells of a region, whose references are given again.
ghost use Rattle.std.specs.Prelude.{◌≡◌, ◌<◌, ◌≤◌, ◌+◌, ◌*◌, ℕ, length, drop, replicate, flat_map};
ghost use Rattle.rc_areas.specs.Areas.{IsLaid, objects_of};
ghost use Rattle.rc_tally.specs.Tally.{IsGiven, MayBeGiven, codes_refs, held_refs};

use crate::cell::give_cell;
use rc_areas::{Area, Head, Shapes};
use rc_base::Steps;
use rc_core::Kind;
use rc_slots::Directory;
use std::sync::ledger::Ledger;

/// Gives what the cells of an element count, of which the first stands at a place.
fn give_element<L: Ledger>(
    area: &Area<L>,
    place: u64,
    shape: &[Kind],
    holder: u32,
    directory: &mut Directory,
    steps: &mut Steps<L>,
)
    requires inside { place + length shape.now ≤ length area.now.codes }
    requires few { length area.now.codes ≤ 18446744073709551615 }
    requires may { MayBeGiven directory.old (λ r. codes_refs r holder shape.now (drop place area.now.codes)) }
    ensures given { IsGiven directory.old directory.new (λ r. codes_refs r holder shape.now (drop place area.now.codes)) }
    ensures cost { steps.new ≤ steps.old + length shape.now }
    ensures never_falls { steps.old ≤ steps.new }
{
    for cell in 0..shape.len() {
        give_cell(
            area,
            place + cell as u64,
            shape[cell],
            holder,
            directory,
            steps,
        );
    }
}

/// Gives what the cells of an object count.
fn give_object<L: Ledger>(
    area: &Area<L>,
    head: Head,
    shape: &[Kind],
    holder: u32,
    directory: &mut Directory,
    steps: &mut Steps<L>,
)
    requires inside { head.start + head.count * length shape.now ≤ length area.now.codes }
    requires few { length area.now.codes ≤ 18446744073709551615 }
    requires may { MayBeGiven directory.old (λ r. codes_refs r holder (flat_map (λ ks. ks) (replicate head.count shape.now)) (drop head.start area.now.codes)) }
    ensures given { IsGiven directory.old directory.new (λ r. codes_refs r holder (flat_map (λ ks. ks) (replicate head.count shape.now)) (drop head.start area.now.codes)) }
    ensures cost { steps.new ≤ steps.old + head.count * length shape.now }
    ensures never_falls { steps.old ≤ steps.new }
{
    let mut place = head.start;
    for _ in 0..head.count {
        give_element(area, place, shape, holder, directory, steps);
        place += shape.len() as u64;
    }
}

/// Gives what the cells of a region, the holder, count. Each cell that counts is read, which is a
/// step.
pub fn give_area<L: Ledger>(
    area: &Area<L>,
    shapes: &Shapes,
    holder: u32,
    directory: &mut Directory,
    steps: &mut Steps<L>,
)
    requires laid { IsLaid shapes.now area.now }
    requires may { MayBeGiven directory.old (λ r. held_refs r holder (objects_of shapes.now area.now)) }
    ensures given { IsGiven directory.old directory.new (λ r. held_refs r holder (objects_of shapes.now area.now)) }
    ensures cost { steps.new ≤ steps.old + length area.now.codes }
    ensures never_falls { steps.old ≤ steps.new }
{
    for head in area.heads() {
        give_object(
            area,
            *head,
            shapes.get(head.shape),
            holder,
            directory,
            steps,
        );
    }
}
