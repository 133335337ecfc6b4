// One cell at a time.
ghost use Rattle.std.specs.Prelude.{◌≡◌, ◌<◌, ◌≤◌, ◌+◌, ℕ, length, slice_index};
ghost use Rattle.rc_cells.specs.Codes.{decoded};
ghost use Rattle.rc_cells.specs.Follow.{cell_refs};
ghost use Rattle.rc_slots.specs.Entries.{counted, entry_at};
ghost use Rattle.rc_tally.specs.Tally.{IsGiven, IsTaken, MayBeGiven};

use crate::tally::{give, take_back};
use rc_areas::Area;
use rc_base::Steps;
use rc_cells::decode;
use rc_core::Kind;
use rc_slots::Directory;
use rc_store::is_counted;
use std::sync::ledger::Ledger;

/// Takes back what the cell at a place counts. A cell that counts is read, which is a step.
pub(crate) fn take_back_cell<L: Ledger>(
    area: &Area<L>,
    place: u64,
    kind: Kind,
    holder: u32,
    directory: &mut Directory,
    steps: &mut Steps<L>,
)
    requires place { place < length area.now.codes }
    requires enough { (r : ℕ) → cell_refs r holder kind (decoded kind (slice_index area.now.codes place)) ≤ counted (entry_at directory.old r) }
    ensures taken { IsTaken directory.old directory.new (λ r. cell_refs r holder kind (decoded kind (slice_index area.now.codes place))) }
    ensures cost { steps.new ≤ steps.old + 1 }
    ensures never_falls { steps.old ≤ steps.new }
{
    if !is_counted(kind) {
        return;
    }
    let value = decode(kind, area.code(place, steps));
    take_back(directory, holder, value);
}

/// Gives what the cell at a place counts. A cell that counts is read, which is a step.
pub(crate) fn give_cell<L: Ledger>(
    area: &Area<L>,
    place: u64,
    kind: Kind,
    holder: u32,
    directory: &mut Directory,
    steps: &mut Steps<L>,
)
    requires place { place < length area.now.codes }
    requires may { MayBeGiven directory.old (λ r. cell_refs r holder kind (decoded kind (slice_index area.now.codes place))) }
    ensures given { IsGiven directory.old directory.new (λ r. cell_refs r holder kind (decoded kind (slice_index area.now.codes place))) }
    ensures cost { steps.new ≤ steps.old + 1 }
    ensures never_falls { steps.old ≤ steps.new }
{
    if !is_counted(kind) {
        return;
    }
    let value = decode(kind, area.code(place, steps));
    give(directory, holder, value);
}
