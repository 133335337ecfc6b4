// Ways up, by links that double.
ghost use Rattle.std.specs.Prelude.{◌≡◌, ◌≤◌, ◌+◌, count_ones};
ghost use Rattle.rc_regions.specs.Ascents.{AreAscents, ancestor};
ghost use Rattle.rc_regions.specs.Columns.{columns_of};
ghost use Rattle.rc_regions.specs.Slots.{IsLive};

use crate::table::Table;
use rc_base::Steps;
use std::sync::ledger::Ledger;

/// The slot so many parents above. Each link that it follows is a step, and there is one for each 1
/// among the binary digits of the distance.
pub(crate) fn climb<L: Ledger>(table: &Table, from: u32, distance: u32, steps: &mut Steps<L>) -> u32
    requires live { IsLive (columns_of table.now).slots from }
    requires ascents { AreAscents (columns_of table.now).slots (columns_of table.now).depth (columns_of table.now).links }
    requires far { distance ≤ (columns_of table.now).depth from }
    ensures above { result ≡ ancestor (columns_of table.now).slots distance from }
    ensures cost { steps.new ≡ steps.old + count_ones distance }
{
    let mut slot = from;
    let mut rest = distance;
    let mut power = 0;
    while rest > 0 {
        if rest % 2 == 1 {
            steps.tick();
            slot = table.ways.link_at(slot, power);
        }
        rest /= 2;
        power += 1;
    }
    slot
}
