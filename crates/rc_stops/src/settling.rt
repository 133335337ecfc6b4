// What is used from each stop on.
ghost use Rattle.std.specs.Prelude.{◌≡◌, ◌<◌, ◌≤◌, ◌+◌, ◌↔◌, ℕ, suc, true, length, IsTrue, IfOk, OnOk};
ghost use Rattle.rc_base.specs.BitSets.{marks};
ghost use Rattle.rc_stops.specs.Paths.{stop_at, UsedOn};
ghost use Rattle.rc_stops.specs.Rows.{row_at, AllFit, AreUsed};
ghost use Rattle.rc_stops.specs.Waits.{is_among, AreBelow, AreLinks, Leading, Visited};

use crate::links::{Links, links_of};
use crate::looking::{look, stop_of};
use crate::stop::Stop;
use crate::waiting::{take, wake};
use rc_base::{BitSet, NoMemory};
use std::alloc::Global;

/// Wakes the stops that lead to a stop, other than by falling.
fn wake_leading(
    waiting: &mut Vec<usize>,
    stops: &[Stop],
    links: &Links,
    at: usize,
) -> Result<(), NoMemory>
    requires at { at < length stops.now }
    requires below { AreBelow (length stops.now) waiting.old.items }
    requires links { AreLinks stops.now links.now.first.items links.now.next.items }
    ensures below { OnOk result (AreBelow (length stops.now) waiting.new.items) }
    ensures woken { OnOk result ((k : ℕ) → (stop_at stops.now k).leads ≡ Some at → IsTrue (is_among waiting.new.items k)) }
    ensures kept { OnOk result ((k : ℕ) → IsTrue (is_among waiting.old.items k) → IsTrue (is_among waiting.new.items k)) }
    ensures count { OnOk result (length waiting.new.items ≤ length waiting.old.items + length stops.now) }
{
    let mut k = links.first_to(at);
    'links: while k < stops.len() {
        wake(waiting, k)?;
        let next = links.next_of(k);
        k = next;
    }
    Ok(())
}

/// Wakes the stop before, which may lead to a stop by falling.
fn wake_falling(waiting: &mut Vec<usize>, at: usize) -> Result<(), NoMemory>
    ensures below { OnOk result ((n : ℕ) → at < n → AreBelow n waiting.old.items → AreBelow n waiting.new.items) }
    ensures woken { OnOk result ((k : ℕ) → suc k ≡ at → IsTrue (is_among waiting.new.items k)) }
    ensures kept { OnOk result ((k : ℕ) → IsTrue (is_among waiting.old.items k) → IsTrue (is_among waiting.new.items k)) }
    ensures count { OnOk result (length waiting.new.items ≤ length waiting.old.items + 1) }
{
    let first = at == 0;
    if first {
        return Ok(());
    }
    wake(waiting, at - 1)?;
    Ok(())
}

/// Wakes all stops that lead to a stop.
fn wake_before(
    waiting: &mut Vec<usize>,
    stops: &[Stop],
    links: &Links,
    at: usize,
) -> Result<(), NoMemory>
    requires at { at < length stops.now }
    requires below { AreBelow (length stops.now) waiting.old.items }
    requires links { AreLinks stops.now links.now.first.items links.now.next.items }
    ensures below { OnOk result (AreBelow (length stops.now) waiting.new.items) }
    ensures woken { OnOk result ((k : ℕ) → Leading stops.now k at → IsTrue (is_among waiting.new.items k)) }
    ensures kept { OnOk result ((k : ℕ) → IsTrue (is_among waiting.old.items k) → IsTrue (is_among waiting.new.items k)) }
    ensures count { OnOk result (length waiting.new.items ≤ length waiting.old.items + (length stops.now + 1)) }
{
    wake_leading(waiting, stops, links, at)?;
    wake_falling(waiting, at)?;
    Ok(())
}

/// Wakes so many stops, so that the last is looked at first.
fn wake_all(waiting: &mut Vec<usize>, count: usize) -> Result<(), NoMemory>
    requires { AreBelow count waiting.old.items }
    ensures below { OnOk result (AreBelow count waiting.new.items) }
    ensures woken { OnOk result ((k : ℕ) → k < count → IsTrue (is_among waiting.new.items k)) }
{
    for at in 0..count {
        wake(waiting, at)?;
    }
    Ok(())
}

/// Looks at a stop, and wakes those that lead to it where its row grew.
fn visit(
    rows: &mut [BitSet],
    stops: &[Stop],
    links: &Links,
    waiting: &mut Vec<usize>,
    at: usize,
) -> Result<(), NoMemory>
    requires at { at < length stops.now }
    requires long { length rows.old ≡ length stops.now }
    requires fits { AllFit stops.now }
    requires links { AreLinks stops.now links.now.first.items links.now.next.items }
    requires below { AreBelow (length stops.now) waiting.old.items }
    ensures long { length rows.new ≡ length rows.old }
    ensures below { OnOk result (AreBelow (length stops.now) waiting.new.items) }
    ensures visited { OnOk result (Visited stops.now at rows.old rows.new waiting.old.items waiting.new.items) }
{
    let stop = stop_of(stops, at);
    let grew = look(rows, at, &stop);
    if !grew {
        return Ok(());
    }
    wake_before(waiting, stops, links, at)?;
    Ok(())
}

/// Looks at stops until none waits.
fn settle(
    rows: &mut [BitSet],
    stops: &[Stop],
    links: &Links,
    waiting: &mut Vec<usize>,
) -> Result<(), NoMemory>
    requires long { length rows.old ≡ length stops.now }
    requires fits { AllFit stops.now }
    requires used { AreUsed stops.now rows.old }
    requires links { AreLinks stops.now links.now.first.items links.now.next.items }
    requires below { AreBelow (length stops.now) waiting.old.items }
    requires waits { (k : ℕ) → k < length stops.now → IsTrue (is_among waiting.old.items k) }
    ensures long { length rows.new ≡ length rows.old }
    ensures used { OnOk result ((at x : ℕ) → at < length stops.now → IsTrue (marks (row_at rows.new at) x) ↔ UsedOn stops.now x at) }
{
    'looks: loop {
        match take(waiting) {
            None => return Ok(()),
            Some(at) => visit(rows, stops, links, waiting, at)?,
        }
    }
}

/// What is used from each stop on, as one row of bits a stop. A stop is looked at once, and again for each
/// time that the row of a stop to which it leads grew, so at most 257 times.
///
/// # Errors
///
/// Out of memory.
pub fn used(alloc: Global, stops: &[Stop]) -> Result<Vec<BitSet>, NoMemory>
    requires fits { AllFit stops.now }
    ensures long { IfOk result (λ rows. length rows.items ≡ length stops.now) }
    ensures used { IfOk result (λ rows. (at x : ℕ) → at < length stops.now → IsTrue (marks (row_at rows.items at) x) ↔ UsedOn stops.now x at) }
{
    let mut rows = Vec::from_elem(alloc, BitSet::empty(), stops.len())?;
    let links = links_of(alloc, stops)?;
    let mut waiting = Vec::new(alloc);
    wake_all(&mut waiting, stops.len())?;
    settle(&mut rows, stops, &links, &mut waiting)?;
    Ok(rows)
}
