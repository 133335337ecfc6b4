// Running a script over a new heap.
ghost use Rattle.std.specs.Prelude.{◌≡◌, ◌<◌};

use rc_base::{Buffer, Limits, NoMemory, Steps};
use rc_count::CountHeap;
use rc_scan::ScanHeap;
use rc_sets::{ScriptFault, script};
use rc_store::Heap;
use std::alloc::Global;
use std::marker::Brand;
use std::sync::ledger::{Blank, Ledger};

/// A script, and the limits in which it runs.
#[derive(Clone, Copy)]
pub(crate) struct Script<'a> {
    pub(crate) regions: u32,
    pub(crate) blocks: u32,
    pub(crate) text: &'a [u8],
}

fn count_from<L: Ledger>(
    alloc: Global,
    of: Script<'_>,
    out: &mut Buffer,
    blank: Blank,
) -> Result<Result<(), ScriptFault>, NoMemory>
    requires name { blank.name ≡ L.name }
    requires parts { blank.parts ≡ L.parts }
    requires some { 0 < L.parts }
{
    let mut heap = CountHeap::<L>::new(alloc)?;
    heap.limit(&Limits {
        turns: 0,
        regions: of.regions,
        blocks: of.blocks,
    });
    let mut steps = Steps::<L>::start(blank);
    Ok(script(alloc, of.text, &mut heap, out, &mut steps))
}

/// Runs a script over a new heap that counts.
pub(crate) fn count(
    alloc: Global,
    of: Script<'_>,
    out: &mut Buffer,
) -> Result<Result<(), ScriptFault>, NoMemory> {
    count_from::<Brand>(alloc, of, out, Blank::new(1))
}

fn look_from<L: Ledger>(
    alloc: Global,
    of: Script<'_>,
    out: &mut Buffer,
    blank: Blank,
) -> Result<Result<(), ScriptFault>, NoMemory>
    requires name { blank.name ≡ L.name }
    requires parts { blank.parts ≡ L.parts }
    requires some { 0 < L.parts }
{
    let mut heap = ScanHeap::<L>::new(alloc)?;
    heap.limit(&Limits {
        turns: 0,
        regions: of.regions,
        blocks: of.blocks,
    });
    let mut steps = Steps::<L>::start(blank);
    Ok(script(alloc, of.text, &mut heap, out, &mut steps))
}

/// Runs a script over a new plain heap.
pub(crate) fn look(
    alloc: Global,
    of: Script<'_>,
    out: &mut Buffer,
) -> Result<Result<(), ScriptFault>, NoMemory> {
    look_from::<Brand>(alloc, of, out, Blank::new(1))
}

/// Whether a script answers this over a heap that counts.
pub(crate) fn is_counted(alloc: Global, of: Script<'_>, output: &[u8]) -> Result<bool, NoMemory> {
    let mut out = Buffer::new(alloc, 10_000_000, Vec::new(alloc))?;
    let ended = count(alloc, of, &mut out)?;
    Ok(ended == Ok(()) && out.taken() == output)
}

/// Whether a script answers this over a plain heap.
pub(crate) fn is_looked_up(alloc: Global, of: Script<'_>, output: &[u8]) -> Result<bool, NoMemory> {
    let mut out = Buffer::new(alloc, 100_000, Vec::new(alloc))?;
    let ended = look(alloc, of, &mut out)?;
    Ok(ended == Ok(()) && out.taken() == output)
}
