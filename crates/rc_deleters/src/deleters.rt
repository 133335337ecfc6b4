// Which functions may delete.
ghost use Rattle.std.specs.Prelude.{◌≡◌, ◌<◌, length, IfOk};
ghost use Rattle.rc_base.specs.BitSets.{marks};
ghost use Rattle.rc_code.specs.Soundness.{Sound};
ghost use Rattle.rc_stops.specs.Rows.{row_at};
ghost use Rattle.rc_deleters.specs.Calls.{first_in, TellsDeleters};

use crate::blocks::{blocks_of, first_of, led};
use rc_base::{BitSet, NoMemory};
use rc_code::Parts;
use rc_stops::used;
use std::alloc::Global;

/// Which functions of an image may delete.
#[derive(Drop)]
pub struct Deleters {
    /// The number of each function's first stop.
    pub firsts: Vec<usize>,
    /// A row for each stop, which shows 0 where a path from it leads to a deletion.
    pub rows: Vec<BitSet>,
}

/// The row of that number, an empty one where there is none.
fn row_of(rows: &[BitSet], at: usize) -> BitSet
    requires { at < length rows.now }
    ensures { result ≡ row_at rows.now at }
{
    rows[at]
}

impl Deleters {
    /// Whether the function of that number may delete.
    pub fn may_delete(&self, number: u32) -> bool
        requires { first_in self.now.firsts.items number < length self.now.rows.items }
        ensures { result ≡ marks (row_at self.now.rows.items (first_in self.now.firsts.items number)) 0 }
    {
        row_of(&self.rows, first_of(&self.firsts, number as usize)).contains(0)
    }
}

/// Which functions of an image may delete.
///
/// # Errors
///
/// Out of memory.
pub fn deleters_of(alloc: Global, parts: &Parts) -> Result<Deleters, NoMemory>
    requires { Sound parts.now }
    ensures { IfOk result (λ d. TellsDeleters parts.now d) }
{
    let blocks = blocks_of(alloc, parts.functions.as_slice())?;
    let firsts = blocks.firsts;
    let stops = led(blocks.stops, firsts.as_slice());
    let rows = used(alloc, stops.as_slice())?;
    Ok(Deleters { firsts, rows })
}
