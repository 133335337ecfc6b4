// Lists of cells.
ghost use Rattle.std.specs.Prelude.{◌≡◌, ◌+◌, ◌-◌, ◌<◌, ◌≤◌, [], ◌++◌, length, replicate, min, slice_index, slice_set, OnOk, OnErr};
ghost use Rattle.rc_pages.specs.Cells.{pages_for, more_pages};

use crate::bank::Bank;
use crate::few::{FEW_CELLS, Few};
use crate::paged::Paged;
use rc_base::{NoMemory, Steps};
use std::alloc::Global;
use std::marker::Model;
use std::sync::ledger::Ledger;

const FEW: u64 = FEW_CELLS as u64;

/// A list of cells. The first four stand inside it, and those behind them in pages of its own; no cell is
/// ever moved. Contracts see the list of their values.
#[derive(Drop)]
pub struct Pages<L: Ledger> {
    few: Few<L>,
    /// The cells behind the first four.
    rest: Paged<L>,
    len: u64,
}

impl<L: Ledger> Model for Pages<L> {
    ghost use Rattle.std.specs.Prelude.{◌++◌, List, ℕ, take};
    ghost use Rattle.rc_pages.specs.Cells.{Begins};

    ghost Value = { List ℕ };

    ghost view = { λ p. take p.len p.few ++ p.rest };

    ghost invariant = { λ p. Begins p.few p.rest p.len };
}

/// How many of so many cells stand in pages.
#[inline(always)]
fn paged(cells: u64) -> u64
    ensures { result ≡ cells - 4 }
{
    cells.saturating_sub(FEW)
}

impl<L: Ledger> Pages<L> {
    /// An empty list. It takes no memory.
    pub fn new(alloc: Global) -> Pages<L>
        ensures { result ≡ [] }
    {
        Pages {
            few: Few::new(),
            rest: Paged::new(alloc),
            len: 0,
        }
    }

    /// How many cells it has.
    pub fn len(&self) -> u64
        ensures { result ≡ length self.now }
    {
        self.len
    }

    /// Appends so many zeros. The pages that are missing come out of the bank as far as it has some; the
    /// first four cells need none.
    #[inline(always)]
    pub fn push_zeros(&mut self, n: u64, bank: &mut Bank<L>) -> Result<(), NoMemory>
        ensures ok { OnOk result (self.new ≡ self.old ++ replicate n 0) }
        ensures err { OnErr result (self.new ≡ self.old) }
        ensures spare { OnOk result (bank.new ≡ record bank.old { kept = bank.old.kept - more_pages (length self.old) n }) }
        ensures same { OnErr result (bank.new ≡ bank.old) }
        ensures few { OnOk result (length self.new ≤ 18446744073709551615) }
    {
        let Some(len) = self.len.checked_add(n) else {
            return Err(NoMemory);
        };
        self.rest.push_zeros(paged(len) - paged(self.len), bank)?;
        self.len = len;
        Ok(())
    }

    /// The cell at a place. It is the only call that reads one, and is a step on the one counter of the list's
    /// ledger.
    #[inline(always)]
    pub fn get(&self, at: u64, steps: &mut Steps<L>) -> u128
        requires { at < length self.now }
        ensures value { result ≡ slice_index self.now at }
        ensures step { steps.new ≡ steps.old + 1 }
    {
        if at < FEW {
            return self.few.read(at as usize, steps);
        }
        self.rest.get(at - FEW, steps)
    }

    /// Writes the cell at a place. No cell is read.
    #[inline(always)]
    pub fn set(&mut self, at: u64, value: u128)
        requires { at < length self.old }
        ensures { self.new ≡ slice_set self.old at value }
    {
        if at < FEW {
            self.few.write(at as usize, value);
            return;
        }
        self.rest.set(at - FEW, value);
    }

    /// Lets all cells go. Their pages go to the bank as far as it has free places, and the others are
    /// freed.
    pub fn give_back(&mut self, bank: &mut Bank<L>)
        ensures cells { self.new ≡ [] }
        ensures bank { bank.new ≡ record bank.old { kept = min bank.old.places (bank.old.kept + pages_for (length self.old)) } }
    {
        self.rest.give_back(bank);
        self.few.zero();
        self.len = 0;
    }
}
