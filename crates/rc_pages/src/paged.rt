// The cells of a list that stand in pages.
ghost use Rattle.std.specs.Prelude.{◌≡◌, ◌+◌, ◌-◌, ◌*◌, ◌<◌, ◌≤◌, [], ◌++◌, length, take, replicate, min, slice_index, slice_set, IfOk, OnOk, OnErr};
ghost use Rattle.std.specs.List.{concat};
ghost use Rattle.rc_pages.specs.Cells.{AreWhole, Holds, IsClean, IsLonger, pages_under};

use crate::bank::Bank;
use crate::page::Page;
use crate::page_list::PageList;
use crate::raw::PAGE_CELLS;
use rc_base::{NoMemory, Steps};
use std::alloc::Global;
use std::marker::Model;
use std::sync::ledger::Ledger;

const CELLS: u64 = PAGE_CELLS as u64;

/// A list of cells, over pages of its own. Contracts see the list of their values.
#[derive(Drop)]
pub(crate) struct Paged<L: Ledger> {
    alloc: Global,
    pages: PageList<L>,
    len: u64,
    /// Up to here the cells behind the list's own are zero already.
    clean: u64,
}

impl<L: Ledger> Model for Paged<L> {
    ghost use Rattle.std.specs.Prelude.{List, ℕ, take};
    ghost use Rattle.std.specs.List.{concat};
    ghost use Rattle.rc_pages.specs.Cells.{Holds, IsClean};

    ghost Value = { List ℕ };

    ghost view = { λ p. take p.len (concat p.pages.pages) };

    ghost invariant = { λ p. Holds p.pages.pages p.len × IsClean p.pages.pages p.len p.clean };
}

/// How many pages so many cells need.
fn pages_under(cells: u64) -> usize
    ensures { result ≡ pages_under cells }
{
    cells.div_ceil(CELLS) as usize
}

/// Appends new pages.
fn add_new<L: Ledger>(alloc: Global, pages: &mut PageList<L>, count: usize) -> Result<(), NoMemory>
    requires room { count ≤ pages.old.room }
    ensures ok { OnOk result (IsLonger pages.old.pages pages.new.pages count) }
    ensures left { OnOk result (pages.old.room ≤ pages.new.room + count) }
    ensures err { OnErr result (pages.new.pages ≡ pages.old.pages) }
{
    let before = pages.len();
    for _ in 0..count {
        match Page::zeroed(alloc) {
            Ok(page) => pages.push(page),
            Err(NoMemory) => {
                pages.truncate(before);
                return Err(NoMemory);
            }
        }
    }
    Ok(())
}

/// Appends pages out of the bank, with what they hold.
fn add_spare<L: Ledger>(pages: &mut PageList<L>, count: usize, bank: &mut Bank<L>)
    requires room { count ≤ pages.old.room }
    requires kept { count ≤ bank.old.kept }
    ensures pages { IsLonger pages.old.pages pages.new.pages count }
    ensures bank { bank.new ≡ record bank.old { kept = bank.old.kept - count } }
{
    for _ in 0..count {
        pages.push(bank.take());
    }
}

/// Appends pages: spare ones as far as the bank has them. The new ones are asked for before the bank
/// is touched, so that a refusal leaves both as they were.
#[inline(never)]
fn add_pages<L: Ledger>(
    alloc: Global,
    pages: &mut PageList<L>,
    count: usize,
    bank: &mut Bank<L>,
) -> Result<(), NoMemory>
    ensures ok { OnOk result (IsLonger pages.old.pages pages.new.pages count) }
    ensures err { OnErr result (pages.new.pages ≡ pages.old.pages) }
    ensures spare { OnOk result (bank.new ≡ record bank.old { kept = bank.old.kept - count }) }
    ensures same { OnErr result (bank.new ≡ bank.old) }
{
    pages.reserve(count)?;
    let spare = count.min(bank.kept());
    add_new(alloc, pages, count - spare)?;
    add_spare(pages, spare, bank);
    Ok(())
}

/// Makes the cells from one on up to another zero, whatever they held: a whole page at once.
fn clear<L: Ledger>(pages: &mut PageList<L>, from: u64, to: u64)
    requires whole { AreWhole pages.old.pages }
    requires order { from ≤ to }
    requires inside { to ≤ 256 * length pages.old.pages }
    ensures whole { AreWhole pages.new.pages }
    ensures count { length pages.new.pages ≡ length pages.old.pages }
    ensures cells { take to (concat pages.new.pages) ≡ take from (concat pages.old.pages) ++ replicate (to - from) 0 }
{
    let mut at = from;
    while at < to {
        let page = (at / CELLS) as usize;
        let place = (at % CELLS) as usize;
        if place == 0 && to - at >= CELLS {
            pages.zero(page);
            at += CELLS;
        } else {
            pages.write(page, place, 0);
            at += 1;
        }
    }
}

/// A list that grows: how many cells it has, up to where those behind them are zero, and how many it is to
/// have.
#[derive(Clone, Copy)]
struct Growth {
    len: u64,
    clean: u64,
    total: u64,
}

/// Up to where cells are made zero when a list of so many grows to a total: as many more as there were, if
/// the last page has them. So a list that grows cell by cell asks for zeros a few times a page, and a small
/// one pays for none that it doesn't use.
fn clean_to(len: u64, total: u64) -> u64
    ensures enough { total ≤ result }
    ensures inside { result ≤ 256 * pages_under total }
{
    let left = (CELLS - total % CELLS) % CELLS;
    total.saturating_add(left.min(len))
}

/// Appends the pages that a list needs to grow, and makes its new cells zero, with some behind them.
/// Answers up to where.
#[inline(never)]
fn add_clean<L: Ledger>(
    alloc: Global,
    pages: &mut PageList<L>,
    growth: Growth,
    bank: &mut Bank<L>,
) -> Result<u64, NoMemory>
    requires holds { Holds pages.old.pages growth.len }
    requires clean { IsClean pages.old.pages growth.len growth.clean }
    requires more { growth.clean < growth.total }
    ensures holds { OnOk result (Holds pages.new.pages growth.total) }
    ensures clean { IfOk result (λ now. IsClean pages.new.pages growth.len now) }
    ensures enough { IfOk result (λ now. growth.total ≤ now) }
    ensures cells { OnOk result (take growth.len (concat pages.new.pages) ≡ take growth.len (concat pages.old.pages)) }
    ensures err { OnErr result (pages.new.pages ≡ pages.old.pages) }
    ensures spare { OnOk result (bank.new ≡ record bank.old { kept = bank.old.kept - (pages_under growth.total - length pages.old.pages) }) }
    ensures same { OnErr result (bank.new ≡ bank.old) }
{
    let missing = pages_under(growth.total) - pages.len();
    add_pages(alloc, pages, missing, bank)?;
    let clean = clean_to(growth.len, growth.total);
    clear(pages, growth.clean, clean);
    Ok(clean)
}

impl<L: Ledger> Paged<L> {
    /// An empty list. It takes no memory.
    pub(crate) fn new(alloc: Global) -> Paged<L>
        ensures { result ≡ [] }
    {
        Paged {
            alloc,
            pages: PageList::new(alloc),
            len: 0,
            clean: 0,
        }
    }

    /// How many cells it has.
    pub(crate) fn len(&self) -> u64
        ensures { result ≡ length self.now }
    {
        self.len
    }

    /// Appends so many zeros. The pages that are missing come out of the bank as far as it has some.
    #[inline(always)]
    pub(crate) fn push_zeros(&mut self, n: u64, bank: &mut Bank<L>) -> Result<(), NoMemory>
        ensures ok { OnOk result (self.new ≡ self.old ++ replicate n 0) }
        ensures err { OnErr result (self.new ≡ self.old) }
        ensures spare { OnOk result (bank.new ≡ record bank.old { kept = bank.old.kept - (pages_under (length self.old + n) - pages_under (length self.old)) }) }
        ensures same { OnErr result (bank.new ≡ bank.old) }
        ensures few { OnOk result (length self.new ≤ 18446744073709551615) }
    {
        let Some(len) = self.len.checked_add(n) else {
            return Err(NoMemory);
        };
        if len <= self.clean {
            self.len = len;
            return Ok(());
        }
        let growth = Growth {
            len: self.len,
            clean: self.clean,
            total: len,
        };
        self.clean = add_clean(self.alloc, &mut self.pages, growth, bank)?;
        self.len = len;
        Ok(())
    }

    /// The cell at a place. It is the only call that reads one, and is a step on the one counter of the list's
    /// ledger.
    #[inline(always)]
    pub(crate) fn get(&self, at: u64, steps: &mut Steps<L>) -> u128
        requires { at < length self.now }
        ensures value { result ≡ slice_index self.now at }
        ensures step { steps.new ≡ steps.old + 1 }
    {
        self.pages
            .read((at / CELLS) as usize, (at % CELLS) as usize, steps)
    }

    /// Writes the cell at a place. No cell is read.
    #[inline(always)]
    pub(crate) fn set(&mut self, at: u64, value: u128)
        requires { at < length self.old }
        ensures { self.new ≡ slice_set self.old at value }
    {
        self.pages
            .write((at / CELLS) as usize, (at % CELLS) as usize, value);
    }

    /// Lets all cells go. Their pages go to the bank as far as it has free places, and the others are
    /// freed.
    pub(crate) fn give_back(&mut self, bank: &mut Bank<L>)
        ensures cells { self.new ≡ [] }
        ensures bank { bank.new ≡ record bank.old { kept = min bank.old.places (bank.old.kept + pages_under (length self.old)) } }
    {
        let pages = &mut self.pages;
        pages.truncate(bank.free_places());
        while let Some(page) = pages.pop() {
            bank.keep(page);
        }
        self.len = 0;
        self.clean = 0;
    }
}
