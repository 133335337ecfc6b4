// The pages of a list of cells.
ghost use Rattle.std.specs.Prelude.{◌≡◌, ◌+◌, ◌<◌, ◌≤◌, ◌++◌, ◌∷◌, [], length, take, slice_index, slice_index_or, slice_set, OnOk};
ghost use Rattle.rc_pages.specs.Cells.{Popped, zero_page};

use crate::page::Page;
use rc_base::{NoMemory, Steps};
use std::alloc::Global;
use std::marker::Model;
use std::sync::ledger::Ledger;

/// Pages in order. Contracts see the cells of each page, and how many more pages have room.
#[derive(Drop)]
pub(crate) struct PageList<L: Ledger> {
    pages: Vec<Page<L>>,
}

impl<L: Ledger> Model for PageList<L> {
    ghost use Rattle.std.specs.Prelude.{◌-◌, length, vec_capacity};
    ghost use Rattle.rc_pages.specs.Cells.{PagesState};

    ghost Value = { PagesState };

    ghost view = { λ l. record { pages = l.pages.items; room = vec_capacity l.pages - length l.pages.items } };
}

impl<L: Ledger> PageList<L> {
    /// No page. It takes no memory.
    pub(crate) fn new(alloc: Global) -> PageList<L>
        ensures { result.pages ≡ [] }
    {
        PageList {
            pages: Vec::new(alloc),
        }
    }

    pub(crate) fn len(&self) -> usize
        ensures { result ≡ length self.now.pages }
    {
        self.pages.len()
    }

    /// Makes room for so many more pages.
    pub(crate) fn reserve(&mut self, count: usize) -> Result<(), NoMemory>
        ensures pages { self.new.pages ≡ self.old.pages }
        ensures room { OnOk result (count ≤ self.new.room) }
    {
        match self.pages.reserve(count) {
            Ok(()) => Ok(()),
            Err(_) => Err(NoMemory),
        }
    }

    /// Appends a page. There is room for it.
    pub(crate) fn push(&mut self, page: Page<L>)
        requires { 0 < self.old.room }
        ensures pages { self.new.pages ≡ self.old.pages ++ page ∷ [] }
        ensures room { self.old.room ≤ self.new.room + 1 }
    {
        self.pages.push(page).unwrap();
    }

    /// Takes the last page out.
    pub(crate) fn pop(&mut self) -> Option<Page<L>>
        ensures { Popped result self.old.pages self.new.pages }
    {
        self.pages.pop()
    }

    /// Lets the pages go that come behind the first `count`.
    pub(crate) fn truncate(&mut self, count: usize)
        ensures { self.new.pages ≡ take count self.old.pages }
    {
        self.pages.truncate(count);
    }

    /// A cell of a page.
    #[inline(always)]
    pub(crate) fn read(&self, page: usize, place: usize, steps: &mut Steps<L>) -> u128
        requires page { page < length self.now.pages }
        requires place { place < length (slice_index_or self.now.pages page []) }
        ensures value { result ≡ slice_index (slice_index_or self.now.pages page []) place }
        ensures step { steps.new ≡ steps.old + 1 }
    {
        self.pages[page].read(place, steps)
    }

    /// Writes a cell of a page.
    #[inline(always)]
    pub(crate) fn write(&mut self, page: usize, place: usize, value: u128)
        requires page { page < length self.old.pages }
        requires place { place < length (slice_index_or self.old.pages page []) }
        ensures { self.new.pages ≡ slice_set self.old.pages page (slice_set (slice_index_or self.old.pages page []) place value) }
    {
        self.pages[page].write(place, value);
    }

    /// Writes zero to each cell of a page.
    #[inline(never)]
    pub(crate) fn zero(&mut self, page: usize)
        requires { page < length self.old.pages }
        ensures { self.new.pages ≡ slice_set self.old.pages page zero_page }
    {
        self.pages[page].zero();
    }
}
