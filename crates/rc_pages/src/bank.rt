// Spare pages.
ghost use Rattle.std.specs.Prelude.{◌≡◌, ◌+◌, ◌-◌, ◌<◌, length, IfOk};

use crate::page::Page;
use rc_base::NoMemory;
use std::alloc::Global;
use std::marker::Model;
use std::sync::ledger::Ledger;

/// Keeps pages that were given back, up to its number of places, so that lists can use them again.
/// Contracts see the places and how many of them have a page.
#[derive(Drop)]
pub struct Bank<L: Ledger> {
    pages: Vec<Page<L>>,
    places: u32,
}

impl<L: Ledger> Model for Bank<L> {
    ghost use Rattle.std.specs.Prelude.{◌≤◌, length, vec_capacity};
    ghost use Rattle.rc_pages.specs.Cells.{BankState, AreWhole};

    ghost Value = { BankState };

    ghost view = { λ b. record { places = b.places; kept = length b.pages.items } };

    ghost invariant = { λ b. (length b.pages.items ≤ b.places) × (b.places ≤ vec_capacity b.pages) × AreWhole b.pages.items };
}

impl<L: Ledger> Bank<L> {
    /// A bank without a page, with so many places.
    pub fn new(alloc: Global, places: u32) -> Result<Bank<L>, NoMemory>
        ensures { IfOk result (λ bank. bank ≡ record { places = places; kept = 0 }) }
    {
        let pages = Vec::with_capacity(alloc, places as usize)?;
        Ok(Bank { pages, places })
    }

    pub(crate) fn kept(&self) -> usize
        ensures { result ≡ self.now.kept }
    {
        self.pages.len()
    }

    /// Takes a page out. What it holds is not known.
    pub(crate) fn take(&mut self) -> Page<L>
        requires { 0 < self.old.kept }
        ensures bank { self.new ≡ record self.old { kept = self.old.kept - 1 } }
        ensures whole { length result ≡ 256 }
    {
        self.pages.pop().unwrap()
    }

    pub(crate) fn free_places(&self) -> usize
        ensures { self.now.kept + result ≡ self.now.places }
    {
        self.places as usize - self.pages.len()
    }

    pub(crate) fn keep(&mut self, page: Page<L>)
        requires place { self.old.kept < self.old.places }
        requires whole { length page ≡ 256 }
        ensures { self.new ≡ record self.old { kept = self.old.kept + 1 } }
    {
        self.pages.push(page).unwrap();
    }
}
