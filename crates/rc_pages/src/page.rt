// A page that is freed where it is dropped.
ghost use Rattle.std.specs.Prelude.{◌≡◌, ◌+◌, ◌<◌, List, ℕ, [], length, slice_index, slice_set, IfOk};
ghost use Rattle.rc_pages.specs.Cells.{zero_page};

use crate::raw::RawPage;
use rc_base::{NoMemory, Steps};
use std::alloc::Global;
use std::marker::{Model, PhantomData};
use std::sync::ledger::Ledger;

/// A page with the handle that frees it. Contracts see its cells, as those of the raw page. Whoever reads
/// one counts it on the ledger's counter, of which there is one.
pub(crate) struct Page<L: Ledger> {
    raw: RawPage,
    alloc: Global,
    ledger: PhantomData<L>,
}

impl<L: Ledger> Model for Page<L> {
    ghost Value = { List ℕ };

    ghost view = { λ page. page.raw.cells };
}

impl<L: Ledger> Page<L> {
    /// A new page of zeros.
    pub(crate) fn zeroed(alloc: Global) -> Result<Page<L>, NoMemory>
        ensures { IfOk result (λ page. page ≡ zero_page) }
    {
        let mut raw = RawPage::take(&alloc)?;
        raw.zero();
        Ok(Page {
            raw,
            alloc,
            ledger: PhantomData,
        })
    }

    /// A cell. It is the only call that reads one, and is a step.
    #[inline(always)]
    pub(crate) fn read(&self, place: usize, steps: &mut Steps<L>) -> u128
        requires { place < length self.now }
        ensures value { result ≡ slice_index self.now place }
        ensures step { steps.new ≡ steps.old + 1 }
    {
        steps.tick();
        self.raw.read(place)
    }

    #[inline(always)]
    pub(crate) fn write(&mut self, place: usize, value: u128)
        requires { place < length self.old }
        ensures { self.new ≡ slice_set self.old place value }
    {
        self.raw.write(place, value);
    }

    /// Writes zero to each cell.
    pub(crate) fn zero(&mut self)
        ensures { self.new ≡ zero_page }
    {
        self.raw.zero();
    }
}

impl<L: Ledger> Drop for Page<L> {
    fn drop(self) {
        let Page {
            raw,
            alloc,
            ledger: _,
        } = self;
        raw.free(&alloc);
    }
}
