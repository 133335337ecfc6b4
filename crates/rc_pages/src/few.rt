// The first cells of a list, which stand in no page.
ghost use Rattle.std.specs.Prelude.{◌≡◌, ◌+◌, ◌<◌, slice_index, slice_set};
ghost use Rattle.rc_pages.specs.Cells.{few_zeros};

use rc_base::Steps;
use std::marker::{Model, PhantomData};
use std::sync::ledger::Ledger;

/// How many cells stand inside a list.
pub(crate) const FEW_CELLS: usize = 4;

/// The first cells of a list, which stand inside it, so that a short list needs no page. Contracts see all
/// four. Whoever reads one counts it on the ledger's counter, as with a cell of a page.
#[derive(Drop)]
pub(crate) struct Few<L: Ledger> {
    cells: [u128; FEW_CELLS],
    ledger: PhantomData<L>,
}

impl<L: Ledger> Model for Few<L> {
    ghost use Rattle.std.specs.Prelude.{◌≡◌, List, ℕ, length};

    ghost Value = { List ℕ };

    ghost view = { λ few. few.cells };

    ghost invariant = { λ few. length few.cells ≡ 4 };
}

impl<L: Ledger> Few<L> {
    /// Four zeros.
    pub(crate) fn new() -> Few<L>
        ensures { result ≡ few_zeros }
    {
        Few {
            cells: [0; FEW_CELLS],
            ledger: PhantomData,
        }
    }

    /// A cell. It is the only call that reads one, and is a step.
    #[inline(always)]
    pub(crate) fn read(&self, place: usize, steps: &mut Steps<L>) -> u128
        requires { place < 4 }
        ensures value { result ≡ slice_index self.now place }
        ensures step { steps.new ≡ steps.old + 1 }
    {
        steps.tick();
        self.cells[place]
    }

    #[inline(always)]
    pub(crate) fn write(&mut self, place: usize, value: u128)
        requires { place < 4 }
        ensures { self.new ≡ slice_set self.old place value }
    {
        self.cells[place] = value;
    }

    /// Writes zero to each cell.
    pub(crate) fn zero(&mut self)
        ensures { self.new ≡ few_zeros }
    {
        self.cells = [0; FEW_CELLS];
    }
}
