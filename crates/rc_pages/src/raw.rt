// The only raw memory: a page, and five functions over it.
ghost use Rattle.std.specs.Prelude.{◌≡◌, ◌<◌, ℕ, List, [], length, slice_index, slice_set, IfOk};
ghost use Rattle.rc_pages.specs.Cells.{zero_page};
ghost use Rattle.rc_pages.specs.Memory.{page_owns, page_lends};

use rc_base::NoMemory;
use std::alloc::{Allocator, Global};
use std::marker::Model;

/// How many cells a page has.
pub(crate) const PAGE_CELLS: usize = 256;

const PAGE_BYTES: usize = 4096;

const PAGE_ALIGN: usize = 16;

/// A raw piece of 4,096 bytes. Contracts see the cells that were written: none until it is first
/// zeroed, and 256 from then on. It is neither `Copy` nor `Drop`, so it has one owner, and only
/// `free` ends it.
pub(crate) struct RawPage {
    at: *mut u128,
    ghost cells: { List ℕ },
}

impl Model for RawPage {
    ghost also_owns = { λ page. page_owns page.at page.cells };

    ghost also_shares = { λ page _ κ. page_lends page.at page.cells κ };
}

impl RawPage {
    /// A page from the heap, whatever lies in it.
    pub(crate) fn take(alloc: &Global) -> Result<RawPage, NoMemory>
        ensures { IfOk result (λ page. page.cells ≡ []) }
    {
        match alloc.allocate(PAGE_BYTES, PAGE_ALIGN) {
            Ok(block) => Ok(RawPage {
                at: block as *mut u128,
            }),
            Err(_) => Err(NoMemory),
        }
    }

    /// Writes zero to each cell, whatever the page held.
    pub(crate) fn zero(&mut self)
        ensures { self.new.cells ≡ zero_page }
    {
        unsafe {
            *(self.at as *mut [u128; PAGE_CELLS]) = [0; PAGE_CELLS];
        }
    }

    #[inline(always)]
    pub(crate) fn read(&self, place: usize) -> u128
        requires { place < length self.now.cells }
        ensures { result ≡ slice_index self.now.cells place }
    {
        unsafe { *self.at.add(place) }
    }

    #[inline(always)]
    pub(crate) fn write(&mut self, place: usize, value: u128)
        requires { place < length self.old.cells }
        ensures { self.new.cells ≡ slice_set self.old.cells place value }
    {
        unsafe {
            *self.at.add(place) = value;
        }
    }

    /// Gives the page back to the heap.
    pub(crate) fn free(self, alloc: &Global) {
        let RawPage { at } = self;
        unsafe {
            alloc.deallocate(at as *mut u8, PAGE_BYTES, PAGE_ALIGN);
        }
    }
}
