ghost use Rattle.std.specs.Prelude.{◌≡◌, ◌<◌};

use rc_base::{NoMemory, Steps};
use rc_pages::{Bank, Pages};
use std::alloc::Global;
use std::marker::Brand;
use std::sync::ledger::{Blank, Ledger};
use std::test::Fail;

/// Writes to each cell this value more than its place.
fn count_up<L: Ledger>(pages: &mut Pages<L>, first: u128) {
    for at in 0..pages.len() {
        pages.set(at, first.wrapping_add(at as u128));
    }
}

/// Whether the list has so many cells, each with this value more than its place.
fn counts_up<L: Ledger>(pages: &Pages<L>, len: u64, first: u128, steps: &mut Steps<L>) -> bool {
    for at in 0..pages.len() {
        if pages.get(at, steps) != first.wrapping_add(at as u128) {
            return false;
        }
    }
    pages.len() == len
}

/// Whether the list has so many cells, and those from a place on are zeros.
fn ends_in_zeros<L: Ledger>(pages: &Pages<L>, len: u64, from: u64, steps: &mut Steps<L>) -> bool {
    for at in from..pages.len() {
        if pages.get(at, steps) != 0 {
            return false;
        }
    }
    pages.len() == len
}

/// Two lists of two pages each are filled, and the pages of one come back in a third.
fn spare_page_is_cleared<L: Ledger>(alloc: Global, blank: Blank) -> Result<bool, Fail>
    requires name { blank.name ≡ L.name }
    requires parts { blank.parts ≡ L.parts }
    requires some { 0 < L.parts }
{
    let mut steps = Steps::<L>::start(blank);
    let mut bank = Bank::new(alloc, 3)?;
    let mut first = Pages::<L>::new(alloc);
    let mut second = Pages::<L>::new(alloc);
    first.push_zeros(257, &mut bank)?;
    second.push_zeros(257, &mut bank)?;
    count_up(&mut first, 1 << 127);
    count_up(&mut second, 7);
    let filled = counts_up(&first, 257, 1 << 127, &mut steps);
    first.give_back(&mut bank);
    let mut third = Pages::<L>::new(alloc);
    third.push_zeros(257, &mut bank)?;
    Ok(
        filled
            && ends_in_zeros(&third, 257, 0, &mut steps)
            && counts_up(&second, 257, 7, &mut steps),
    )
}

#[test]
fn a_spare_page_is_used_again_and_cleared(rt: HostRuntime) -> Result<(), Fail> {
    assert!(rt; spare_page_is_cleared::<Brand>(rt.alloc(), Blank::new(1))?);
    Ok(())
}

/// A list of so many cells is filled, grows by one and is filled again, is given back and grows anew.
fn edge_is_crossed<L: Ledger>(alloc: Global, len: u64, blank: Blank) -> Result<bool, Fail>
    requires name { blank.name ≡ L.name }
    requires parts { blank.parts ≡ L.parts }
    requires some { 0 < L.parts }
{
    let mut steps = Steps::<L>::start(blank);
    let mut bank = Bank::new(alloc, 2)?;
    let mut pages = Pages::<L>::new(alloc);
    pages.push_zeros(len, &mut bank)?;
    count_up(&mut pages, 1);
    let filled = counts_up(&pages, len, 1, &mut steps);
    pages.push_zeros(1, &mut bank)?;
    let more = pages.len();
    let grown = ends_in_zeros(&pages, more, len, &mut steps);
    count_up(&mut pages, 9);
    let refilled = counts_up(&pages, more, 9, &mut steps);
    pages.give_back(&mut bank);
    pages.push_zeros(more, &mut bank)?;
    Ok(filled && grown && refilled && ends_in_zeros(&pages, more, 0, &mut steps))
}

/// Up to the last cell inside a list, to the first in a page, and around the end of a page.
const EDGES: [u64; 10] = [0, 1, 2, 3, 4, 5, 258, 259, 260, 261];

#[test]
fn cells_inside_and_in_pages_are_one_list(rt: HostRuntime) -> Result<(), Fail> {
    for len in &EDGES {
        assert!(rt; edge_is_crossed::<Brand>(rt.alloc(), *len, Blank::new(1))?);
    }
    Ok(())
}

/// Four pages are given back to a bank of two places, and as many cells are made again.
fn full_bank_frees_the_others<L: Ledger>(alloc: Global, blank: Blank) -> Result<bool, Fail>
    requires name { blank.name ≡ L.name }
    requires parts { blank.parts ≡ L.parts }
    requires some { 0 < L.parts }
{
    let mut steps = Steps::<L>::start(blank);
    let mut bank = Bank::new(alloc, 2)?;
    let mut pages = Pages::<L>::new(alloc);
    pages.push_zeros(1000, &mut bank)?;
    count_up(&mut pages, 1);
    pages.give_back(&mut bank);
    let mut others = Pages::<L>::new(alloc);
    others.push_zeros(1000, &mut bank)?;
    Ok(ends_in_zeros(&others, 1000, 0, &mut steps))
}

#[test]
fn a_full_bank_frees_the_others(rt: HostRuntime) -> Result<(), Fail> {
    assert!(rt; full_bank_frees_the_others::<Brand>(rt.alloc(), Blank::new(1))?);
    Ok(())
}

/// Fills a list of 300 cells, with a spare page left in the bank, and pushes 1,000 more.
fn refused_push_leaves_the_list<L: Ledger>(alloc: Global, blank: Blank) -> Result<bool, NoMemory>
    requires name { blank.name ≡ L.name }
    requires parts { blank.parts ≡ L.parts }
    requires some { 0 < L.parts }
{
    let mut steps = Steps::<L>::start(blank);
    let mut bank = Bank::new(alloc, 8)?;
    let mut spare = Pages::<L>::new(alloc);
    spare.push_zeros(600, &mut bank)?;
    spare.give_back(&mut bank);
    let mut pages = Pages::<L>::new(alloc);
    pages.push_zeros(300, &mut bank)?;
    count_up(&mut pages, 1);
    match pages.push_zeros(1000, &mut bank) {
        Ok(()) => Ok(ends_in_zeros(&pages, 1300, 300, &mut steps)),
        Err(_) => Ok(counts_up(&pages, 300, 1, &mut steps)),
    }
}

/// With ample memory the push succeeds. Where an allocation is made to fail, the list is as it was.
#[test]
fn a_refused_push_leaves_the_list(rt: HostRuntime) {
    if let Ok(holds) = refused_push_leaves_the_list::<Brand>(rt.alloc(), Blank::new(1)) {
        assert!(rt; holds);
    }
}
