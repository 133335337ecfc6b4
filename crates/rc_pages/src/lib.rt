//! Lists of cells over raw pages, and a bank that keeps spare pages to be used again. The first four cells
//! of a list stand inside it, so that a short one has no page.
//!
//! A page is a raw piece of 4,096 bytes, which holds 256 cells of 16 bytes. It has one owner, a list or
//! the bank, so no two lists share a page, and it is freed once, where its owner drops it. No module but
//! `raw` has a raw pointer.
#![tactic(auto)]

mod bank;
mod few;
mod page;
mod page_list;
mod paged;
mod pages;
mod raw;

pub use bank::Bank;
pub use pages::Pages;
