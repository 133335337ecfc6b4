// The entries of 256 numbers that follow each other.
ghost use Rattle.std.specs.Prelude.{◌≡◌, ◌<◌, ◌+◌, None, Some, length, replicate, slice_index_or, slice_set, IfOk, IsTrue};
ghost use Rattle.rc_slots.specs.Entries.{IsEntry, counted, is_entry, lowered, raised};

use crate::entry::Entry;
use rc_base::NoMemory;
use std::alloc::Global;
use std::marker::Model;

/// How many numbers a chunk has.
pub(crate) const CHUNK_NUMBERS: usize = 256;

/// An entry for each of its numbers, and none for a dead region or one that wasn't made yet.
#[derive(Drop)]
pub(crate) struct Chunk {
    entries: Box<[Option<Entry>; CHUNK_NUMBERS]>,
    live: u32,
}

impl Model for Chunk {
    ghost use Rattle.std.specs.Prelude.{◌≡◌, List, Option, count_by, length};
    ghost use Rattle.rc_slots.specs.declared.entry.Entry.{Entry as Kept};
    ghost use Rattle.rc_slots.specs.Entries.{is_entry};

    ghost Value = { List (Option Kept) };

    ghost view = { λ c. c.entries.value };

    ghost invariant = { λ c. (length c.entries.value ≡ 256) × (c.live ≡ count_by is_entry c.entries.value) };
}

impl Chunk {
    /// No entry.
    ///
    /// # Errors
    ///
    /// Out of memory.
    pub(crate) fn new(alloc: Global) -> Result<Chunk, NoMemory>
        ensures { IfOk result (λ chunk. chunk ≡ replicate 256 None) }
    {
        match Box::new(alloc, [None; CHUNK_NUMBERS]) {
            Ok(entries) => Ok(Chunk { entries, live: 0 }),
            Err(_) => Err(NoMemory),
        }
    }

    pub(crate) fn get(&self, at: usize) -> Option<Entry>
        requires { at < 256 }
        ensures { result ≡ slice_index_or self.now at None }
    {
        self.entries[at]
    }

    /// An entry where there was none.
    pub(crate) fn fill(&mut self, at: usize, entry: Entry)
        requires place { at < 256 }
        requires none { slice_index_or self.old at None ≡ None }
        ensures entries { self.new ≡ slice_set self.old at (Some entry) }
        ensures long { length self.new ≡ 256 }
    {
        self.entries[at] = Some(entry);
        self.live += 1;
    }

    /// No entry where there was one.
    pub(crate) fn clear(&mut self, at: usize)
        requires place { at < 256 }
        requires some { IsEntry (slice_index_or self.old at None) }
        ensures entries { self.new ≡ slice_set self.old at None }
        ensures long { length self.new ≡ 256 }
    {
        self.entries[at] = None;
        self.live -= 1;
    }

    /// One more reference.
    pub(crate) fn raise(&mut self, at: usize)
        requires place { at < 256 }
        requires few { counted (slice_index_or self.old at None) < 18446744073709551615 }
        ensures entries { self.new ≡ slice_set self.old at (raised (slice_index_or self.old at None)) }
        ensures long { length self.new ≡ 256 }
    {
        if let Some(entry) = &mut self.entries[at] {
            entry.count += 1;
        }
    }

    /// One reference less.
    pub(crate) fn lower(&mut self, at: usize)
        requires place { at < 256 }
        requires some { 0 < counted (slice_index_or self.old at None) }
        ensures entries { self.new ≡ slice_set self.old at (lowered (slice_index_or self.old at None)) }
        ensures long { length self.new ≡ 256 }
    {
        if let Some(entry) = &mut self.entries[at] {
            entry.count -= 1;
        }
    }

    pub(crate) fn is_empty(&self) -> bool
        ensures { IsTrue result → self.now ≡ replicate 256 None }
    {
        self.live == 0
    }
}
