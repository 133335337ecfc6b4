// The directory.
ghost use Rattle.std.specs.Prelude.{◌≡◌, ◌<◌, ◌≤◌, ◌+◌, ◌/◌, ◌++◌, ◌∷◌, [], None, Some, length, slice_set, IsTrue, OnOk, OnErr};
ghost use Rattle.rc_slots.specs.Entries.{IsEntry, counted, entry_at, is_entry, lowered, raised, slot_of};
ghost use Rattle.rc_slots.specs.Chunks.{AreSame, IsChanged, chunk_at, entry_in, is_chunk};

use crate::chunk::{CHUNK_NUMBERS, Chunk};
use crate::entry::Entry;
use rc_base::NoMemory;
use std::alloc::Global;
use std::marker::Model;

/// What stands for the number of a region where none is known. No region has it.
const NO_NUMBER: u64 = 4294967296;

/// What is kept of each live region, by its number: regions count from 0 in the order in which they
/// are made. Contracts see a list that is as long as regions were made, with none for a dead one.
#[derive(Drop)]
pub struct Directory {
    alloc: Global,
    chunks: Vec<Option<Chunk>>,
    len: usize,
    /// The live region that was made or written last, if it is known: its slot isn't looked up.
    recent: u64,
    recent_slot: u32,
}

impl Model for Directory {
    ghost use Rattle.std.specs.Prelude.{List, Option};
    ghost use Rattle.rc_slots.specs.declared.entry.Entry.{Entry as Kept};
    ghost use Rattle.rc_slots.specs.Chunks.{Holds, IsRecent, entries_of};

    ghost Value = { List (Option Kept) };

    ghost view = { λ d. entries_of d.chunks.items d.len };

    ghost invariant = { λ d. Holds d.chunks.items d.len × IsRecent d.chunks.items d.recent d.recent_slot };
}

fn entry_in(chunks: &[Option<Chunk>], number: usize) -> Option<Entry>
    ensures { result ≡ entry_in chunks.now number }
{
    match chunks.get(number / CHUNK_NUMBERS) {
        None => None,
        Some(slot) => match slot {
            None => None,
            Some(chunk) => chunk.get(number % CHUNK_NUMBERS),
        },
    }
}

#[inline(never)]
fn is_live(chunks: &[Option<Chunk>], number: usize) -> bool
    ensures { result ≡ is_entry (entry_in chunks.now number) }
{
    match entry_in(chunks, number) {
        None => false,
        Some(_entry) => true,
    }
}

#[inline(never)]
fn slot(chunks: &[Option<Chunk>], number: usize) -> u32
    requires { IsEntry (entry_in chunks.now number) }
    ensures { slot_of (entry_in chunks.now number) ≡ Some result }
{
    match entry_in(chunks, number) {
        None => unreachable!(),
        Some(entry) => entry.slot,
    }
}

/// The slot of a region, if it is live.
#[inline(never)]
fn slot_if_live(chunks: &[Option<Chunk>], number: usize) -> Option<u32>
    ensures { result ≡ slot_of (entry_in chunks.now number) }
{
    match entry_in(chunks, number) {
        None => None,
        Some(entry) => Some(entry.slot),
    }
}

/// An entry where there was none, in a chunk that is there.
fn fill(chunks: &mut [Option<Chunk>], number: usize, entry: Entry)
    requires chunk { IsTrue (is_chunk (chunk_at chunks.old (number / 256))) }
    requires none { entry_in chunks.old number ≡ None }
    ensures { IsChanged chunks.old chunks.new number (Some entry) }
{
    match &mut chunks[number / CHUNK_NUMBERS] {
        None => unreachable!(),
        Some(chunk) => chunk.fill(number % CHUNK_NUMBERS, entry),
    }
}

fn clear(chunks: &mut [Option<Chunk>], number: usize)
    requires { IsEntry (entry_in chunks.old number) }
    ensures { IsChanged chunks.old chunks.new number None }
{
    match &mut chunks[number / CHUNK_NUMBERS] {
        None => unreachable!(),
        Some(chunk) => chunk.clear(number % CHUNK_NUMBERS),
    }
}

fn raise(chunks: &mut [Option<Chunk>], number: usize)
    requires live { IsEntry (entry_in chunks.old number) }
    requires few { counted (entry_in chunks.old number) < 18446744073709551615 }
    ensures { IsChanged chunks.old chunks.new number (raised (entry_in chunks.old number)) }
{
    match &mut chunks[number / CHUNK_NUMBERS] {
        None => unreachable!(),
        Some(chunk) => chunk.raise(number % CHUNK_NUMBERS),
    }
}

fn lower(chunks: &mut [Option<Chunk>], number: usize)
    requires { 0 < counted (entry_in chunks.old number) }
    ensures { IsChanged chunks.old chunks.new number (lowered (entry_in chunks.old number)) }
{
    match &mut chunks[number / CHUNK_NUMBERS] {
        None => unreachable!(),
        Some(chunk) => chunk.lower(number % CHUNK_NUMBERS),
    }
}

/// Makes a chunk where there is none.
fn open(alloc: Global, chunks: &mut [Option<Chunk>], index: usize) -> Result<(), NoMemory>
    requires { index < length chunks.old }
    ensures same { AreSame chunks.old chunks.new }
    ensures chunk { OnOk result (IsTrue (is_chunk (chunk_at chunks.new index))) }
{
    if let Some(_) = &chunks[index] {
        return Ok(());
    }
    chunks[index] = Some(Chunk::new(alloc)?);
    Ok(())
}

/// Lets a chunk without an entry go.
fn shut(chunks: &mut [Option<Chunk>], index: usize)
    requires { index < length chunks.old }
    ensures same { AreSame chunks.old chunks.new }
    ensures count { length chunks.new ≡ length chunks.old }
{
    match &chunks[index] {
        None => {}
        Some(chunk) => {
            if chunk.is_empty() {
                chunks[index] = None;
            }
        }
    }
}

/// Lets the last chunk go, if it has no entry.
fn shut_last(chunks: &mut [Option<Chunk>])
    ensures same { AreSame chunks.old chunks.new }
    ensures count { length chunks.new ≡ length chunks.old }
{
    let count = chunks.len();
    if count > 0 {
        shut(chunks, count - 1);
    }
}

/// Makes a place for a chunk more. The one before it stays only if it has an entry.
fn add_place(chunks: &mut Vec<Option<Chunk>>) -> Result<(), NoMemory>
    ensures same { AreSame chunks.old.items chunks.new.items }
    ensures count { OnOk result (length chunks.new.items ≡ length chunks.old.items + 1) }
{
    shut_last(chunks);
    match chunks.push(None) {
        Ok(()) => Ok(()),
        Err(_) => Err(NoMemory),
    }
}

/// Makes room for one number more, which is the next: its chunk is there.
fn make_room(alloc: Global, chunks: &mut Vec<Option<Chunk>>, next: usize) -> Result<(), NoMemory>
    requires { next / 256 ≤ length chunks.old.items }
    ensures same { AreSame chunks.old.items chunks.new.items }
    ensures room { OnOk result (next / 256 < length chunks.new.items) }
    ensures chunk { OnOk result (IsTrue (is_chunk (chunk_at chunks.new.items (next / 256)))) }
{
    let index = next / CHUNK_NUMBERS;
    if index == chunks.len() {
        add_place(chunks)?;
    }
    open(alloc, chunks, index)
}

impl Directory {
    /// No region was made. It takes no memory.
    pub fn new(alloc: Global) -> Directory
        ensures { result ≡ [] }
    {
        Directory {
            alloc,
            chunks: Vec::new(alloc),
            len: 0,
            recent: NO_NUMBER,
            recent_slot: 0,
        }
    }

    /// How many regions were made.
    pub fn len(&self) -> usize
        ensures { result ≡ length self.now }
    {
        self.len
    }

    /// What is kept of a region, if it is live.
    pub fn get(&self, number: u32) -> Option<Entry>
        ensures { result ≡ entry_at self.now number }
    {
        entry_in(&self.chunks, number as usize)
    }

    /// Whether a region is live.
    #[inline(always)]
    pub fn is_live(&self, number: u32) -> bool
        ensures { result ≡ is_entry (entry_at self.now number) }
    {
        if number as u64 == self.recent {
            return true;
        }
        is_live(&self.chunks, number as usize)
    }

    /// The slot of a live region.
    #[inline(always)]
    pub fn slot(&self, number: u32) -> u32
        requires { IsEntry (entry_at self.now number) }
        ensures { slot_of (entry_at self.now number) ≡ Some result }
    {
        if number as u64 == self.recent {
            return self.recent_slot;
        }
        slot(&self.chunks, number as usize)
    }

    /// Remembers the slot of a live region.
    #[inline(always)]
    fn remember(&mut self, number: u32, slot: u32)
        requires { slot_of (entry_at self.old number) ≡ Some slot }
        ensures { self.new ≡ self.old }
    {
        self.recent = number as u64;
        self.recent_slot = slot;
    }

    /// The slot of a live region, which isn't looked up again until another region's is.
    #[inline(always)]
    pub fn find(&mut self, number: u32) -> u32
        requires { IsEntry (entry_at self.old number) }
        ensures slot { slot_of (entry_at self.old number) ≡ Some result }
        ensures same { self.new ≡ self.old }
    {
        if number as u64 == self.recent {
            return self.recent_slot;
        }
        let slot = slot(&self.chunks, number as usize);
        self.remember(number, slot);
        slot
    }

    /// The slot of a region, if it is live.
    #[inline(always)]
    pub fn slot_if_live(&self, number: u32) -> Option<u32>
        ensures { result ≡ slot_of (entry_at self.now number) }
    {
        if number as u64 == self.recent {
            return Some(self.recent_slot);
        }
        slot_if_live(&self.chunks, number as usize)
    }

    /// The slot of a region, if it is live. It isn't looked up again until another region's is.
    #[inline(always)]
    pub fn find_if_live(&mut self, number: u32) -> Option<u32>
        ensures slot { result ≡ slot_of (entry_at self.old number) }
        ensures same { self.new ≡ self.old }
    {
        if number as u64 == self.recent {
            return Some(self.recent_slot);
        }
        match slot_if_live(&self.chunks, number as usize) {
            None => None,
            Some(slot) => {
                self.remember(number, slot);
                Some(slot)
            }
        }
    }

    /// One more region, at this slot and with this parent, with no reference.
    ///
    /// # Errors
    ///
    /// Out of memory: nothing has changed.
    pub fn push(&mut self, slot: u32, parent: u32) -> Result<(), NoMemory>
        requires { length self.old < 4294967296 }
        ensures ok { OnOk result (self.new ≡ self.old ++ Some (record { slot = slot; parent = parent; count = 0 }) ∷ []) }
        ensures err { OnErr result (self.new ≡ self.old) }
    {
        make_room(self.alloc, &mut self.chunks, self.len)?;
        fill(
            &mut self.chunks,
            self.len,
            Entry {
                slot,
                parent,
                count: 0,
            },
        );
        self.recent = self.len as u64;
        self.recent_slot = slot;
        self.len += 1;
        Ok(())
    }

    /// The region is dead from now on. Its chunk goes with it, if it has no other live region and a
    /// chunk comes behind it.
    pub fn clear(&mut self, number: u32)
        requires { IsEntry (entry_at self.old number) }
        ensures { self.new ≡ slice_set self.old number None }
    {
        self.recent = NO_NUMBER;
        clear(&mut self.chunks, number as usize);
        let index = number as usize / CHUNK_NUMBERS;
        if index + 1 < self.chunks.len() {
            shut(&mut self.chunks, index);
        }
    }

    /// One more reference to a live region.
    pub fn raise(&mut self, number: u32)
        requires live { IsEntry (entry_at self.old number) }
        requires few { counted (entry_at self.old number) < 18446744073709551615 }
        ensures { self.new ≡ slice_set self.old number (raised (entry_at self.old number)) }
    {
        raise(&mut self.chunks, number as usize);
    }

    /// One reference less to a live region.
    pub fn lower(&mut self, number: u32)
        requires { 0 < counted (entry_at self.old number) }
        ensures { self.new ≡ slice_set self.old number (lowered (entry_at self.old number)) }
    {
        lower(&mut self.chunks, number as usize);
    }
}
