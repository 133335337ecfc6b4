// The records of all slots, and the lists in which the slots stand.
ghost use Rattle.std.specs.Prelude.{◌≡◌, ◌<◌, ◌≤◌, ◌+◌, ℕ, [], Some, length, slice_index_or, slice_set, IfOk, OnErr, OnOk};
ghost use Rattle.rc_regions.specs.declared.record.Slot.TheVariants.{Free, Child};
ghost use Rattle.rc_regions.specs.Above.{IsRooted};
ghost use Rattle.rc_regions.specs.Ascents.{AreAscents};
ghost use Rattle.rc_regions.specs.Columns.{columns_of, relinked};
ghost use Rattle.rc_regions.specs.Slots.{IsLive, live_slots};
ghost use Rattle.rc_regions.specs.Sound.{IsAscended, IsRelinked, IsSoundTree, IsTaken};
ghost use Rattle.rc_regions.specs.Ways.{NoneShorter, Reach};
ghost use Rattle.rc_regions.specs.Lists.{AllLinked, first_of, linked, placed, spot, unlinked, with_first, with_follower, with_previous};

use crate::record::{BLANK, Record, Slot};
use crate::ways::Ways;
use rc_base::NoMemory;

/// Each slot but the root's stands in one list: the children of its parent, or the free slots. So a
/// list has the name of what stands at its slots.
#[derive(Drop)]
pub(crate) struct Table {
    pub records: Vec<Record>,
    pub ways: Ways,
    pub first_free: Option<u32>,
}

impl Table {
    /// The first slot of a list.
    fn first_of(&self, list: Slot) -> Option<u32>
        requires { (parent : ℕ) → list ≡ Child parent → parent < length (columns_of self.now).slots }
        ensures { result ≡ first_of (columns_of self.now) list }
    {
        match list {
            Slot::Free => self.first_free,
            Slot::Root => None,
            Slot::Child(parent) => self.records[parent as usize].first_child,
        }
    }

    /// Another slot comes first in a list.
    fn set_first(&mut self, list: Slot, first: Option<u32>)
        requires { (parent : ℕ) → list ≡ Child parent → parent < length (columns_of self.old).slots }
        ensures columns { columns_of self.new ≡ with_first (columns_of self.old) list first }
        ensures ways { self.new.ways ≡ self.old.ways }
    {
        match list {
            Slot::Free => self.first_free = first,
            Slot::Root => {}
            Slot::Child(parent) => self.records[parent as usize].first_child = first,
        }
    }

    /// Another slot comes behind one, or first in the list where that is none.
    fn set_follower(&mut self, list: Slot, before: Option<u32>, follower: Option<u32>)
        requires parent { (parent : ℕ) → list ≡ Child parent → parent < length (columns_of self.old).slots }
        requires before { (slot : ℕ) → before ≡ Some slot → slot < length (columns_of self.old).slots }
        ensures columns { columns_of self.new ≡ with_follower (columns_of self.old) (spot list before) follower }
        ensures ways { self.new.ways ≡ self.old.ways }
    {
        match before {
            Some(before) => self.records[before as usize].next = follower,
            None => self.set_first(list, follower),
        }
    }

    /// Another slot comes before one, if that is one.
    fn set_previous(&mut self, slot: Option<u32>, previous: Option<u32>)
        requires { (s : ℕ) → slot ≡ Some s → s < length (columns_of self.old).slots }
        ensures columns { columns_of self.new ≡ with_previous (columns_of self.old) slot previous }
        ensures ways { self.new.ways ≡ self.old.ways }
    {
        if let Some(slot) = slot {
            self.records[slot as usize].previous = previous;
        }
    }

    /// The slot's own part of its coming first in a list, before the slot `next`.
    fn place(&mut self, slot: u32, list: Slot, next: Option<u32>)
        requires { slot < length (columns_of self.old).slots }
        ensures { columns_of self.new ≡ placed (columns_of self.old) slot list next }
    {
        let record = &mut self.records[slot as usize];
        record.slot = list;
        record.previous = None;
        record.next = next;
    }

    /// Writes a link of a slot.
    fn set_link(&mut self, slot: u32, power: usize, above: u32)
        requires power { power < 32 }
        requires place { slot < length (slice_index_or self.old.ways power []) }
        ensures links { columns_of self.new ≡ relinked (columns_of self.old) slot (slice_set ((columns_of self.old).links slot) power above) }
        ensures places { NoneShorter self.old.ways self.new.ways }
    {
        self.ways.set_link(slot, power, above);
    }

    /// Writes the links of a slot that becomes a child of this parent, as many as its depth has binary
    /// digits. The ancestor 1 above is the parent, and a link of an ancestor leads from there to the
    /// next: from 1 above to 2, from 2 to 4, from 4 to 8.
    fn set_links(&mut self, slot: u32, parent: u32, depth: u32)
        requires made { slot < length (columns_of self.old).slots }
        requires free { ¬ IsLive (columns_of self.old).slots slot }
        requires live { IsLive (columns_of self.old).slots parent }
        requires ascents { AreAscents (columns_of self.old).slots (columns_of self.old).depth (columns_of self.old).links }
        requires deep { depth ≡ (columns_of self.old).depth parent + 1 }
        requires places { Reach self.old.ways (slot + 1) depth }
        ensures { IsRelinked (columns_of self.old) (columns_of self.new) slot parent depth }
    {
        let mut above = parent;
        let mut power = 0;
        let mut reach: u64 = 1;
        while reach <= depth as u64 {
            self.set_link(slot, power, above);
            above = self.ways.link_at(above, power);
            power += 1;
            reach *= 2;
        }
    }

    /// Keeps how deep a slot is that becomes a child of this parent, and its links.
    pub(crate) fn set_ascent(&mut self, slot: u32, parent: u32, depth: u32)
        requires made { slot < length (columns_of self.old).slots }
        requires free { ¬ IsLive (columns_of self.old).slots slot }
        requires live { IsLive (columns_of self.old).slots parent }
        requires ascents { AreAscents (columns_of self.old).slots (columns_of self.old).depth (columns_of self.old).links }
        requires deep { depth ≡ (columns_of self.old).depth parent + 1 }
        requires places { Reach self.old.ways (slot + 1) depth }
        ensures { IsAscended (columns_of self.old) (columns_of self.new) slot parent depth }
    {
        self.set_links(slot, parent, depth);
        let record = &mut self.records[slot as usize];
        record.depth = depth;
    }

    /// Takes a slot out of its list.
    pub(crate) fn unlink(&mut self, slot: u32)
        requires made { slot < length (columns_of self.old).slots }
        requires linked { AllLinked (columns_of self.old) }
        requires rooted { IsRooted (columns_of self.old).slots }
        ensures columns { columns_of self.new ≡ unlinked (columns_of self.old) slot }
        ensures ways { self.new.ways ≡ self.old.ways }
    {
        let Record {
            slot: list,
            previous,
            next,
            ..
        } = self.records[slot as usize];
        self.set_follower(list, previous, next);
        self.set_previous(next, previous);
    }

    /// Puts a slot that stands in no list at the head of one.
    pub(crate) fn link(&mut self, slot: u32, list: Slot)
        requires made { slot < length (columns_of self.old).slots }
        requires parent { (parent : ℕ) → list ≡ Child parent → parent < length (columns_of self.old).slots }
        requires first { (first : ℕ) → first_of (columns_of self.old) list ≡ Some first → first < length (columns_of self.old).slots }
        ensures { columns_of self.new ≡ linked (columns_of self.old) slot list }
    {
        let next = self.first_of(list);
        self.set_previous(next, Some(slot));
        self.place(slot, list, next);
        self.set_first(list, Some(slot));
    }

    /// The next slot has a place for the links of a slot so deep, whether it is free now or has no record
    /// yet.
    fn reserve(&mut self, depth: u32) -> Result<(), NoMemory>
        requires { length (columns_of self.old).slots ≤ 4294967296 }
        ensures columns { columns_of self.new ≡ columns_of self.old }
        ensures places { OnOk result (Reach self.new.ways (length (columns_of self.old).slots + 1) depth) }
    {
        let slots = self.records.len() + 1;
        self.ways.reserve(slots, depth)
    }

    /// A free slot that stands in no list. It has a new record only where no slot was free.
    fn next_slot(&mut self) -> Result<u32, NoMemory>
        requires sound { IsSoundTree (columns_of self.old) }
        requires room { live_slots (columns_of self.old).slots ≤ 4294967295 }
        ensures ok { IfOk result (λ slot. IsTaken (columns_of self.old) (columns_of self.new) slot) }
        ensures next { IfOk result (λ slot. slot ≤ length (columns_of self.old).slots) }
        ensures err { OnErr result (columns_of self.new ≡ columns_of self.old) }
        ensures ways { self.new.ways ≡ self.old.ways }
    {
        match self.first_free {
            Some(slot) => {
                self.unlink(slot);
                Ok(slot)
            }
            None => {
                let slot = self.records.len() as u32;
                match self.records.push(BLANK) {
                    Ok(()) => Ok(slot),
                    Err(_) => Err(NoMemory),
                }
            }
        }
    }
    /// A free slot that stands in no list, with a place for the links of a slot so deep.
    pub(crate) fn take_slot(&mut self, depth: u32) -> Result<u32, NoMemory>
        requires sound { IsSoundTree (columns_of self.old) }
        requires room { live_slots (columns_of self.old).slots ≤ 4294967295 }
        ensures ok { IfOk result (λ slot. IsTaken (columns_of self.old) (columns_of self.new) slot) }
        ensures places { IfOk result (λ slot. Reach self.new.ways (slot + 1) depth) }
        ensures err { OnErr result (columns_of self.new ≡ columns_of self.old) }
    {
        self.reserve(depth)?;
        self.next_slot()
    }
}
