// The tree of live slots.
ghost use Rattle.std.specs.Prelude.{◌≡◌, ◌≢◌, ◌↔◌, ◌<◌, ◌≤◌, ◌+◌, ◌-◌, [], ◌∷◌, ℕ, length, slice_set, IfOk, OnOk, OnErr, IsTrue};
ghost use Rattle.rc_regions.specs.declared.record.Slot.TheVariants.{Free, Root, Child};
ghost use Rattle.rc_regions.specs.Above.{Above, HasDepth, HasDigits, IsTree};
ghost use Rattle.rc_regions.specs.Slots.{HasUnmarked, IsLive, IsParent, live_slots, slot_at};

use crate::ascent::climb;
use crate::record::{BLANK, Record, Slot};
use crate::table::Table;
use crate::ways::Ways;
use rc_base::{NoMemory, Steps};
use std::alloc::Global;
use std::marker::Model;
use std::sync::ledger::Ledger;

/// The live regions, by slots that are used again. The root stands at slot 0. Contracts see what
/// stands at each slot that has a record: nothing, the root, or a child with its parent's slot.
#[derive(Drop)]
pub struct Tree {
    table: Table,
}

impl Model for Tree {
    ghost use Rattle.std.specs.Prelude.{List};
    ghost use Rattle.rc_regions.specs.declared.record.Slot.{Slot};

    ghost Value = { List Slot };

    ghost use Rattle.rc_regions.specs.Columns.{columns_of};
    ghost use Rattle.rc_regions.specs.Sound.{IsSoundTree};

    ghost view = { λ t. (columns_of t.table).slots };

    ghost invariant = { λ t. IsSoundTree (columns_of t.table) };
}

impl Tree {
    /// A tree of the root alone.
    pub fn new(alloc: Global) -> Result<Tree, NoMemory>
        ensures root { IfOk result (λ tree. tree ≡ Root ∷ []) }
        ensures tree { IfOk result (λ tree. IsTree tree) }
    {
        let ways = Ways::new(alloc)?;
        let mut records = Vec::new(alloc);
        let root = Record {
            slot: Slot::Root,
            ..BLANK
        };
        match records.push(root) {
            Ok(()) => Ok(Tree {
                table: Table {
                    records,
                    ways,
                    first_free: None,
                },
            }),
            Err(_) => Err(NoMemory),
        }
    }

    /// Answers a free slot, where a child of `parent` stands from now on. Only where no slot is free
    /// there is one more record. The parent is live, and a slot's number is left.
    pub fn add(&mut self, parent: u32) -> Result<u32, NoMemory>
        requires live { IsLive self.old parent }
        requires room { live_slots self.old ≤ 4294967295 }

        ensures was_free { IfOk result (λ slot. slot_at self.old slot ≡ Free) }
        ensures child { IfOk result (λ slot. slot_at self.new slot ≡ Child parent) }
        ensures others { IfOk result (λ slot. (other : ℕ) → other ≢ slot → slot_at self.new other ≡ slot_at self.old other) }
        ensures leaf { IfOk result (λ slot. ¬ IsParent self.new slot) }
        ensures one_more { OnOk result (live_slots self.new ≡ live_slots self.old + 1) }
        ensures used_again { OnOk result (live_slots self.old < length self.old → length self.new ≡ length self.old) }
        ensures grown { OnOk result (live_slots self.old ≡ length self.old → length self.new ≡ length self.old + 1) }
        ensures err { OnErr result (self.new ≡ self.old) }
        ensures tree { IsTree self.new }
    {
        let depth = self.table.records[parent as usize].depth + 1;
        let slot = self.table.take_slot(depth)?;
        self.table.set_ascent(slot, parent, depth);
        self.table.link(slot, Slot::Child(parent));
        Ok(slot)
    }

    /// The slot is free from now on, and is handed out again.
    pub fn remove(&mut self, slot: u32)
        requires live { IsLive self.old slot }
        requires not_root { slot ≢ 0 }
        requires leaf { ¬ IsParent self.old slot }
        ensures removed { self.new ≡ slice_set self.old slot Free }
        ensures one_less { live_slots self.new + 1 ≡ live_slots self.old }
        ensures tree { IsTree self.new }
    {
        self.table.unlink(slot);
        self.table.link(slot, Slot::Free);
    }

    /// Whether a live slot has this one as its parent.
    pub fn has_child(&self, slot: u32) -> bool
        requires { IsLive self.now slot }
        ensures child { IsTrue result ↔ IsParent self.now slot }
        ensures tree { IsTree self.now }
    {
        self.table.records[slot as usize].first_child.is_some()
    }

    /// Whether a live slot without a mark has this one as its parent. Marks go by slots, and each live
    /// slot has one. It looks at the children alone, and at none behind one without a mark.
    pub fn has_unmarked_child(&self, slot: u32, marks: &[bool]) -> bool
        requires live { IsLive self.now slot }
        requires marks { (s : ℕ) → IsLive self.now s → s < length marks.now }
        ensures { IsTrue result ↔ HasUnmarked self.now slot marks.now }
    {
        let records = &self.table.records;
        let mut next = records[slot as usize].first_child;
        // No list has more slots than there are records.
        for _ in 0..records.len() {
            let Some(child) = next else {
                return false;
            };
            if !marks[child as usize] {
                return true;
            }
            next = records[child as usize].next;
        }
        false
    }

    /// Whether `a` is above `b`, which is so where they are one. It climbs by links that double, and
    /// each link that it follows is a step.
    pub fn is_above<L: Ledger>(&self, a: u32, b: u32, steps: &mut Steps<L>) -> bool
        requires a { IsLive self.now a }
        requires b { IsLive self.now b }
        ensures above { IsTrue result ↔ Above self.now a b }
        // At most as many steps as the difference of depths has binary digits, which are none where
        // b isn't deeper.
        ensures cost { (a_depth b_depth digits : ℕ) → HasDepth self.now a a_depth → HasDepth self.now b b_depth → HasDigits (b_depth - a_depth) digits → steps.new ≤ steps.old + digits }
        ensures never_falls { steps.old ≤ steps.new }
        ensures tree { IsTree self.now }
    {
        let records = &self.table.records;
        let a_depth = records[a as usize].depth;
        let b_depth = records[b as usize].depth;
        if b_depth < a_depth {
            return false;
        }
        climb(&self.table, b, b_depth - a_depth, steps) == a
    }
}
