// The registry.
ghost use Rattle.std.specs.Prelude.{◌≡◌, ◌≢◌, ◌<◌, ◌≤◌, ◌+◌, ◌↔◌, ◌++◌, ◌∷◌, [], ℕ, Some, None, false, max, length, option_map, slice_set, All, IfOk, IsTrue, OnErr};
ghost use Rattle.rc_core.specs.Heap.{is_above};
ghost use Rattle.rc_store.specs.Values.{value_of};
ghost use Rattle.rc_slots.specs.Entries.{Member};
ghost use Rattle.rc_areas.specs.Areas.{IsLaid, objects_of};
ghost use Rattle.rc_tally.specs.Tally.{held_refs, pin_refs, value_refs};
ghost use Rattle.rc_registry.specs.Registries.{AreOlder, HasUnmarkedChild, IsApart, IsLess, IsMember, IsMore, at_slots, count_in, has_child, is_marked, is_member, member_at, member_in, parent_among, root};

use rc_areas::{Area, Shapes};
use rc_base::{NoMemory, Steps};
use rc_regions::Tree;
use rc_slots::Directory;
use rc_store::Cell;
use std::alloc::Global;
use std::marker::Model;
use std::sync::ledger::Ledger;

/// The live regions, by numbers that count from 0 in the order in which they are made. Contracts see
/// the slot and the parent of each, how many references to it are counted, and how many slots there
/// are. A slot is used again.
#[derive(Drop)]
pub struct Registry {
    directory: Directory,
    tree: Tree,
    slots: usize,
}

impl Model for Registry {
    ghost use Rattle.rc_registry.specs.Registries.{RegistryState};
    ghost use Rattle.rc_registry.specs.Sound.{IsSoundRegistry, state_of};

    ghost Value = { RegistryState };

    ghost view = { λ r. state_of r.directory r.slots };

    ghost invariant = { λ r. IsSoundRegistry r.directory r.tree r.slots };
}

impl Registry {
    /// Region 0 alone, at slot 0, with no reference.
    ///
    /// # Errors
    ///
    /// Out of memory.
    pub fn new(alloc: Global) -> Result<Registry, NoMemory>
        ensures members { IfOk result (λ registry. registry.members ≡ Some root ∷ []) }
        ensures counts { IfOk result (λ registry. (n : ℕ) → count_in registry n ≡ 0) }
        ensures slots { IfOk result (λ registry. registry.slots ≡ 1) }
    {
        let tree = Tree::new(alloc)?;
        let mut directory = Directory::new(alloc);
        directory.push(0, 0)?;
        Ok(Registry {
            directory,
            tree,
            slots: 1,
        })
    }

    /// How many regions were made.
    pub fn len(&self) -> usize
        ensures { result ≡ length self.now.members }
    {
        self.directory.len()
    }

    #[inline(always)]
    pub fn is_live(&self, region: u32) -> bool
        ensures { result ≡ is_member (member_at self.now.members region) }
    {
        self.directory.is_live(region)
    }

    /// The slot of a live region.
    #[inline(always)]
    pub fn slot(&self, region: u32) -> u32
        requires { IsMember self.now.members region }
        ensures slot { result ≡ (member_in self.now.members region).slot }
        ensures apart { IsApart self.now.members self.now.slots }
    {
        self.directory.slot(region)
    }

    /// The slot of a live region, which isn't looked up again until another region's is.
    #[inline(always)]
    pub fn find(&mut self, region: u32) -> u32
        requires { IsMember self.old.members region }
        ensures slot { result ≡ (member_in self.old.members region).slot }
        ensures apart { IsApart self.old.members self.old.slots }
        ensures same { self.new ≡ self.old }
    {
        self.directory.find(region)
    }

    /// The slot of a region, if it is live.
    #[inline(always)]
    pub fn slot_if_live(&self, region: u32) -> Option<u32>
        ensures slot { result ≡ option_map (λ (m : Member). m.slot) (member_at self.now.members region) }
        ensures apart { IsApart self.now.members self.now.slots }
    {
        self.directory.slot_if_live(region)
    }

    /// The slot of a region, if it is live. It isn't looked up again until another region's is.
    #[inline(always)]
    pub fn find_if_live(&mut self, region: u32) -> Option<u32>
        ensures slot { result ≡ option_map (λ (m : Member). m.slot) (member_at self.old.members region) }
        ensures apart { IsApart self.old.members self.old.slots }
        ensures same { self.new ≡ self.old }
    {
        self.directory.find_if_live(region)
    }

    /// The parent of a live region; region 0 is its own.
    pub fn parent(&self, region: u32) -> u32
        requires { IsMember self.now.members region }
        ensures { result ≡ parent_among self.now.members region }
    {
        match self.directory.get(region) {
            None => unreachable!(),
            Some(entry) => entry.parent,
        }
    }

    /// Whether a region is live and has a mark. Marks go by slots.
    pub fn is_marked(&self, region: u32, marks: &[bool]) -> bool
        requires { self.now.slots ≤ length marks.now }
        ensures { result ≡ is_marked self.now.members marks.now region }
    {
        match self.directory.get(region) {
            None => false,
            Some(entry) => marks[entry.slot as usize],
        }
    }

    /// Gives each region of a set, all of them live, this mark.
    pub fn set_marks(&self, set: &[u32], mark: bool, marks: &mut [bool])
        requires live { All (IsMember self.now.members) set.now }
        requires room { self.now.slots ≤ length marks.old }
        ensures marks { marks.new ≡ at_slots self.now.members mark set.now marks.old }
        ensures apart { IsApart self.now.members self.now.slots }
        ensures older { AreOlder self.now.members }
    {
        let directory = &self.directory;
        for region in set {
            if let Some(entry) = directory.get(*region) {
                marks[entry.slot as usize] = mark;
            }
        }
    }

    /// How many references to a region are counted.
    pub fn count(&self, region: u32) -> u64
        ensures { result ≡ count_in self.now region }
    {
        match self.directory.get(region) {
            None => 0,
            Some(entry) => entry.count,
        }
    }

    /// Makes a child of a live region, and answers its slot, at which no other live region stands.
    ///
    /// # Errors
    ///
    /// Out of memory: nothing has changed.
    pub fn add(&mut self, parent: u32) -> Result<u32, NoMemory>
        requires live { IsMember self.old.members parent }
        requires room { length self.old.members ≤ 4294967295 }
        ensures made { IfOk result (λ slot. self.new.members ≡ self.old.members ++ Some (record { slot = slot; parent = parent }) ∷ []) }
        ensures alone { IfOk result (λ slot. (n : ℕ) → IsMember self.old.members n → (member_in self.old.members n).slot ≢ slot) }
        ensures handed { IfOk result (λ slot. slot ≤ self.old.slots) }
        ensures slots { IfOk result (λ slot. self.new.slots ≡ max self.old.slots (slot + 1)) }
        ensures counts { (n : ℕ) → count_in self.new n ≡ count_in self.old n }
        ensures err { OnErr result (self.new ≡ self.old) }
    {
        let parent_slot = self.slot(parent);
        let slot = self.tree.add(parent_slot)?;
        match self.directory.push(slot, parent) {
            Ok(()) => {
                self.slots = self.slots.max(slot as usize + 1);
                Ok(slot)
            }
            Err(NoMemory) => {
                self.tree.remove(slot);
                Err(NoMemory)
            }
        }
    }

    /// Takes a live region out that has no child and to which no reference is counted.
    pub fn remove(&mut self, region: u32)
        requires live { IsMember self.old.members region }
        requires not_root { region ≢ 0 }
        requires childless { has_child self.old.members region ≡ false }
        requires unnamed { count_in self.old region ≡ 0 }
        ensures members { self.new.members ≡ slice_set self.old.members region None }
        ensures counts { (n : ℕ) → count_in self.new n ≡ count_in self.old n }
        ensures slots { self.new.slots ≡ self.old.slots }
    {
        let slot = self.slot(region);
        self.directory.clear(region);
        self.tree.remove(slot);
    }

    /// Whether a live region, which isn't region 0, is the parent of one.
    pub fn has_child(&self, region: u32) -> bool
        requires live { IsMember self.now.members region }
        requires not_root { region ≢ 0 }
        ensures { result ≡ has_child self.now.members region }
    {
        self.tree.has_child(self.slot(region))
    }

    /// Whether a live region, which isn't region 0, is the parent of one without a mark. It looks at the
    /// children alone.
    pub fn has_unmarked_child(&self, region: u32, marks: &[bool]) -> bool
        requires live { IsMember self.now.members region }
        requires not_root { region ≢ 0 }
        requires room { self.now.slots ≤ length marks.now }
        ensures { IsTrue result ↔ HasUnmarkedChild self.now.members region marks.now }
    {
        self.tree.has_unmarked_child(self.slot(region), marks)
    }

    /// Whether live region a is b, or above b's parent. The links that it follows up the tree are
    /// steps.
    pub fn is_above<L: Ledger>(&self, a: u32, b: u32, steps: &mut Steps<L>) -> bool
        requires a { IsMember self.now.members a }
        requires b { IsMember self.now.members b }
        ensures above { result ≡ is_above (parent_among self.now.members) a b }
        ensures never_falls { steps.old ≤ steps.new }
    {
        self.tree.is_above(self.slot(a), self.slot(b), steps)
    }

    /// One reference more to the region that a value names, if it isn't the holder's.
    pub fn give(&mut self, holder: u32, value: Cell)
        requires live { (r : ℕ) → 0 < value_refs r holder (value_of value) → IsMember self.old.members r }
        requires few { (r : ℕ) → count_in self.old r + value_refs r holder (value_of value) ≤ 18446744073709551615 }
        ensures { IsMore self.old self.new (λ r. value_refs r holder (value_of value)) }
    {
        rc_tally::give(&mut self.directory, holder, value);
    }

    /// One reference less to the region that a value names, if it isn't the holder's.
    pub fn take_back(&mut self, holder: u32, value: Cell)
        requires { (r : ℕ) → value_refs r holder (value_of value) ≤ count_in self.old r }
        ensures { IsLess self.old self.new (λ r. value_refs r holder (value_of value)) }
    {
        rc_tally::take_back(&mut self.directory, holder, value);
    }

    /// One reference more to the region that a pinned value names.
    pub fn pin(&mut self, value: Cell)
        requires live { (r : ℕ) → 0 < pin_refs r (value_of value) → IsMember self.old.members r }
        requires few { (r : ℕ) → count_in self.old r + pin_refs r (value_of value) ≤ 18446744073709551615 }
        ensures { IsMore self.old self.new (λ r. pin_refs r (value_of value)) }
    {
        rc_tally::pin(&mut self.directory, value);
    }

    /// One reference less to the region that a pinned value names.
    pub fn unpin(&mut self, value: Cell)
        requires { (r : ℕ) → pin_refs r (value_of value) ≤ count_in self.old r }
        ensures { IsLess self.old self.new (λ r. pin_refs r (value_of value)) }
    {
        rc_tally::unpin(&mut self.directory, value);
    }

    /// Takes back what the cells of a region, the holder, count. Each cell that counts is read, which is
    /// a step. A region to which references are counted is live.
    pub fn take_back_area<L: Ledger>(
        &mut self,
        area: &Area<L>,
        shapes: &Shapes,
        holder: u32,
        steps: &mut Steps<L>,
    )
        requires laid { IsLaid shapes.now area.now }
        requires enough { (r : ℕ) → held_refs r holder (objects_of shapes.now area.now) ≤ count_in self.old r }
        ensures taken { IsLess self.old self.new (λ r. held_refs r holder (objects_of shapes.now area.now)) }
        ensures live { (r : ℕ) → 0 < count_in self.old r → IsMember self.old.members r }
        ensures cost { steps.new ≤ steps.old + length area.now.codes }
        ensures never_falls { steps.old ≤ steps.new }
    {
        rc_tally::take_back_area(area, shapes, holder, &mut self.directory, steps);
    }

    /// Gives again what the cells of a region, the holder, count. Each cell that counts is read, which
    /// is a step.
    pub fn give_area<L: Ledger>(
        &mut self,
        area: &Area<L>,
        shapes: &Shapes,
        holder: u32,
        steps: &mut Steps<L>,
    )
        requires laid { IsLaid shapes.now area.now }
        requires live { (r : ℕ) → 0 < held_refs r holder (objects_of shapes.now area.now) → IsMember self.old.members r }
        requires few { (r : ℕ) → count_in self.old r + held_refs r holder (objects_of shapes.now area.now) ≤ 18446744073709551615 }
        ensures given { IsMore self.old self.new (λ r. held_refs r holder (objects_of shapes.now area.now)) }
        ensures cost { steps.new ≤ steps.old + length area.now.codes }
        ensures never_falls { steps.old ≤ steps.new }
    {
        rc_tally::give_area(area, shapes, holder, &mut self.directory, steps);
    }
}
