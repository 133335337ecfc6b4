// Names in scopes.
ghost use Rattle.std.specs.Prelude.{◌≡◌, ℕ, ◌≤◌, ◌<◌, ◌-◌, [], ◌∷◌, length, drop, option_copied, OnErr, OnOk, IfOk};
ghost use Rattle.rc_scope.specs.Scopes.{meaning_of};
ghost use Rattle.rc_scope.specs.Stack.{name_at, slot_of};

use crate::entry::Entry;
use crate::names::Names;
use crate::pile::Pile;
use rc_base::NoMemory;
use std::alloc::Global;
use std::marker::Model;

/// Names with what they stand for, in scopes inside one another. Contracts see the list of both,
/// the innermost first. An inner name hides an outer one until its scope is left.
///
/// A look-up takes the time of one in a hash table, whatever is hidden.
#[derive(Drop)]
pub struct Scopes<T> {
    names: Names,
    // for each number of a name the place of its innermost entry
    slots: Vec<Option<usize>>,
    entries: Pile<Entry<T>>,
}

impl<T> Model for Scopes<T> {
    ghost use Rattle.std.specs.Prelude.{List, ℕ};

    ghost Value = { List (List ℕ × T) };

    ghost use Rattle.rc_scope.specs.Stack.{shown, IsSound};

    ghost view = { λ s. shown s.names s.entries };

    ghost invariant = { λ s. IsSound s.names s.slots.items s.entries };
}

impl<T: Drop> Scopes<T> {
    /// No names. It takes no memory.
    pub fn new(alloc: Global) -> Scopes<T>
        ensures { result ≡ [] }
    {
        Scopes {
            names: Names::new(alloc),
            slots: Vec::new(alloc),
            entries: Pile::new(alloc),
        }
    }

    /// How many names there are, the hidden ones among them.
    pub fn len(&self) -> usize
        ensures { result ≡ length self.now }
    {
        self.entries.len()
    }

    /// What a name stands for: the innermost entry decides. None where it stands for nothing.
    pub fn find(&self, name: &[u8]) -> Option<&T>
        ensures { option_copied result ≡ meaning_of self.now name.now }
    {
        let number = self.names.find(name)?;
        let place = slot(&self.slots, number)?;
        let entry = self.entries.at(place)?;
        Some(&entry.meaning)
    }

    /// Puts a name inside all others. After a refusal all is as it was before.
    pub fn push(&mut self, name: &[u8], meaning: T) -> Result<(), NoMemory>
        ensures ok { OnOk result (self.new ≡ (name.now, meaning) ∷ self.old) }
        ensures err { OnErr result (self.new ≡ self.old) }
    {
        let number = numbered(&mut self.names, name)?;
        make_room(&mut self.slots, number)?;
        let hidden = slot(&self.slots, number);
        let place = self.entries.len();
        self.entries.push(Entry {
            name: number,
            meaning,
            hidden,
        })?;
        self.slots[number as usize] = Some(place);
        Ok(())
    }

    /// Takes the innermost name away.
    fn pop(&mut self)
        ensures { self.new ≡ drop 1 self.old }
    {
        if let Some(entry) = self.entries.pop() {
            self.slots[entry.name as usize] = entry.hidden;
        }
    }

    /// Takes the innermost names away until so many are left, as at the end of a scope that began
    /// when there were so many.
    pub fn leave(&mut self, depth: usize)
        ensures { self.new ≡ drop (length self.old - depth) self.old }
    {
        while self.len() > depth {
            self.pop();
        }
    }
}

/// The number of a name, which gets the next one where it is new.
fn numbered(names: &mut Names, name: &[u8]) -> Result<u32, NoMemory>
    ensures number { IfOk result (λ n. (n < length names.new) × (name_at names.new n ≡ name.now)) }
    ensures kept { (x : ℕ) → x < length names.old → name_at names.new x ≡ name_at names.old x }
    ensures grown { length names.old ≤ length names.new }
{
    if names.len() >= u32::MAX as usize {
        return Err(NoMemory);
    }
    names.number(name)
}

/// What is kept for the name with this number.
fn slot(slots: &[Option<usize>], number: u32) -> Option<usize>
    ensures { result ≡ slot_of slots.now number }
{
    if (number as usize) < slots.len() {
        slots[number as usize]
    } else {
        None
    }
}

/// Adds empty slots until there is one for this number.
fn make_room(slots: &mut Vec<Option<usize>>, number: u32) -> Result<(), NoMemory>
    ensures same { (x : ℕ) → slot_of slots.new.items x ≡ slot_of slots.old.items x }
    ensures grown { length slots.old.items ≤ length slots.new.items }
    ensures room { OnOk result (number < length slots.new.items) }
{
    while slots.len() <= number as usize {
        if slots.push(None).is_err() {
            return Err(NoMemory);
        }
    }
    Ok(())
}
