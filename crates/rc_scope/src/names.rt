// A list of names that knows where each one stands.
ghost use Rattle.std.specs.Prelude.{◌≡◌, ◌≢◌, ◌<◌, ◌≤◌, ◌+◌, ◌↔◌, ℕ, List, [], ◌∷◌, ◌++◌, length, slice_get, AllPairs, Contains, IfOk, IfSome, IsNone, OnErr, OnOk, None, Some};
ghost use Rattle.rc_scope.specs.Names.{number_of, place_of, with_name};

use indexmap::IndexSet;
use rc_base::NoMemory;
use std::alloc::Global;
use std::marker::Model;

/// Names, each with the number that it got at first sight: the first has 0, and each new one the
/// next. No two names share a number. Contracts see the list of the names, each at its number.
#[derive(Drop)]
pub struct Names {
    names: IndexSet<Vec<u8>>,
}

impl Model for Names {
    ghost use Rattle.std.specs.Prelude.{ℕ, List};
    ghost use Rattle.rc_scope.specs.Names.{IsNumbered, names_of};

    ghost Value = { List (List ℕ) };

    ghost view = { λ n. names_of n.names.keys };

    ghost invariant = { λ n. IsNumbered (names_of n.names.keys) };
}

impl Names {
    /// No names. It takes no memory.
    pub fn new(alloc: Global) -> Names
        ensures { result ≡ [] }
    {
        Names {
            names: IndexSet::new(alloc),
        }
    }

    /// How many names there are.
    pub fn len(&self) -> usize
        ensures { result ≡ length self.now }
    {
        self.names.len()
    }

    /// The number of a name, which gets the next one where it is new. The other names keep theirs.
    pub fn number(&mut self, name: &[u8]) -> Result<u32, NoMemory>
        requires { length self.old < 4294967295 }
        ensures number { IfOk result (λ n. n ≡ number_of self.old name.now) }
        ensures names { OnOk result (self.new ≡ with_name self.old name.now) }
        ensures stands { IfOk result (λ n. slice_get self.new n ≡ Some name.now) }
        ensures kept { (x : List ℕ) (n : ℕ) → place_of self.old x ≡ Some n → place_of self.new x ≡ Some n }
        ensures count { length self.new ≤ length self.old + 1 }
        ensures distinct { AllPairs (λ a b. a ≢ b) self.new }
        ensures err { OnErr result (self.new ≡ self.old) }
    {
        match self.find(name) {
            Some(number) => Ok(number),
            None => self.add(name),
        }
    }

    /// Puts a new name behind all others.
    fn add(&mut self, name: &[u8]) -> Result<u32, NoMemory>
        requires room { length self.old < 4294967295 }
        requires is_new { place_of self.old name.now ≡ None }
        ensures number { IfOk result (λ n. n ≡ length self.old) }
        ensures names { OnOk result (self.new ≡ self.old ++ name.now ∷ []) }
        ensures err { OnErr result (self.new ≡ self.old) }
    {
        let Ok(key) = Vec::from_slice(*self.names.allocator(), name) else {
            return Err(NoMemory);
        };
        let Ok((place, _)) = self.names.insert_full(key) else {
            return Err(NoMemory);
        };
        Ok(place as u32)
    }

    /// The number of a name, or none where it has none.
    pub fn find(&self, name: &[u8]) -> Option<u32>
        ensures number { result ≡ place_of self.now name.now }
        ensures none { IsNone result ↔ ¬ Contains self.now name.now }
        ensures stands { IfSome result (λ n. slice_get self.now n ≡ Some name.now) }
        ensures distinct { AllPairs (λ a b. a ≢ b) self.now }
    {
        let place = self.names.get_index_of(name)?;
        Some(place as u32)
    }
}
