// A stack.
ghost use Rattle.std.specs.Prelude.{◌≡◌, [], ◌∷◌, OnOk, OnErr, MatchOption, length, option_copied};
ghost use Rattle.rc_scope.specs.Scopes.{from_below};

use rc_base::NoMemory;
use std::alloc::Global;
use std::marker::Model;

/// A stack, which contracts see as a list with the topmost first. The one at the bottom has place 0.
#[derive(Drop)]
pub struct Pile<T> {
    items: Vec<T>,
}

impl<T> Model for Pile<T> {
    ghost use Rattle.std.specs.Prelude.{List, reverse};

    ghost Value = { List T };

    ghost view = { λ p. reverse p.items.items };
}

impl<T: Drop> Pile<T> {
    /// An empty one. It takes no memory.
    pub fn new(alloc: Global) -> Pile<T>
        ensures { result ≡ [] }
    {
        Pile {
            items: Vec::new(alloc),
        }
    }

    /// How many there are.
    pub fn len(&self) -> usize
        ensures { result ≡ length self.now }
    {
        self.items.len()
    }

    /// The one at a place, or none where there are fewer.
    pub fn at(&self, place: usize) -> Option<&T>
        ensures { option_copied result ≡ from_below self.now place }
    {
        self.items.get(place)
    }

    /// Puts one on top. After a refusal it is as it was before.
    pub fn push(&mut self, item: T) -> Result<(), NoMemory>
        ensures ok { OnOk result (self.new ≡ item ∷ self.old) }
        ensures err { OnErr result (self.new ≡ self.old) }
    {
        Ok(self.items.push(item)?)
    }

    /// Takes the topmost away, or answers none where there is none.
    pub fn pop(&mut self) -> Option<T>
        ensures { MatchOption result ((self.old ≡ []) × (self.new ≡ [])) (λ x. self.old ≡ x ∷ self.new) }
    {
        self.items.pop()
    }
}
