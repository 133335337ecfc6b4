// Which items clash with those of earlier files.
ghost use Rattle.std.specs.Prelude.{◌≡◌, ℕ, ◌++◌, ◌∷◌, [], List, Some, None, OnOk, map, option_map};
ghost use Rattle.rc_syntax.specs.Shape.{item_of};
ghost use Rattle.rc_syntax.specs.Tree as t;
ghost use Rattle.rc_deletes.specs.Kinds.{place_of};
ghost use Rattle.rc_linking.specs.Links.{clash_in};
ghost use Rattle.rc_clashes.specs.Standing.{name_of};
ghost use Rattle.rc_clashes.specs.Kept.{StandsFor, items_of};
ghost use Rattle.rc_clashes.specs.Clashing.{in_file};

use crate::clash::Clash;
use crate::kept::Earlier;
use crate::pairs::{disagrees_with_any, doubles_any, is_covered, line_of, name_of};
use rc_base::NoMemory;
use rc_scope::Names;
use rc_syntax::tree::Item;
use std::alloc::Global;

/// How an item clashes with those that are kept of its name.
fn clash_with(kept: &[&Item], item: &Item) -> Option<Clash>
    ensures { (file : ℕ) → option_map (in_file file) result ≡ clash_in (items_of kept.now) file (item_of item.now ∷ []) }
{
    if disagrees_with_any(kept, item) {
        return Some(Clash::Disagree(line_of(item)));
    }
    if doubles_any(kept, item) {
        return Some(Clash::Double(line_of(item)));
    }
    None
}

impl<'a> Earlier<'a> {
    /// No items. It takes no memory.
    pub fn new(alloc: Global) -> Earlier<'a>
        ensures { StandsFor result [] }
    {
        Earlier {
            alloc,
            names: Names::new(alloc),
            kept: Vec::new(alloc),
        }
    }

    /// How an item clashes with those that are kept at the place of its name.
    fn clash_at(&self, place: usize, item: &Item) -> Option<Clash>
        requires { place_of self.now.names (name_of (item_of item.now)).text ≡ Some place }
        ensures { (earlier : List t.Item) (file : ℕ) → StandsFor self.now earlier → option_map (in_file file) result ≡ clash_in earlier file (item_of item.now ∷ []) }
    {
        if place < self.kept.len() {
            return clash_with(&self.kept[place], item);
        }
        None
    }

    fn item_clash(&self, item: &Item) -> Option<Clash>
        ensures { (earlier : List t.Item) (file : ℕ) → StandsFor self.now earlier → option_map (in_file file) result ≡ clash_in earlier file (item_of item.now ∷ []) }
    {
        match self.names.find(name_of(item).text.as_slice()) {
            Some(place) => self.clash_at(place as usize, item),
            None => None,
        }
    }

    /// The first item of a file that clashes with an earlier file's: how, and where.
    pub fn clash(&self, items: &[Item]) -> Option<Clash>
        ensures { (earlier : List t.Item) (file : ℕ) → StandsFor self.now earlier → option_map (in_file file) result ≡ clash_in earlier file (map item_of items.now) }
    {
        for item in items {
            if let Some(clash) = self.item_clash(item) {
                return Some(clash);
            }
        }
        None
    }

    /// An item of a new name.
    fn add_new(&mut self, item: &'a Item) -> Result<(), NoMemory>
        requires { place_of self.old.names (name_of (item_of item.now)).text ≡ None }
        ensures { (earlier : List t.Item) → StandsFor self.old earlier → OnOk result (StandsFor self.new (earlier ++ item_of item.now ∷ [])) }
    {
        if self.names.len() >= u32::MAX as usize {
            return Err(NoMemory);
        }
        let mut own = Vec::new(self.alloc);
        own.push(item)?;
        self.kept.push(own)?;
        self.names.number(name_of(item).text.as_slice())?;
        Ok(())
    }

    /// Another item of the name at a place.
    fn add_more(&mut self, place: usize, item: &'a Item) -> Result<(), NoMemory>
        requires { place_of self.old.names (name_of (item_of item.now)).text ≡ Some place }
        ensures { (earlier : List t.Item) → StandsFor self.old earlier → OnOk result (StandsFor self.new (earlier ++ item_of item.now ∷ [])) }
    {
        if let Some(kept) = self.kept.get_mut(place) {
            if is_covered(kept.as_slice(), item) {
                return Ok(());
            }
            kept.push(item)?;
        }
        Ok(())
    }

    fn add_item(&mut self, item: &'a Item) -> Result<(), NoMemory>
        ensures { (earlier : List t.Item) → StandsFor self.old earlier → OnOk result (StandsFor self.new (earlier ++ item_of item.now ∷ [])) }
    {
        match self.names.find(name_of(item).text.as_slice()) {
            Some(place) => self.add_more(place as usize, item),
            None => self.add_new(item),
        }
    }

    /// Puts a file's items behind those of the files before it.
    ///
    /// # Errors
    ///
    /// Out of memory.
    pub fn add(&mut self, items: &'a [Item]) -> Result<(), NoMemory>
        ensures { (earlier : List t.Item) → StandsFor self.old earlier → OnOk result (StandsFor self.new (earlier ++ map item_of items.now)) }
    {
        for item in items {
            self.add_item(item)?;
        }
        Ok(())
    }
}
