// Fields found by their names.
ghost use Rattle.std.specs.Prelude.{◌≡◌, ◌<◌, ℕ, List, [], ◌∷◌, ◌++◌, length, map, option_map, slice_get, IfOk, OnOk};
ghost use Rattle.rc_deletes.specs.Expressions.{field_named};
ghost use Rattle.rc_deletes.specs.Kinds.{place_of};
ghost use Rattle.rc_rules.specs.Shapes.{found_of};
ghost use Rattle.rc_scope.specs.Names.{with_name};
ghost use Rattle.rc_defined.specs.Fields.{named_of, fields_of, names_in, field_at};
ghost use Rattle.rc_defined.specs.Firsts.{FindsFirst};

use crate::fields::{Fields, NamedField};
use rc_base::NoMemory;
use rc_rules::Found;
use rc_scope::Names;
use std::alloc::Global;

impl Fields {
    /// No fields. It takes no memory.
    pub(crate) fn new(alloc: Global) -> Fields
        ensures { fields_of result ≡ [] }
    {
        Fields {
            fields: Vec::new(alloc),
            names: Names::new(alloc),
            places: Vec::new(alloc),
        }
    }

    /// The fields with one more behind them.
    #[tactic(auto, using(crate::proofs::Lists::map_push))]
    pub(crate) fn with(self, field: NamedField) -> Result<Fields, NoMemory>
        ensures { IfOk result (λ fields. fields_of fields ≡ fields_of self ++ named_of field ∷ []) }
    {
        let Fields {
            mut fields,
            mut names,
            mut places,
        } = self;
        let place = fields.len();
        if place >= 4294967295 {
            return Err(NoMemory);
        }
        note(&mut names, &mut places, field.name.as_slice(), place as u32)?;
        match fields.push(field) {
            Ok(()) => Ok(Fields {
                fields,
                names,
                places,
            }),
            Err(_) => Err(NoMemory),
        }
    }

    /// The place that is kept for a name by its number.
    fn place(&self, number: u32) -> Option<u32>
        ensures { result ≡ slice_get self.now.places.items number }
    {
        match self.places.get(number as usize) {
            None => None,
            Some(place) => Some(*place),
        }
    }

    /// The number of the first field with a name.
    fn find(&self, name: &[u8]) -> Option<u32>
        ensures { result ≡ place_of (names_in self.now) name.now }
    {
        match self.names.find(name) {
            None => None,
            Some(number) => self.place(number),
        }
    }

    /// The field with a number.
    fn at(&self, number: u32) -> Option<Found<'_>>
        ensures { option_map found_of result ≡ field_at self.now.fields.items number }
    {
        match self.fields.get(number as usize) {
            None => None,
            Some(named) => Some(Found {
                number,
                field: &named.field,
            }),
        }
    }

    /// The first field with a name.
    #[tactic(auto, using(crate::proofs::Contexts::named_at))]
    pub(crate) fn found(&self, name: &[u8]) -> Option<Found<'_>>
        ensures { option_map found_of result ≡ field_named (fields_of self.now) name.now }
    {
        match self.find(name) {
            None => None,
            Some(number) => self.at(number),
        }
    }
}

/// Keeps the place of a name that comes behind all others, where it is new.
fn note(names: &mut Names, places: &mut Vec<u32>, name: &[u8], place: u32) -> Result<(), NoMemory>
    requires few { length names.old < 4294967295 }
    ensures ok { (all : List (List ℕ)) → FindsFirst names.old places.old.items all → length all ≡ place → OnOk result (FindsFirst names.new places.new.items (all ++ name.now ∷ [])) }
{
    match names.find(name) {
        Some(_) => Ok(()),
        None => note_new(names, places, name, place),
    }
}

fn note_new(
    names: &mut Names,
    places: &mut Vec<u32>,
    name: &[u8],
    place: u32,
) -> Result<(), NoMemory>
    requires few { length names.old < 4294967295 }
    ensures names { OnOk result (names.new ≡ with_name names.old name.now) }
    ensures places { OnOk result (places.new.items ≡ places.old.items ++ place ∷ []) }
{
    names.number(name)?;
    Ok(places.push(place)?)
}
