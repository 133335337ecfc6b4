// Lists of values.

ghost use Rattle.std.specs.Prelude.{◌≡◌, ◌++◌, ◌∷◌, [], length, OnOk, slice_get, option_map, map, take, drop, IfOk};
ghost use Rattle.std.specs.List.{list_any};
ghost use Rattle.rc_core.specs.Heap.{names, update};
ghost use Rattle.rc_core.specs.Source.{overwritten};
ghost use Rattle.rc_values.specs.Cells.{blank_cell};
ghost use Rattle.rc_values.specs.Values.{value_of};

use crate::cells::blank_cell;
use crate::value::{Value, names};
use rc_core::Kind;
use std::alloc::{AllocError, Global};
use std::marker::Model;

/// Values, as cells and locals hold them.
#[derive(Drop)]
pub struct Values {
    list: Vec<Value>,
}

impl Model for Values {
    ghost use Rattle.std.specs.Prelude.{map};
    ghost use Rattle.rc_values.specs.Values.{ValueList, value_of};

    ghost Value = { ValueList };

    ghost view = { λ v. map value_of v.list.items };
}

/// The first `size` elements, or all where there are fewer.
pub fn front_of(values: &[Value], size: usize) -> &[Value]
    ensures { result.now ≡ take size values.now }
{
    if size < values.len() {
        return &values[..size];
    }
    values
}

#[tactic(auto, using(crate::proofs::Lists::any_mapped_more, crate::proofs::Lists::any_mapped_at))]
fn any_names(region: u32, values: &[Value]) -> bool
    ensures { result ≡ list_any (names region) (map value_of values.now) }
{
    for value in values {
        if names(region, *value) {
            return true;
        }
    }
    false
}

impl Values {
    pub fn new(alloc: Global) -> Values
        ensures { result ≡ [] }
    {
        Values {
            list: Vec::new(alloc),
        }
    }

    pub fn len(&self) -> usize
        ensures { result ≡ length self.now }
    {
        self.list.len()
    }

    pub fn get(&self, place: usize) -> Option<Value>
        ensures { option_map value_of result ≡ slice_get self.now place }
    {
        self.list.get(place).copied()
    }

    pub fn push(&mut self, value: Value) -> Result<(), AllocError>
        ensures { OnOk result (self.new ≡ self.old ++ value_of value ∷ []) }
    {
        self.list.push(value)?;
        Ok(())
    }

    #[tactic(auto, using(crate::proofs::Lists::set_mapped, crate::proofs::Lists::update_past, std::proofs::lemmas::Grind::common_steps))]
    /// The value at a place, where there is one, becomes this.
    pub fn set(&mut self, place: usize, value: Value)
        ensures { self.new ≡ update self.old place (λ _. value_of value) }
    {
        if place < self.list.len() {
            self.list[place] = value;
        }
    }

    pub fn append(&mut self, more: &Values) -> Result<(), AllocError>
        ensures { OnOk result (self.new ≡ self.old ++ more.now) }
    {
        self.list.extend_from_slice(more.list.as_slice())
    }

    pub fn as_slice(&self) -> &[Value]
        ensures { map value_of result.now ≡ self.now }
    {
        self.list.as_slice()
    }

    /// Zero or null for each of these cells.
    pub fn push_blanks(&mut self, kinds: &[Kind]) -> Result<(), AllocError>
        ensures { OnOk result (self.new ≡ self.old ++ map blank_cell kinds.now) }
    {
        let Some((kind, rest)) = kinds.split_first() else {
            return Ok(());
        };
        self.push(blank_cell(*kind))?;
        self.push_blanks(rest)
    }

    #[tactic(auto, using(crate::proofs::Lists::part_mapped, crate::proofs::Lists::part_past, std::proofs::lemmas::Grind::common_steps))]
    /// `size` values from `place` on, as far as they are there.
    pub fn part(&self, alloc: Global, place: usize, size: usize) -> Result<Values, AllocError>
        ensures { IfOk result (λ part. part ≡ take size (drop place self.now)) }
    {
        let list = self.list.as_slice();
        if place >= list.len() {
            return Ok(Values::new(alloc));
        }
        let rest = &list[place..];
        let front = if size < rest.len() {
            &rest[..size]
        } else {
            rest
        };
        Ok(Values {
            list: front.to_vec(alloc)?,
        })
    }

    #[tactic(auto, using(crate::proofs::Lists::overwritten_nothing, crate::proofs::Lists::overwritten_past, crate::proofs::Lists::overwritten_first, std::proofs::lemmas::Grind::common_steps))]
    /// Changes the values from a place on to these, as far as they are there.
    pub fn overwrite(&mut self, place: usize, values: &[Value])
        ensures { self.new ≡ overwritten place (map value_of values.now) self.old }
    {
        let Some((first, rest)) = values.split_first() else {
            return;
        };
        if place >= self.list.len() {
            return;
        }
        self.set(place, *first);
        self.overwrite(place + 1, rest);
    }

    /// Whether one of them names the region.
    pub fn name(&self, region: u32) -> bool
        ensures { result ≡ list_any (names region) self.now }
    {
        any_names(region, self.list.as_slice())
    }
}
