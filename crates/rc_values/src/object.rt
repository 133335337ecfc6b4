// Objects.

ghost use Rattle.std.specs.Prelude.{◌≡◌, ◌∷◌, ◌+◌, [], map, drop, take, IfOk, IfErr};
ghost use Rattle.rc_base.specs.declared.ends.RunFault.TheVariants.{Memory};
ghost use Rattle.rc_core.specs.Heap.{Number, literal};
ghost use Rattle.rc_core.specs.Source.{overwritten};
ghost use Rattle.rc_values.specs.Objects.{blank, first_of, kept_object, object_names};
ghost use Rattle.rc_values.specs.Values.{value_of};
ghost use Rattle.rc_values.specs.declared.stop.Stop.TheVariants.{Cut};

use crate::cells::number_cells;
use crate::stop::Stop;
use crate::value::Value;
use crate::values::Values;
use rc_core::Kind;
use std::alloc::Global;
use std::marker::Model;

/// An array of elements of one layout. The cells of an element lie together.
#[derive(Drop)]
pub struct Object<'p> {
    kinds: &'p [Kind],
    count: u64,
    values: Values,
}

impl<'p> Model for Object<'p> {
    ghost use Rattle.rc_values.specs.Objects.{KeptObject};

    ghost Value = { KeptObject };

    ghost view = { λ o. record { kinds = o.kinds.now; count = o.count; values = o.values } };
}

/// Elements that are zero or null.
#[tactic(auto, using(crate::proofs::Lists::blanks_more))]
pub fn blank<'p>(alloc: Global, kinds: &'p [Kind], count: u64) -> Result<Object<'p>, Stop>
    ensures object { IfOk result (λ o. o ≡ blank kinds.now count) }
    ensures memory { IfErr result (λ stop. stop ≡ Cut Memory) }
{
    let mut values = Values::new(alloc);
    for _ in 0..count {
        values.push_blanks(kinds)?;
    }
    Ok(Object {
        kinds,
        count,
        values,
    })
}

/// One element of one number.
pub fn number_object<'p>(alloc: Global, kinds: &'p [Kind], number: i64) -> Result<Object<'p>, Stop>
    ensures object { IfOk result (λ o. o ≡ record { kinds = kinds.now; count = 1; values = Number number ∷ [] }) }
    ensures memory { IfErr result (λ stop. stop ≡ Cut Memory) }
{
    let mut values = Values::new(alloc);
    values.push(Value::Number(number))?;
    Ok(Object {
        kinds,
        count: 1,
        values,
    })
}

/// A string literal: its bytes, and a 0.
pub fn literal<'p>(alloc: Global, bytes: &[u8]) -> Result<Object<'p>, Stop>
    ensures object { IfOk result (λ o. o ≡ kept_object (literal bytes.now)) }
    ensures memory { IfErr result (λ stop. stop ≡ Cut Memory) }
{
    let mut values = Values::new(alloc);
    for byte in bytes {
        values.push(Value::Number(*byte as i64))?;
    }
    values.push(Value::Number(0))?;
    Ok(Object {
        kinds: number_cells(),
        count: bytes.len() as u64 + 1,
        values,
    })
}

impl<'p> Object<'p> {
    pub fn count(&self) -> u64
        ensures { result ≡ self.now.count }
    {
        self.count
    }

    /// The cells of one element.
    pub fn kinds(&self) -> &[Kind]
        ensures { result.now ≡ self.now.kinds }
    {
        self.kinds
    }

    /// Whether a cell names the region.
    pub fn names(&self, region: u32) -> bool
        ensures { result ≡ object_names region self.now }
    {
        self.values.name(region)
    }

    /// The value of a cell, or null where there is none.
    #[tactic(auto, using(crate::proofs::Firsts::first_there, crate::proofs::Firsts::first_missing))]
    pub fn value(&self, place: u64) -> Value
        ensures { value_of result ≡ first_of (drop place self.now.values) }
    {
        match self.values.get(place as usize) {
            None => Value::Null,
            Some(value) => value,
        }
    }

    /// The values of `size` cells from a place on, as far as they are there.
    pub fn part(&self, alloc: Global, place: u64, size: u64) -> Result<Values, Stop>
        ensures part { IfOk result (λ values. values ≡ take size (drop place self.now.values)) }
        ensures memory { IfErr result (λ stop. stop ≡ Cut Memory) }
    {
        Ok(self.values.part(alloc, place as usize, size as usize)?)
    }

    /// Changes the cells from a place on to these values.
    pub fn write(&mut self, place: u64, values: &[Value])
        ensures { self.new ≡ record self.old { values = overwritten place (map value_of values.now) self.old.values } }
    {
        self.values.overwrite(place as usize, values);
    }
}
