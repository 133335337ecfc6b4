// Places that were evaluated.

ghost use Rattle.std.specs.Prelude.{◌≡◌, ◌+◌, ◌*◌, map, OnOk, IfOk, IfErr};
ghost use Rattle.std.specs.List.{list_all};
ghost use Rattle.rc_base.specs.declared.ends.RunFault.TheVariants.{Memory};
ghost use Rattle.rc_core.specs.Evaluation.{aimed, choosing, further};
ghost use Rattle.rc_core.specs.Source.{cell_of, cells_chosen, chosen_in_range, is_index};
ghost use Rattle.rc_values.specs.Values.{chosen_of, value_of};
ghost use Rattle.rc_values.specs.declared.stop.Stop.TheVariants.{Cut};

use crate::stop::Stop;
use crate::value::Value;
use rc_base::RunFault;
use std::alloc::Global;
use std::marker::Model;

/// An index that was evaluated, the length of its array field, and the cells of one element.
#[derive(Clone, Copy)]
pub struct Chosen {
    pub index: i64,
    pub count: u64,
    pub stride: u64,
}

/// A place whose pointer and indices were evaluated: the cells that stand before it in its element,
/// but for the indices.
#[derive(Drop)]
pub struct Target {
    pointer: Value,
    shift: i64,
    offset: u64,
    chosen: Vec<Chosen>,
}

impl Model for Target {
    ghost use Rattle.std.specs.Prelude.{map};
    ghost use Rattle.rc_core.specs.Runs.{Target};
    ghost use Rattle.rc_values.specs.Values.{chosen_of, value_of};

    ghost Value = { Target };

    ghost view = { λ t. record { pointer = value_of t.pointer; shift = t.shift; offset = t.offset; chosen = map chosen_of t.chosen.items } };
}

/// From 0, and less than the count.
pub fn is_index(index: i128, count: u64) -> bool
    ensures { result ≡ is_index index count }
{
    if index < 0 {
        return false;
    }
    index < count as i128
}

/// A sum of cells. No object has more of them than a `u64` counts, so that a larger sum is out of memory.
pub fn sum_of_cells(left: u64, right: u64) -> Result<u64, Stop>
    ensures sum { IfOk result (λ n. n ≡ left + right) }
    ensures memory { IfErr result (λ stop. stop ≡ Cut Memory) }
{
    match left.checked_add(right) {
        Some(sum) => Ok(sum),
        None => Err(Stop::Cut(RunFault::Memory)),
    }
}

/// A product of cells. A larger one than a `u64` counts is out of memory.
pub fn product_of_cells(left: u64, right: u64) -> Result<u64, Stop>
    ensures product { IfOk result (λ n. n ≡ left * right) }
    ensures memory { IfErr result (λ stop. stop ≡ Cut Memory) }
{
    match left.checked_mul(right) {
        Some(product) => Ok(product),
        None => Err(Stop::Cut(RunFault::Memory)),
    }
}

/// Whether each index is in its array.
fn are_in_range(chosen: &[Chosen]) -> bool
    ensures { result ≡ list_all chosen_in_range (map chosen_of chosen.now) }
{
    let Some((first, rest)) = chosen.split_first() else {
        return true;
    };
    if !is_index(first.index as i128, first.count) {
        return false;
    }
    are_in_range(rest)
}

/// The cells before the elements that the indices choose.
fn cells_chosen(chosen: &[Chosen]) -> Result<u64, Stop>
    ensures cells { IfOk result (λ n. n ≡ cells_chosen (map chosen_of chosen.now)) }
    ensures memory { IfErr result (λ stop. stop ≡ Cut Memory) }
{
    let Some((first, rest)) = chosen.split_first() else {
        return Ok(0);
    };
    let here = product_of_cells(first.index.unsigned_abs(), first.stride)?;
    let further = cells_chosen(rest)?;
    sum_of_cells(here, further)
}

/// The element of an object with no way inward.
pub fn aimed(alloc: Global, pointer: Value, shift: i64) -> Target
    ensures { result ≡ aimed (value_of pointer) shift }
{
    Target {
        pointer,
        shift,
        offset: 0,
        chosen: Vec::new(alloc),
    }
}

impl Target {
    pub fn pointer(&self) -> Value
        ensures { value_of result ≡ self.now.pointer }
    {
        self.pointer
    }

    pub fn shift(&self) -> i64
        ensures { result ≡ self.now.shift }
    {
        self.shift
    }

    /// So many cells further.
    pub fn go_further(&mut self, cells: u64) -> Result<(), Stop>
        ensures further { OnOk result (self.new ≡ further cells self.old) }
        ensures memory { IfErr result (λ stop. stop ≡ Cut Memory) }
    {
        self.offset = sum_of_cells(self.offset, cells)?;
        Ok(())
    }

    /// One element of an array field.
    pub fn choose(&mut self, chosen: Chosen) -> Result<(), Stop>
        ensures chosen { OnOk result (self.new ≡ choosing (chosen_of chosen) self.old) }
        ensures memory { IfErr result (λ stop. stop ≡ Cut Memory) }
    {
        self.chosen.push(chosen)?;
        Ok(())
    }

    /// Whether each index is in its array.
    pub fn is_in_range(&self) -> bool
        ensures { result ≡ list_all chosen_in_range self.now.chosen }
    {
        are_in_range(self.chosen.as_slice())
    }

    /// The cell of the element.
    pub fn cell(&self) -> Result<u64, Stop>
        ensures cell { IfOk result (λ n. n ≡ cell_of self.now) }
        ensures memory { IfErr result (λ stop. stop ≡ Cut Memory) }
    {
        let further = cells_chosen(self.chosen.as_slice())?;
        sum_of_cells(self.offset, further)
    }
}
