// Marks at stores.
ghost use Rattle.std.specs.Prelude.{◌≡◌, ◌<◌, ◌||◌, ℕ, List, [], false, get_or, length, map, nat_eq, ◌&&◌, replicate, true, IfOk, OnOk, OnErr, slice_set};
ghost use Rattle.rc_core.specs.Laid.{AreLaidOut};
ghost use Rattle.rc_core.specs.Programs.{Struct};
ghost use Rattle.rc_core.specs.Shapes.{struct_of};
ghost use Rattle.rc_rlang.specs.Counted.{AreLayouts};
ghost use Rattle.rc_rlang.specs.RegionCode.{Rlang as RegionCode};
ghost use Rattle.rc_rlang.specs.Shapes.{rlang_of, routine_in};
ghost use Rattle.rc_elim.specs.Masks.{HasPoints, has_check, marks_in, no_marks, rows_of, unmarked};

use crate::asking::asks;
use rc_base::NoMemory;
use rc_core::Layouts;
use rc_graph::graph_of;
use rc_rlang::code::{RegionParts, Routine};
use rc_rlang::rlang::Rlang;
use rc_rlang::{code_points, points_behind};
use std::alloc::Global;
use std::marker::Model;

/// Which points of region code are marked: those whose store makes no check. Points are numbered by
/// function.
#[derive(Drop)]
pub struct Mask {
    pub(crate) rows: Vec<Vec<bool>>,
}

impl Model for Mask {
    ghost use Rattle.std.specs.Prelude.{Bool, List};
    ghost use Rattle.rc_elim.specs.Masks.{rows_of};

    ghost Value = { List (List Bool) };

    ghost view = { λ m. rows_of m.rows.items };
}

/// For each point of a function that it isn't marked.
fn unmarked(alloc: Global, layouts: &Layouts, routine: &Routine) -> Result<Vec<bool>, NoMemory>
    requires laid { AreLayouts layouts.now }
    ensures { (structs : List Struct) → AreLaidOut structs layouts.now → IfOk result (λ bits. bits.items ≡ unmarked (routine_in structs routine.now)) }
{
    let Some(body) = code_points(layouts, &routine.body) else {
        return Err(NoMemory);
    };
    let points = 1 + body as usize + points_behind(&routine.result) as usize;
    Ok(Vec::from_elem(alloc, false, points)?)
}

/// The rows of all functions, without a mark.
fn no_marks(
    alloc: Global,
    layouts: &Layouts,
    parts: &RegionParts,
) -> Result<Vec<Vec<bool>>, NoMemory>
    requires { AreLaidOut (map struct_of parts.now.structs.items) layouts.now }
    ensures { IfOk result (λ rows. rows_of rows.items ≡ no_marks (rlang_of parts.now)) }
{
    let mut rows = Vec::new(alloc);
    for routine in parts.functions.as_slice() {
        rows.push(unmarked(alloc, layouts, routine)?)?;
    }
    Ok(rows)
}

/// Whether a store to an annotated cell stands at a point of the code.
fn has_check(alloc: Global, code: &Rlang, function: u32, point: u32) -> Result<bool, NoMemory>
    ensures { IfOk result (λ there. there ≡ has_check (rlang_of code.now) function point) }
{
    let parts = code.parts();
    let Some(routine) = parts.functions.get(function as usize) else {
        return Ok(false);
    };
    let layouts = code.layouts();
    let graph = graph_of(alloc, layouts, routine)?;
    Ok(asks(graph.nodes.as_slice(), point as usize))
}

/// Sets a bit.
fn set(bits: &mut [bool], point: usize)
    requires { point < length bits.old }
    ensures { bits.new ≡ slice_set bits.old point true }
{
    bits[point] = true;
}

impl Mask {
    /// The mask of region code that marks none of its points.
    ///
    /// # Errors
    ///
    /// Out of memory.
    pub fn none(alloc: Global, code: &Rlang) -> Result<Mask, NoMemory>
        ensures points { IfOk result (HasPoints (rlang_of code.now)) }
        ensures marks { IfOk result (λ mask. (g p : ℕ) → marks_in mask g p ≡ false) }
    {
        let parts = code.parts();
        let layouts = code.layouts();
        let rows = no_marks(alloc, layouts, parts)?;
        Ok(Mask { rows })
    }

    /// How many points a function has: none where it isn't there.
    pub fn points(&self, function: u32) -> usize
        ensures { result ≡ length (get_or self.now function []) }
    {
        match self.rows.get(function as usize) {
            Some(row) => row.len(),
            None => 0,
        }
    }

    /// Marks a point that is there, and changes nothing else.
    fn mark(&mut self, function: u32, point: u32)
        requires { point < length (get_or self.old function []) }
        ensures points { (r : RegionCode) → HasPoints r self.old → HasPoints r self.new }
        ensures marks { (g p : ℕ) → marks_in self.new g p ≡ (nat_eq g function && nat_eq p point || marks_in self.old g p) }
    {
        set(&mut self.rows[function as usize], point as usize);
    }

    /// Marks the store to an annotated cell that stands at a point of the code, and answers whether one
    /// does. Every other point is marked as before, and where no such store stands this one too.
    ///
    /// # Errors
    ///
    /// Out of memory: then nothing is changed.
    pub fn remove(
        &mut self,
        alloc: Global,
        code: &Rlang,
        function: u32,
        point: u32,
    ) -> Result<bool, NoMemory>
        requires { HasPoints (rlang_of code.now) self.old }
        ensures store { IfOk result (λ there. there ≡ has_check (rlang_of code.now) function point) }
        ensures points { HasPoints (rlang_of code.now) self.new }
        ensures marks { OnOk result ((g p : ℕ) → marks_in self.new g p ≡ (has_check (rlang_of code.now) function point && (nat_eq g function && nat_eq p point) || marks_in self.old g p)) }
        ensures kept { OnErr result (self.new ≡ self.old) }
    {
        let there = has_check(alloc, code, function, point)?;
        if !there {
            return Ok(false);
        }
        self.mark(function, point);
        Ok(true)
    }

    /// Whether a point is marked. One that isn't there is not.
    pub fn removed(&self, function: u32, point: u32) -> bool
        ensures { result ≡ marks_in self.now function point }
    {
        let Some(row) = self.rows.get(function as usize) else {
            return false;
        };
        match row.get(point as usize) {
            Some(bit) => *bit,
            None => false,
        }
    }
}
