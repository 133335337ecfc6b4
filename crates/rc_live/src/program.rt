// The lists of a whole program.
ghost use Rattle.std.specs.Prelude.{◌≡◌, ◌≤◌, ℕ, Bool, List, Some, length, map, option_map, reverse, slice_get, sum, OnOk, IfOk};
ghost use Rattle.rc_core.specs.Laid.{AreLaidOut};
ghost use Rattle.rc_core.specs.Programs.{Struct};
ghost use Rattle.rc_core.specs.Shapes.{ty_of};
ghost use Rattle.rc_rlang.specs.Points.{end_points};
ghost use Rattle.rc_rlang.specs.RegionPoints.{routine_points};
ghost use Rattle.rc_rlang.specs.RegionRuns.{deletes};
ghost use Rattle.rc_rlang.specs.Shapes.{rlang_of, routine_in};
ghost use Rattle.rc_rlang.specs.Touches.{deleting_points};
ghost use Rattle.rc_rlang.specs.LiveLists.{functions_lists, live_lists, routine_lists};
ghost use Rattle.rc_rlang.specs.LiveMaps.{held_of, empty_lists, point_in};
ghost use Rattle.rc_live.specs.Rows.{numbered};
ghost use Rattle.rc_live.specs.Walking.{lowered, seen, structs_in, WentBack};

use crate::effects::effect_of;
use crate::rows::{Ways, references};
use crate::walk::{Context, Walk, code};
use rc_base::{MOST_POINTS, NoMemory};
use rc_core::Layouts;
use rc_core::ty::Ty;
use rc_liveness::lists_are_maps;
use rc_rlang::code::{RegionParts, Routine};
use rc_rlang::live_map::{Held, LiveMap};
use rc_rlang::rlang::Rlang;
use std::alloc::Global;

/// The points behind a function's body.
fn points_behind(given: &Option<Ty>) -> u64
    ensures { result ≡ end_points (option_map ty_of given.now) }
{
    match given {
        None => 1,
        Some(_) => 2,
    }
}

/// What is listed at deleting points.
#[derive(Clone, Copy)]
pub(crate) enum Listed {
    /// The locals that are live behind.
    Live,
    /// None.
    Nothing,
}

/// What the walks over a program look at.
#[derive(Clone, Copy)]
pub(crate) struct Program<'c> {
    pub(crate) alloc: Global,
    pub(crate) parts: &'c RegionParts,
    pub(crate) layouts: &'c Layouts,
    pub(crate) listed: Listed,
}

/// The locals of a function that may be listed, in increasing order.
fn names_of(program: &Program, one: &Routine) -> Result<Vec<u32>, NoMemory>
    ensures { (structs : List Struct) → IfOk result (λ names. names.items ≡ numbered (seen program.now.listed (routine_in structs one.now)).locals) }
{
    match program.listed {
        Listed::Live => references(program.alloc, one.locals.as_slice()),
        Listed::Nothing => Ok(Vec::new(program.alloc)),
    }
}

/// Back past a function.
fn routine(program: &Program, one: &Routine, walk: &mut Walk) -> Result<(), NoMemory>
    requires short { length (numbered (map ty_of one.now.locals.items)) ≤ 128 }
    requires laid { AreLaidOut (structs_in program.now.parts.now) program.now.layouts.now }
    ensures { OnOk result (WentBack (routine_points (seen program.now.listed (routine_in (structs_in program.now.parts.now) one.now))) (λ here. routine_lists (deletes (rlang_of program.now.parts.now)) (seen program.now.listed (routine_in (structs_in program.now.parts.now) one.now)) here) walk.old walk.new) }
{
    let names = names_of(program, one)?;
    let context = Context {
        alloc: program.alloc,
        parts: program.parts,
        layouts: program.layouts,
        names: names.as_slice(),
    };
    let mut effects = Vec::new(program.alloc);
    effect_of(context.names, &one.body, &mut effects)?;
    walk.pass(points_behind(&one.result));
    code(&context, &one.body, &Ways::none(), &mut effects, walk)?;
    walk.pass(1);
    Ok(())
}

/// Back past all functions, the last one first.
fn functions(program: &Program, walk: &mut Walk) -> Result<(), NoMemory>
    requires narrow { (k : ℕ) (f : Routine) → slice_get program.now.parts.now.functions.items k ≡ Some f → length (numbered (map ty_of f.locals.items)) ≤ 128 }
    requires laid { AreLaidOut (structs_in program.now.parts.now) program.now.layouts.now }
    ensures { OnOk result (WentBack (sum (map routine_points (map (seen program.now.listed) (rlang_of program.now.parts.now).functions))) (functions_lists (deletes (rlang_of program.now.parts.now)) (map (seen program.now.listed) (rlang_of program.now.parts.now).functions)) walk.old walk.new) }
{
    let all = program.parts.functions.as_slice();
    for i in (0..all.len()).rev() {
        routine(program, &all[i], walk)?;
    }
    Ok(())
}

/// The lists from the first to the last, of points that are this much nearer to the beginning.
fn in_order(mut lists: Vec<Held>, much: u32) -> Vec<Held>
    ensures { map held_of result.items ≡ map (lowered much) (reverse (map held_of lists.items)) }
{
    lists.reverse();
    for held in lists.iter_mut() {
        held.point = held.point.saturating_sub(much);
    }
    lists
}

/// The lists of all deleting points.
fn lists(alloc: Global, code: &Rlang, listed: Listed) -> Result<Vec<Held>, NoMemory>
    ensures { IfOk result (λ lists. map held_of lists.items ≡ functions_lists (deletes (rlang_of code.now)) (map (seen listed) (rlang_of code.now).functions) 0) }
{
    let parts = code.parts();
    let program = Program {
        alloc,
        parts,
        layouts: code.layouts(),
        listed,
    };
    let mut walk = Walk {
        point: MOST_POINTS,
        lists: Vec::new(alloc),
    };
    functions(&program, &mut walk)?;
    let first = walk.point;
    Ok(in_order(walk.lists, first))
}

/// At each deleting point the locals that are live behind it: those regions and pointers that some way
/// on from there reads before anything sets them, in increasing order. What the point itself assigns
/// is set behind it.
///
/// It takes two walks over each function, in which what is live is a row of at most 128 bits: the first
/// finds what each loop does to what is live, and the second goes from the end to the beginning.
///
/// # Errors
///
/// Out of memory.
pub fn live(alloc: Global, code: &Rlang) -> Result<LiveMap, NoMemory>
    ensures live { IfOk result (λ map. map ≡ live_lists (rlang_of code.now)) }
    ensures points { IfOk result (λ lists. map point_in lists ≡ deleting_points (rlang_of code.now)) }
{
    lists_are_maps();
    Ok(LiveMap::new(lists(alloc, code, Listed::Live)?))
}

/// At each deleting point an empty list.
///
/// # Errors
///
/// Out of memory.
pub fn none(alloc: Global, code: &Rlang) -> Result<LiveMap, NoMemory>
    ensures { IfOk result (λ map. map ≡ empty_lists (deleting_points (rlang_of code.now))) }
{
    lists_are_maps();
    Ok(LiveMap::new(lists(alloc, code, Listed::Nothing)?))
}
