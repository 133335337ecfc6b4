// The nodes of what is done with values.
ghost use Rattle.std.specs.Prelude.{◌≡◌, ◌++◌, ◌∷◌, [], ◌+◌, ◌-◌, ℕ, suc, Some, None, List, OnOk, IfOk, drop, length, option_map, map, replicate, slice_get};
ghost use Rattle.rc_core.specs.Programs.{Struct};
ghost use Rattle.rc_core.specs.Shapes.{ty_of};
ghost use Rattle.rc_core.specs.Layout.{Layout, note_of, cells as cells_of_type};
ghost use Rattle.rc_core.specs.Types.{CellKind, struct};
ghost use Rattle.rc_core.specs.Laid.{held_kind};
ghost use Rattle.rc_rlang.specs.RegionCode.{Routine, width};
ghost use Rattle.rc_rlang.specs.RegionFlow.{act_nodes, cell_effects, change_effects, in_line, if_regional, nothing, beside, looked_at, moved, one_of, is_regional as is_regional_type, is_regional_cell, loading, storing, loaded_value, stored_value, local_variable, returned_variable, returning, temporary_variable};
ghost use Rattle.rc_rlang.specs.Points.{change_points};
ghost use Rattle.rc_rlang.specs.Shapes.{access_of, act_of};
ghost use Rattle.rc_graph.specs.Nodes.{Serves, effect_of, nodes_of, idle_nodes};

use crate::names::{cell_note, is_regional, is_regional_kind};
use crate::node::{Effect, Node};
use crate::operations::{loaded, stored};
use crate::output::{Context, either, go, leave};
use rc_base::NoMemory;
use rc_core::Kind;
use rc_core::stmt::Change;
use rc_core::ty::{Note, Ty};
use rc_plans::{add, width_of};
use rc_rlang::access::Access;
use rc_rlang::change_points;
use rc_rlang::code::Act;

/// The variables of a struct copy: of the cell's value, and of the two pointers.
#[derive(Clone, Copy)]
struct Holders {
    value: u32,
    from: u32,
    to: u32,
}

/// So many points that do nothing, one after another.
fn idle(out: &mut Vec<Node>, count: u32, here: u32) -> Result<u32, NoMemory>
    ensures nodes { OnOk result (nodes_of out.new.items ≡ nodes_of out.old.items ++ idle_nodes count here) }
    ensures behind { IfOk result (λ n. n ≡ here + count) }
{
    let mut at = here;
    for done in 0..count {
        let next = add(at, 1)?;
        go(out, Effect::Nothing, next)?;
        at = next;
    }
    Ok(at)
}

/// A number is changed in a cell: the points of `place op= e`.
fn compute(
    out: &mut Vec<Node>,
    holder: u32,
    points: u32,
    here: u32,
    next: u32,
) -> Result<(), NoMemory>
    ensures { OnOk result (nodes_of out.new.items ≡ nodes_of out.old.items ++ in_line (looked_at holder ∷ (replicate (points - 2) nothing ++ looked_at holder ∷ [])) here next) }
{
    let second = add(here, 1)?;
    go(out, Effect::LookedAt(holder), second)?;
    let last = idle(out, points.saturating_sub(2), second)?;
    go(out, Effect::LookedAt(holder), next)
}

/// A pointer in a cell is stepped.
fn step_cell(
    out: &mut Vec<Node>,
    cell: &Ty,
    value: u32,
    holder: u32,
    here: u32,
    next: u32,
) -> Result<(), NoMemory>
    ensures { (f : Routine) (v h : _) → value ≡ temporary_variable f v → holder ≡ temporary_variable f h →
        OnOk result (nodes_of out.new.items ≡ nodes_of out.old.items ++ in_line (loaded_value f (ty_of cell.now) v h ∷ beside value value ∷ stored_value f (ty_of cell.now) v h ∷ []) here next) }
{
    let second = add(here, 1)?;
    let third = add(second, 1)?;
    go(out, loaded(cell, value, holder), second)?;
    go(out, Effect::Beside(value, value), third)?;
    go(out, stored(cell, value, holder), next)
}

/// The annotation of a cell among those of a struct.
#[tactic(auto, using(crate::proofs::Walking::mapped_get))]
fn note_at(kinds: &[Kind], i: usize) -> Note
    ensures { (layout : Layout) (cell : CellKind) → kinds.now ≡ map held_kind layout → slice_get layout i ≡ Some cell → result ≡ note_of cell }
{
    match kinds.get(i) {
        None => Note::Plain,
        Some(kind) => cell_note(kind),
    }
}

/// Whether a cell among those of a struct is a region or a pointer.
#[tactic(auto, using(crate::proofs::Walking::mapped_get))]
fn regional_at(kinds: &[Kind], i: usize) -> bool
    ensures { (layout : Layout) (cell : CellKind) → kinds.now ≡ map held_kind layout → slice_get layout i ≡ Some cell → result ≡ is_regional_cell cell }
{
    match kinds.get(i) {
        None => false,
        Some(kind) => is_regional_kind(kind),
    }
}

/// What a load does from a cell with this annotation.
fn load_cell(regional: bool, note: Note, value: u32, holder: u32) -> Effect
    ensures { (f : Routine) (v h : _) → value ≡ temporary_variable f v → holder ≡ temporary_variable f h → effect_of result ≡ loading f regional note v h }
{
    if regional {
        Effect::Loaded(value, holder, note)
    } else {
        Effect::LookedAt(holder)
    }
}

/// What a store does to a cell with this annotation.
fn store_cell(regional: bool, note: Note, value: u32, holder: u32) -> Effect
    ensures { (f : Routine) (v h : _) → value ≡ temporary_variable f v → holder ≡ temporary_variable f h → effect_of result ≡ storing f regional note v h }
{
    if regional {
        Effect::Stored(value, holder, note)
    } else {
        Effect::LookedAt(holder)
    }
}

/// Each cell of a struct is loaded and stored.
fn cells(
    out: &mut Vec<Node>,
    kinds: &[Kind],
    holders: Holders,
    here: u32,
    next: u32,
) -> Result<(), NoMemory>
    ensures { (f : Routine) (v l : _) (layout : Layout) → holders.value ≡ temporary_variable f v → holders.from ≡ temporary_variable f l → holders.to ≡ temporary_variable f 0 → kinds.now ≡ map held_kind layout →
        OnOk result (nodes_of out.new.items ≡ nodes_of out.old.items ++ in_line (cell_effects f v l layout) here next) }
{
    let mut at = here;
    for i in 0..kinds.len() {
        let note = note_at(kinds, i);
        let regional = regional_at(kinds, i);
        let load = load_cell(regional, note, holders.value, holders.from);
        let store = store_cell(regional, note, holders.value, holders.to);
        let second = add(at, 1)?;
        let behind = add(second, 1)?;
        go(out, load, second)?;
        let to = either(i + 1 == kinds.len(), next, behind);
        go(out, store, to)?;
        at = behind;
    }
    Ok(())
}

/// The nodes of an update that has so many points.
fn update(
    context: &Context,
    place: &Access,
    way: Change,
    points: u32,
    here: u32,
    next: u32,
    out: &mut Vec<Node>,
) -> Result<(), NoMemory>
    ensures { (structs : List Struct) (f : Routine) → Serves context.now structs f → points ≡ change_points way → OnOk result (nodes_of out.new.items ≡ nodes_of out.old.items ++ in_line (change_effects f (access_of place.now) way) here next) }
{
    let holder = context.names.temporary(0)?;
    match way {
        Change::Compute { .. } => compute(out, holder, points, here, next),
        Change::Step { .. } => {
            let value = context.names.temporary(add(width_of(place)?, 1)?)?;
            step_cell(out, &place.cell, value, holder, here, next)
        }
    }
}

/// The nodes of a struct copy.
fn copy(
    context: &Context,
    structure: u32,
    left: &Access,
    right: &Access,
    here: u32,
    next: u32,
    out: &mut Vec<Node>,
) -> Result<(), NoMemory>
    ensures { (structs : List Struct) (f : Routine) → Serves context.now structs f → OnOk result (nodes_of out.new.items ≡ nodes_of out.old.items ++ in_line (cell_effects f (width (access_of left.now) + width (access_of right.now)) (width (access_of left.now)) (cells_of_type structs (struct structure))) here next) }
{
    let from = width_of(left)?;
    let value = add(from, width_of(right)?)?;
    let holders = Holders {
        value: context.names.temporary(value)?,
        from: context.names.temporary(from)?,
        to: context.names.temporary(0)?,
    };
    let whole = Ty::Struct(structure);
    cells(out, context.layouts.cells_of(&whole), holders, here, next)
}

/// What an assignment to a local does.
fn assign(context: &Context, local: u32, ty: &Ty) -> Result<Effect, NoMemory>
    ensures { (structs : List Struct) (f : Routine) → Serves context.now structs f → IfOk result (λ effect. effect_of effect ≡ if_regional (ty_of ty.now) (moved (local_variable f local) (temporary_variable f 0))) }
{
    if is_regional(ty) {
        Ok(Effect::Moved(context.names.local(local)?, context.names.temporary(0)?))
    } else {
        Ok(Effect::Nothing)
    }
}

/// The variable that a return gives.
pub(crate) fn given(context: &Context, promised: &Option<Ty>) -> Result<Option<u32>, NoMemory>
    ensures { (structs : List Struct) (f : Routine) → Serves context.now structs f → IfOk result (λ variable. variable ≡ returned_variable f (option_map ty_of promised.now)) }
{
    match promised {
        None => Ok(None),
        Some(ty) => {
            if is_regional(ty) {
                Ok(Some(context.names.temporary(0)?))
            } else {
                Ok(None)
            }
        }
    }
}

/// The nodes of what is done with values, from a point on. They lead to the next one.
pub(crate) fn act(
    context: &Context,
    act: &Act,
    here: u32,
    next: u32,
    out: &mut Vec<Node>,
) -> Result<(), NoMemory>
    ensures { (structs : List Struct) (f : Routine) → Serves context.now structs f → OnOk result (nodes_of out.new.items ≡ nodes_of out.old.items ++ act_nodes f (act_of structs act.now) here next) }
{
    match act {
        Act::Drop => Ok(()),
        Act::Perform {
            function,
            parameters,
            ..
        } => {
            let arguments = context
                .names
                .arguments(context.alloc, parameters.as_slice(), 0)?;
            let called = Effect::Called {
                result: None,
                function: *function,
                arguments,
            };
            go(out, called, next)
        }
        Act::Assign { local, ty, .. } => go(out, assign(context, *local, ty)?, next),
        Act::Store { access, .. } => {
            let value = context.names.temporary(width_of(access)?)?;
            let holder = context.names.temporary(0)?;
            go(out, stored(&access.cell, value, holder), next)
        }
        Act::Update {
            access,
            change: way,
            ..
        } => { update(context, access, *way, change_points(*way), here, next, out) }
        Act::Move {
            structure,
            left,
            right,
            ..
        } => copy(context, *structure, left, right, here, next, out),
        Act::Delete { .. } => go(out, Effect::LookedAt(context.names.temporary(0)?), next),
        Act::Leave {
            result: promised,
            ..
        } => leave(out, given(context, promised)?),
    }
}
