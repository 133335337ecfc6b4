// The stores of a function to annotated cells, in the order of the text or of their points.
ghost use Rattle.std.specs.Prelude.{◌≡◌, ◌++◌, ◌+◌, ℕ, List, IfOk, OnOk, map, drop};
ghost use Rattle.rc_core.specs.Laid.{AreLaidOut, held_kind};
ghost use Rattle.rc_core.specs.Layout.{Layout};
ghost use Rattle.rc_core.specs.Programs.{Struct};
ghost use Rattle.rc_rlang.specs.Counted.{AreLayouts, Counted};
ghost use Rattle.rc_rlang.specs.Shapes.{act_of, code_of, codes_of, routine_in};
ghost use Rattle.rc_rlang.specs.RegionPoints.{code_points, codes_points};
ghost use Rattle.rc_rlang.specs.Sites.{act_sites, cells_sites, code_sites, codes_sites, store_sites};
ghost use Rattle.rc_rlang.specs.declared.order.Order.TheVariants.{Points};
ghost use Rattle.rc_reports.specs.Listed.{listed, sites_of};

use crate::site::Site;
use rc_base::NoMemory;
use rc_core::ty::{Note, Ty};
use rc_core::{Kind, Layouts};
use rc_graph::{cell_note, note_in};
use rc_rlang::code::{Act, Code, Routine};
use rc_rlang::order::Order;
use rc_rlang::{act_points, branch_points, change_points, steps_points};
use std::alloc::Global;

/// The sum.
///
/// # Errors
///
/// Out of memory, which is said where it is no `u32`.
fn sum(a: u32, b: u32) -> Result<u32, NoMemory>
    ensures { IfOk result (λ n. n ≡ a + b) }
{
    a.checked_add(b).ok_or(NoMemory)
}

/// The point behind so many, which are counted.
///
/// # Errors
///
/// Out of memory, which is said where a number is no `u32`.
fn past(here: u32, points: Option<u32>) -> Result<u32, NoMemory>
    ensures { (n : ℕ) → Counted points n → IfOk result (λ behind. behind ≡ here + n) }
{
    match points {
        Some(points) => sum(here, points),
        None => Err(NoMemory),
    }
}

/// Lists a store to a cell with this annotation, if it has one.
fn list(out: &mut Vec<Site>, note: Note, line: u32, point: u32) -> Result<(), NoMemory>
    ensures { OnOk result (sites_of out.new.items ≡ sites_of out.old.items ++ store_sites note line point) }
{
    match note {
        Note::Plain => Ok(()),
        Note::SameRegion => Ok(out.push(Site { point, line, note })?),
        Note::ParentPtr => Ok(out.push(Site { point, line, note })?),
        Note::Traditional => Ok(out.push(Site { point, line, note })?),
    }
}

/// Lists the stores of a struct copy, which loads and stores each cell.
fn list_cells(out: &mut Vec<Site>, kinds: &[Kind], line: u32, here: u32) -> Result<(), NoMemory>
    ensures { (layout : Layout) → kinds.now ≡ map held_kind layout → OnOk result (sites_of out.new.items ≡ sites_of out.old.items ++ cells_sites layout line here) }
{
    let mut at = here;
    for i in 0..kinds.len() {
        let kind = &kinds[i];
        let stored = sum(at, 1)?;
        list(out, cell_note(kind), line, stored)?;
        at = sum(stored, 1)?;
    }
    Ok(())
}

/// Lists the stores of an act. The store of an update is its last point.
fn list_act(layouts: &Layouts, act: &Act, here: u32, out: &mut Vec<Site>) -> Result<(), NoMemory>
    ensures { (structs : List Struct) → AreLaidOut structs layouts.now → OnOk result (sites_of out.new.items ≡ sites_of out.old.items ++ act_sites (act_of structs act.now) here) }
{
    match act {
        Act::Store { line, access } => list(out, note_in(&access.cell), *line, here),
        Act::Update {
            line,
            access,
            change,
            ..
        } => {
            let last = change_points(*change) - 1;
            list(out, note_in(&access.cell), *line, sum(here, last)?)
        }
        Act::Move {
            line,
            structure,
            ..
        } => {
            let structure = Ty::Struct(*structure);
            list_cells(out, layouts.cells_of(&structure), *line, here)
        }
        Act::Drop => Ok(()),
        Act::Perform { .. } => Ok(()),
        Act::Assign { .. } => Ok(()),
        Act::Delete { .. } => Ok(()),
        Act::Leave { .. } => Ok(()),
    }
}

/// Lists the stores of the code of a statement, whose first point is `here`. Gives the point behind it.
#[cycle(code)]
#[tactic(auto, using(rc_rlang::proofs::CodeRows::block_is))]
fn list_code(
    alloc: Global,
    layouts: &Layouts,
    order: Order,
    code: &Code,
    here: u32,
    out: &mut Vec<Site>,
) -> Result<u32, NoMemory>
    requires laid { AreLayouts layouts.now }
    ensures sites { (structs : List Struct) → AreLaidOut structs layouts.now → OnOk result (sites_of out.new.items ≡ sites_of out.old.items ++ code_sites order (code_of structs code.now) here) }
    ensures behind { (structs : List Struct) → AreLaidOut structs layouts.now → IfOk result (λ n. n ≡ here + code_points (code_of structs code.now)) }
{
    match code {
        Code::Simple { steps, act } => {
            let at_act = past(here, steps_points(steps.as_slice()))?;
            list_act(layouts, act, at_act, out)?;
            past(at_act, act_points(layouts, act))
        }
        Code::Block { body } => list_codes(alloc, layouts, order, body.as_slice(), here, out),
        Code::Branch { steps, yes, no, .. } => {
            let at_test = past(here, steps_points(steps.as_slice()))?;
            let at_yes = sum(1, at_test)?;
            let at_no = list_code(alloc, layouts, order, yes, at_yes, out)?;
            list_code(alloc, layouts, order, no, at_no, out)
        }
        Code::Loop {
            steps,
            test,
            third,
            body,
            ..
        } => {
            let at_test = past(sum(1, here)?, steps_points(steps.as_slice()))?;
            let at_body = sum(at_test, branch_points(test))?;
            match order {
                Order::Points => {
                    let at_third = list_code(alloc, layouts, order, body, at_body, out)?;
                    list_code(alloc, layouts, order, third, at_third, out)
                }
                Order::Text => {
                    // The third part comes first, though it is known only behind the body where it begins.
                    let mut inside = Vec::new(alloc);
                    let at_third = list_code(alloc, layouts, order, body, at_body, &mut inside)?;
                    let behind = list_code(alloc, layouts, order, third, at_third, out)?;
                    out.append(&mut inside)?;
                    Ok(behind)
                }
            }
        }
        Code::Repeat { body, steps, .. } => {
            let at_steps = list_code(alloc, layouts, order, body, sum(1, here)?, out)?;
            let at_test = past(at_steps, steps_points(steps.as_slice()))?;
            sum(at_test, 1)
        }
        Code::Clear { .. } => sum(here, 1),
        Code::Break { .. } => sum(here, 1),
        Code::Continue { .. } => sum(here, 1),
    }
}

/// Lists the stores of the code of statements, one after another. Gives the point behind it.
#[cycle(code)]
fn list_codes(
    alloc: Global,
    layouts: &Layouts,
    order: Order,
    body: &[Code],
    here: u32,
    out: &mut Vec<Site>,
) -> Result<u32, NoMemory>
    requires laid { AreLayouts layouts.now }
    ensures sites { (structs : List Struct) → AreLaidOut structs layouts.now → OnOk result (sites_of out.new.items ≡ sites_of out.old.items ++ codes_sites order (codes_of structs body.now) here) }
    ensures behind { (structs : List Struct) → AreLaidOut structs layouts.now → IfOk result (λ n. n ≡ here + codes_points (codes_of structs body.now)) }
{
    let mut at = here;
    for i in 0..body.len() {
        at = list_code(alloc, layouts, order, &body[i], at, out)?;
    }
    Ok(at)
}

/// The stores of a function to annotated cells, in the order in which they stand in the text.
///
/// # Errors
///
/// Out of memory.
pub fn sites(alloc: Global, layouts: &Layouts, routine: &Routine) -> Result<Vec<Site>, NoMemory>
    requires laid { AreLayouts layouts.now }
    ensures { (structs : List Struct) → AreLaidOut structs layouts.now → IfOk result (λ all. sites_of all.items ≡ listed (routine_in structs routine.now).body 1) }
{
    let mut all = Vec::new(alloc);
    list_code(alloc, layouts, Order::Text, &routine.body, 1, &mut all)?;
    Ok(all)
}

/// The stores of a function to annotated cells, in the order of their points.
///
/// # Errors
///
/// Out of memory.
pub fn sites_by_points(
    alloc: Global,
    layouts: &Layouts,
    routine: &Routine,
) -> Result<Vec<Site>, NoMemory>
    requires laid { AreLayouts layouts.now }
    ensures { (structs : List Struct) → AreLaidOut structs layouts.now → IfOk result (λ all. sites_of all.items ≡ code_sites Points (routine_in structs routine.now).body 1) }
{
    let mut all = Vec::new(alloc);
    list_code(alloc, layouts, Order::Points, &routine.body, 1, &mut all)?;
    Ok(all)
}
