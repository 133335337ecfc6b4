// What is done with the values of expressions.
ghost use Rattle.std.specs.Prelude.{◌≡◌, ◌≤◌, ◌<◌, ◌+◌, ◌++◌, ◌∷◌, [], length, map, take, drop, OnOk};
ghost use Rattle.rc_core.specs.Laid.{AreLaidOut};
ghost use Rattle.rc_core.specs.Layout.{Layout};
ghost use Rattle.rc_core.specs.Shapes.{ty_of};
ghost use Rattle.rc_emission.specs.OperationCode.{at};
ghost use Rattle.rc_emission.specs.StackCode.{get};
ghost use Rattle.rc_emission.specs.StatementCode.{gets, change_code, cells_code, pops, act_lines};
ghost use Rattle.rc_rlang.specs.LiveLists.{act_lists};
ghost use Rattle.rc_rlang.specs.RegionCode as From;
ghost use Rattle.rc_rlang.specs.RegionFits.{ActFits, place_types};
ghost use Rattle.rc_rlang.specs.Shapes.{access_of};
ghost use Rattle.rc_lines.specs.Bare.{bare_all, bare_code, lines_of};
ghost use Rattle.rc_lines.specs.Operands.{type_of, types_on};
ghost use Rattle.rc_lines.specs.Over.{deleting_in, types_in, slot_in, structs_in, act_in, Listed, ActListed};

use crate::body::Body;
use crate::instruction::{Instruction, Line, Reach};
use crate::lines::{add, push};
use crate::operands::{Operand, keep, width};
use crate::operations::{binary, convert, signed_of};
use rc_base::NoMemory;
use rc_core::stmt::Change;
use rc_core::ty::Ty;
use rc_core::type_of;
use rc_rlang::access::Access;
use rc_rlang::code::Act;

/// The operands are let go.
fn let_go(
    out: &mut Vec<Line<'_>>,
    body: &Body<'_, '_>,
    line: u32,
    operands: &[Operand<'_>],
) -> Result<(), NoMemory>
    ensures { OnOk result (lines_of out.new.items ≡ lines_of out.old.items ++ bare_code 0 (pops (slot_in body.now) (deleting_in body.now) (types_in body.now) line (types_on operands.now))) }
{
    for _ in operands {
        push(out, line, Instruction::Pop)?;
    }
    Ok(())
}

/// The operands come from their locals again, which keep what they have. The first of them has the
/// height `from`.
fn fetch<'a>(
    out: &mut Vec<Line<'a>>,
    body: &Body<'a, '_>,
    line: u32,
    from: usize,
    operands: &[Operand<'a>],
) -> Result<(), NoMemory>
    ensures { OnOk result (lines_of out.new.items ≡ lines_of out.old.items ++ at line (bare_all (gets (slot_in body.now) (deleting_in body.now) (types_in body.now) from (map type_of operands.now)))) }
{
    let mut height = from;
    for operand in operands {
        let local = body.slot(height, operand.ty)?;
        push(out, line, Instruction::Get(local))?;
        height = height.checked_add(1).ok_or(NoMemory)?;
    }
    Ok(())
}

/// What an update does with the old value, whose other operand is in a local.
#[derive(Clone, Copy)]
struct Changed<'a> {
    change: Change,
    cell: &'a Ty,
    operand: &'a Ty,
    local: u32,
}

fn change<'a>(
    out: &mut Vec<Line<'a>>,
    body: &Body<'a, '_>,
    line: u32,
    changed: Changed<'a>,
) -> Result<(), NoMemory>
    ensures { OnOk result (lines_of out.new.items ≡ lines_of out.old.items ++ at line (bare_all (change_code (slot_in body.now) (deleting_in body.now) (types_in body.now) changed.entry.change (ty_of changed.entry.cell.now) (ty_of changed.entry.operand.now) (get changed.entry.local)))) }
{
    match changed.change {
        Change::Compute {
            from,
            operator,
            signedness,
        } => {
            convert(out, line, from, type_of(signedness))?;
            push(out, line, Instruction::Get(changed.local))?;
            binary(out, line, operator, signedness, changed.operand)?;
            convert(out, line, type_of(signedness), from)
        }
        Change::Step { direction } => add(
            out,
            line,
            &[
                Instruction::Get(changed.local),
                Instruction::Move(changed.cell, signed_of(changed.operand), direction),
            ],
        ),
    }
}

/// The old value is read, changed and written again; the place's operands and the other one stay in
/// locals.
fn update<'a>(
    out: &mut Vec<Line<'a>>,
    body: &Body<'a, '_>,
    line: u32,
    place: &'a Access,
    way: Change,
    operand: &'a Ty,
    operands: &[Operand<'a>],
) -> Result<(), NoMemory>
    requires fits { ActFits (From.update line (access_of place.now) way (ty_of operand.now)) (types_on operands.now) }
    ensures { (last : _) (live : _) → OnOk result (lines_of out.new.items ≡ lines_of out.old.items ++ bare_code 0 (act_lines (slot_in body.now) (deleting_in body.now) (types_in body.now) last (From.update line (access_of place.now) way (ty_of operand.now)) (types_on operands.now) live)) }
{
    let count = width(place);
    if operands.len() < count {
        return Err(NoMemory);
    }
    keep(out, body, line, 0, operands)?;
    fetch(out, body, line, 0, &operands[..count])?;
    fetch(out, body, line, 0, &operands[..count])?;
    let cell = Reach {
        access: place,
        further: 0,
    };
    push(out, line, Instruction::Load(cell))?;
    let local = body.slot(count, operand)?;
    change(
        out,
        body,
        line,
        Changed {
            change: way,
            cell: &place.cell,
            operand,
            local,
        },
    )?;
    push(out, line, Instruction::Store(cell))
}

/// The places of a copy, with the operands of each.
#[derive(Clone, Copy)]
struct Places<'a, 'o> {
    left: &'a Access,
    right: &'a Access,
    left_operands: &'o [Operand<'a>],
    right_operands: &'o [Operand<'a>],
}

/// So many cells, one after another, from the places in their locals.
fn copy_cells<'a>(
    out: &mut Vec<Line<'a>>,
    body: &Body<'a, '_>,
    line: u32,
    places: Places<'a, '_>,
    count: u32,
) -> Result<(), NoMemory>
    ensures { (kinds : Layout) → length kinds ≡ count → map type_of places.entry.left_operands.now ≡ place_types (access_of places.entry.left.now) → map type_of places.entry.right_operands.now ≡ place_types (access_of places.entry.right.now) → OnOk result (lines_of out.new.items ≡ lines_of out.old.items ++ at line (bare_all (cells_code (slot_in body.now) (deleting_in body.now) (types_in body.now) kinds (access_of places.entry.left.now) (access_of places.entry.right.now)))) }
{
    let second = width(places.left);
    for further in 0..count {
        fetch(out, body, line, 0, places.left_operands)?;
        fetch(out, body, line, second, places.right_operands)?;
        let from = Reach {
            access: places.right,
            further,
        };
        let to = Reach {
            access: places.left,
            further,
        };
        push(out, line, Instruction::Load(from))?;
        push(out, line, Instruction::Store(to))?;
    }
    Ok(())
}

/// What is done with the operands that stand, which are those of an act that has the point. The last step
/// that made them has the line `last`.
pub fn act_on<'a>(
    out: &mut Vec<Line<'a>>,
    body: &Body<'a, '_>,
    act: &'a Act,
    operands: &[Operand<'a>],
    last: u32,
    point: u32,
) -> Result<(), NoMemory>
    requires laid { AreLaidOut (structs_in body.now) body.now.layouts.now }
    requires fits { ActFits (act_in body.now act.now) (types_on operands.now) }
    requires listed { ActListed body.now act.now point }
    ensures { (live : _) → Listed body.now.live.now (act_lists (deleting_in body.now) (types_in body.now) (act_in body.now act.now) point live) → OnOk result (lines_of out.new.items ≡ lines_of out.old.items ++ bare_code 0 (act_lines (slot_in body.now) (deleting_in body.now) (types_in body.now) last (act_in body.now act.now) (types_on operands.now) live)) }
{
    match act {
        Act::Drop => let_go(out, body, last, operands),
        Act::Perform { line, function, .. } => push(
            out,
            *line,
            Instruction::Call(*function, body.pins(*function, point)),
        ),
        Act::Assign { line, local, .. } => push(out, *line, Instruction::Set(*local)),
        Act::Store { line, access } => push(
            out,
            *line,
            Instruction::Store(Reach { access, further: 0 }),
        ),
        Act::Update {
            line,
            access,
            change,
            operand,
        } => update(out, body, *line, access, *change, operand, operands),
        Act::Move {
            line,
            structure,
            left,
            right,
        } => {
            let count = u32::try_from(body.layouts.size_of(*structure)).map_err(|_| NoMemory)?;
            let second = width(left);
            if operands.len() < second {
                return Err(NoMemory);
            }
            keep(out, body, *line, 0, operands)?;
            let (left_operands, right_operands) = operands.split_at(second);
            let places = Places {
                left,
                right,
                left_operands,
                right_operands,
            };
            copy_cells(out, body, *line, places, count)
        }
        Act::Delete { line } => push(out, *line, Instruction::Delete(body.live.after(point))),
        Act::Leave { line, .. } => push(out, *line, Instruction::Leave),
    }
}
