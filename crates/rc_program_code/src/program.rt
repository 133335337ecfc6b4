// The stack code of functions and of programs.
ghost use Rattle.std.specs.Prelude.{◌≡◌, ◌+◌, suc, IfOk};
ghost use Rattle.rc_core.specs.Laid.{AreLaidOut};
ghost use Rattle.rc_rlang.specs.LiveLists.{live_lists};
ghost use Rattle.rc_rlang.specs.RegionFits.{CodeFits};
ghost use Rattle.rc_rlang.specs.RegionPoints.{code_points};
ghost use Rattle.rc_rlang.specs.Shapes.{rlang_of};
ghost use Rattle.rc_lines.specs.ProgramCode.{IsFunctionCode, IsProgramCode};
ghost use Rattle.rc_program_code.specs.Listing.{structs_of, routine_of, HeldBefore};

use crate::bodies::body_code;
use crate::points::code_points;
use crate::table::{kept_by, local_types};
use rc_base::NoMemory;
use rc_core::Layouts;
use rc_lines::{Body, FunctionCode};
use rc_liveness::lists_are_maps;
use rc_rlang::code::{RegionParts, Routine};
use rc_rlang::live_map::LiveMap;
use rc_rlang::points_behind;
use rc_rlang::rlang::Rlang;
use std::alloc::Global;

/// What the code of functions is made over.
#[derive(Clone, Copy)]
struct Program<'a, 'k> {
    alloc: Global,
    parts: &'a RegionParts,
    layouts: &'k Layouts,
    live: &'a LiveMap,
}

/// The sum of two numbers of points.
fn sum(a: u32, b: u32) -> Result<u32, NoMemory>
    ensures { IfOk result (λ r. r ≡ a + b) }
{
    Ok(a.checked_add(b).ok_or(NoMemory)?)
}

/// The point behind the body of a function whose entry has this point.
fn behind_body(program: &Program<'_, '_>, routine: &Routine, entry: u32) -> Result<u32, NoMemory>
    requires { AreLaidOut (structs_of program.now.parts.now) program.now.layouts.now }
    ensures { IfOk result (λ n. n ≡ suc entry + code_points (routine_of program.now.parts.now routine.now).body) }
{
    let points = code_points(program.layouts, &routine.body)?;
    sum(sum(entry, 1)?, points)
}

/// The code of a function behind whose body stands this point.
fn function_code<'a>(
    program: &Program<'a, '_>,
    routine: &'a Routine,
    behind: u32,
) -> Result<FunctionCode<'a>, NoMemory>
    requires laid { AreLaidOut (structs_of program.now.parts.now) program.now.layouts.now }
    requires fits { CodeFits (routine_of program.now.parts.now routine.now).body }
    requires held { HeldBefore program.now.parts.now program.now.live.now routine.now behind }
    ensures { IfOk result (λ code. IsFunctionCode (rlang_of program.now.parts.now) (routine_of program.now.parts.now routine.now) code) }
{
    let table = kept_by(program.alloc, &routine.body)?;
    let first = u32::try_from(routine.locals.len()).map_err(|_| NoMemory)?;
    let body = Body {
        alloc: program.alloc,
        parts: program.parts,
        layouts: program.layouts,
        routine,
        live: program.live,
        kept: &table.keys,
        first,
    };
    let lines = body_code(&body, behind)?;
    let locals = local_types(
        program.alloc,
        routine.locals.as_slice(),
        table.operands.as_slice(),
    )?;
    Ok(FunctionCode { locals, lines })
}

/// The stack code of each function of a program, whose live locals are listed in this map. It takes time
/// linear in the code, but for what is looked up in tables and in the map.
///
/// # Errors
///
/// Out of memory, which is also said where a function has more instructions or locals than a `u32`
/// counts.
pub fn program_code<'a>(
    alloc: Global,
    code: &'a Rlang,
    live: &'a LiveMap,
) -> Result<Vec<FunctionCode<'a>>, NoMemory>
    requires { live.now ≡ live_lists (rlang_of code.now) }
    ensures { IfOk result (λ made. IsProgramCode (rlang_of code.now) made.items) }
{
    lists_are_maps();
    let parts = code.parts();
    let program = Program {
        alloc,
        parts,
        layouts: code.layouts(),
        live,
    };
    let mut made = Vec::new(alloc);
    let mut entry = 0;
    for routine in parts.functions.as_slice() {
        let behind = behind_body(&program, routine, entry)?;
        made.push(function_code(&program, routine, behind)?)?;
        entry = sum(behind, points_behind(&routine.result))?;
    }
    Ok(made)
}
