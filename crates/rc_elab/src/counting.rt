// Whether a program keeps within what it may need.
ghost use Rattle.std.specs.Prelude.{◌≡◌, ◌<◌, ◌≤◌, ◌+◌, ℕ, List, length, map, sum, slice_get, Some, IfOk, MatchOption, option_map};
ghost use Rattle.rc_core.specs.Laid.{AreLaidOut};
ghost use Rattle.rc_core.specs.Programs.{Struct};
ghost use Rattle.rc_core.specs.declared.parts.Function.{Function};
ghost use Rattle.rc_core.specs.Shapes.{ty_of, function_of, program_of};
ghost use Rattle.rc_rlang.specs.Points.{end_points, function_points};
ghost use Rattle.rc_rlang.specs.Bounds.{AllNarrow, FirstWide};
ghost use Rattle.rc_elab.specs.Counting.{Counts};

use crate::budget::spend;
use crate::fault::ElabFault;
use crate::statements::statement;
use crate::variables::is_narrow;
use rc_core::Layouts;
use rc_core::parts::Function;
use rc_core::program::Program;
use rc_core::ty::Ty;
use std::alloc::{AllocError, Global};

fn behind_body(given: &Option<Ty>) -> u32
    ensures { result ≡ end_points (option_map ty_of given.now) }
{
    match given {
        None => 1,
        Some(_) => 2,
    }
}

fn function_points_left(f: &Function, layouts: &Layouts, left: u32) -> Option<u32>
    ensures { (structs : List Struct) → AreLaidOut structs layouts.now → MatchOption result (left < function_points structs (function_of f.now)) (λ r. r + function_points structs (function_of f.now) ≡ left) }
{
    let behind_entry = spend(left, 1)?;
    let behind_statements = statement(&f.body, layouts, behind_entry)?;
    spend(behind_statements, behind_body(&f.result))
}

/// The points of all functions, taken from those that a program may have.
#[tactic(auto, using(crate::proofs::Functions::points_step, crate::proofs::Functions::points_end))]
fn points_left(functions: &[Function], layouts: &Layouts) -> Option<u32>
    ensures { (structs : List Struct) → AreLaidOut structs layouts.now → MatchOption result (65536 < sum (map (function_points structs) (map function_of functions.now))) (λ r. r + sum (map (function_points structs) (map function_of functions.now)) ≡ 65536) }
{
    let mut left = rc_base::MOST_POINTS;
    for f in functions {
        left = function_points_left(f, layouts, left)?;
    }
    Some(left)
}

/// The line of the first function that has too many region variables.
#[tactic(auto, using(crate::proofs::Functions::narrow_step, crate::proofs::Functions::narrow_end, crate::proofs::Functions::wide_here))]
fn first_wide(functions: &[Function]) -> Option<u32>
    requires { (k : ℕ) (f : Function) → slice_get functions.now k ≡ Some f → f.parameters ≤ length f.locals.items }
    ensures { MatchOption result (AllNarrow (map function_of functions.now)) (λ line. FirstWide (map function_of functions.now) line) }
{
    for f in functions {
        if !is_narrow(f) {
            return Some(f.line);
        }
    }
    None
}

/// Whether the translation of the program keeps within its bounds, by the layouts of its structs: each
/// function within 128 region variables, and else the line of the first that doesn't; and then all within
/// 65,536 points.
#[tactic(auto, using(crate::proofs::Functions::parameters_fit))]
pub(crate) fn count_laid(program: &Program, layouts: &Layouts) -> Result<(), ElabFault>
    requires { AreLaidOut (program_of program.now).structs layouts.now }
    ensures { Counts (program_of program.now) result }
{
    let parts = program.parts();
    if let Some(line) = first_wide(parts.functions.as_slice()) {
        return Err(ElabFault::Variables(line));
    }
    match points_left(parts.functions.as_slice(), layouts) {
        None => Err(ElabFault::Points),
        Some(_) => Ok(()),
    }
}

/// The layouts of the structs of a program.
pub(crate) fn layouts_of(alloc: Global, program: &Program) -> Result<Layouts, AllocError>
    ensures { IfOk result (λ layouts. AreLaidOut (program_of program.now).structs layouts) }
{
    Layouts::new(alloc, program.parts().structs.as_slice())
}

/// Whether the translation of the program keeps within its bounds: each function within 128 region
/// variables, and else the line of the first that doesn't; and then all within 65,536 points.
///
/// # Errors
///
/// That line; more than 65,536 points; out of memory.
pub fn count(alloc: Global, program: &Program) -> Result<(), ElabFault>
    ensures { Counts (program_of program.now) result }
{
    let layouts = layouts_of(alloc, program)?;
    count_laid(program, &layouts)
}
