// How many temporaries parts of region code have.
ghost use Rattle.std.specs.Prelude.{◌≡◌, ℕ, max, suc, List, IfOk, drop, length, option_map};
ghost use Rattle.rc_core.specs.Programs.{Struct};
ghost use Rattle.rc_core.specs.Shapes.{ty_of};
ghost use Rattle.rc_rlang.specs.RegionCode.{Routine as RegionRoutine, width};
ghost use Rattle.rc_rlang.specs.RegionVariables.{step_temporaries, steps_temporaries, act_temporaries, code_temporaries, codes_temporaries, routine_temporaries};
ghost use Rattle.rc_rlang.specs.Variables.{end_temporaries};
ghost use Rattle.rc_rlang.specs.Shapes.{access_of, act_of, code_of, codes_of, step_of, steps_of, routine_in};

use crate::sums::add;
use rc_base::NoMemory;
use rc_core::ty::Ty;
use rc_rlang::access::Access;
use rc_rlang::code::{Act, Code, Routine};
use rc_rlang::steps::Step;

/// How many temporaries a place has.
///
/// # Errors
///
/// Out of memory, which is said where a number is no `u32`.
pub fn width_of(place: &Access) -> Result<u32, NoMemory>
    ensures { IfOk result (λ n. n ≡ width (access_of place.now)) }
{
    let indices = u32::try_from(place.indices.len()).map_err(|_| NoMemory)?;
    match place.shift {
        None => add(1, indices),
        Some(_) => add(2, indices),
    }
}

fn larger(a: u32, b: u32) -> u32
    ensures { result ≡ max a b }
{
    if a < b { b } else { a }
}

/// The temporaries of a step.
#[cycle(steps)]
fn step(step: &Step) -> Result<u32, NoMemory>
    ensures { (structs : List Struct) → IfOk result (λ n. n ≡ step_temporaries (step_of structs step.now)) }
{
    match step {
        Step::Set { temporary, .. } => add(1, *temporary),
        Step::Fork {
            temporary,
            yes,
            no,
            ..
        } => {
            let own = add(1, *temporary)?;
            let left = steps(yes.as_slice())?;
            let right = steps(no.as_slice())?;
            Ok(larger(own, larger(left, right)))
        }
    }
}

/// The temporaries of steps.
#[cycle(steps)]
fn steps(steps: &[Step]) -> Result<u32, NoMemory>
    ensures { (structs : List Struct) → IfOk result (λ n. n ≡ steps_temporaries (steps_of structs steps.now)) }
{
    let mut most = 0u32;
    for i in (0..steps.len()).rev() {
        most = larger(step(&steps[i])?, most);
    }
    Ok(most)
}

/// The temporaries of an act, beside those of its operands.
fn act(act: &Act) -> Result<u32, NoMemory>
    ensures { (structs : List Struct) → IfOk result (λ n. n ≡ act_temporaries (act_of structs act.now)) }
{
    match act {
        Act::Drop => Ok(0),
        Act::Perform { .. } => Ok(1),
        Act::Assign { .. } => Ok(0),
        Act::Store { .. } => Ok(0),
        Act::Update { access, .. } => add(2, width_of(access)?),
        Act::Move { left, right, .. } => add(1, add(width_of(left)?, width_of(right)?)?),
        Act::Delete { .. } => Ok(0),
        Act::Leave { .. } => Ok(0),
    }
}

/// The temporaries of the code of a statement.
#[cycle(code)]
fn code(code: &Code) -> Result<u32, NoMemory>
    ensures { (structs : List Struct) → IfOk result (λ n. n ≡ code_temporaries (code_of structs code.now)) }
{
    match code {
        Code::Simple {
            steps: all,
            act: last,
        } => {
            let before = steps(all.as_slice())?;
            let own = act(last)?;
            Ok(larger(before, own))
        }
        Code::Clear { .. } => Ok(0),
        Code::Block { body } => codes(body.as_slice()),
        Code::Branch {
            steps: all,
            yes,
            no,
            ..
        } => {
            let before = steps(all.as_slice())?;
            let left = self::code(yes)?;
            let right = self::code(no)?;
            Ok(larger(before, larger(left, right)))
        }
        Code::Loop {
            steps: all,
            third,
            body,
            ..
        } => {
            let before = steps(all.as_slice())?;
            let inner = self::code(body)?;
            let after = self::code(third)?;
            Ok(larger(before, larger(inner, after)))
        }
        Code::Repeat {
            body,
            steps: all,
            ..
        } => {
            let inner = self::code(body)?;
            let after = steps(all.as_slice())?;
            Ok(larger(inner, after))
        }
        Code::Break { .. } => Ok(0),
        Code::Continue { .. } => Ok(0),
    }
}

/// The temporaries of the code of statements.
#[cycle(code)]
fn codes(body: &[Code]) -> Result<u32, NoMemory>
    ensures { (structs : List Struct) → IfOk result (λ n. n ≡ codes_temporaries (codes_of structs body.now)) }
{
    let mut most = 0u32;
    for i in (0..body.len()).rev() {
        most = larger(code(&body[i])?, most);
    }
    Ok(most)
}

/// The temporaries of a value behind a body.
fn at_end(promised: &Option<Ty>) -> u32
    ensures { result ≡ end_temporaries (option_map ty_of promised.now) }
{
    match promised {
        None => 0,
        Some(_) => 1,
    }
}

/// The temporaries of a function.
///
/// # Errors
///
/// Out of memory, which is said where a number is no `u32`.
pub fn temporaries(routine: &Routine) -> Result<u32, NoMemory>
    ensures { (structs : List Struct) → IfOk result (λ n. n ≡ routine_temporaries (routine_in structs routine.now)) }
{
    let body = code(&routine.body)?;
    Ok(larger(body, at_end(&routine.result)))
}
