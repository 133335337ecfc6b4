// The stops of a function's instructions, and what is used from each on.
ghost use Rattle.std.specs.Prelude.{◌≡◌, ◌<◌, ◌≤◌, ◌++◌, ◌∷◌, [], ℕ, get_or, length, map, IfOk, OnOk};
ghost use Rattle.rc_code.specs.declared.image.Function.{Function as AnyFunction};
ghost use Rattle.rc_code.specs.declared.instruction.Instruction.TheVariants as instruction;
ghost use Rattle.rc_code.specs.Image.{FieldsFit};
ghost use Rattle.rc_code.specs.Running.{function_at, reading_of};
ghost use Rattle.rc_code.specs.Soundness.{instruction_at, local_in, Sound};
ghost use Rattle.rc_claims.specs.Counts.{regionals, trues};
ghost use Rattle.rc_sealed.specs.Carrying.{when};
ghost use Rattle.rc_pinning.specs.Numbers.{AreNumbers};
ghost use Rattle.rc_pinning.specs.Stops.{numbered, stop_in, HasStops, NamesLocals, TellsUsed};

use crate::numbers::numbers_of;
use rc_base::{BitSet, NoMemory};
use rc_code::{Function, Instruction, Jump, Parts, Simple, Storage};
use rc_image_counts::{function_of, instruction_of, is_regional};
use rc_stops::{Stop, used};
use std::alloc::Global;

/// What a local holds.
pub(crate) fn local_of(function: &Function, local: u32) -> Storage
    requires { local < length function.now.locals }
    ensures { result ≡ local_in function.now local }
{
    function.locals.as_slice()[local as usize]
}

/// The number of that place, 0 where there is none.
pub(crate) fn number_at(numbers: &[u32], at: u32) -> u32
    ensures { result ≡ get_or numbers.now at 0 }
{
    match numbers.get(at as usize) {
        Some(number) => *number,
        None => 0,
    }
}

/// The number, if so.
fn when(so: bool, number: u32) -> Option<u32>
    ensures { result ≡ when so number }
{
    if so { Some(number) } else { None }
}

/// The number of a local that is a region or a pointer.
fn numbered(function: &Function, numbers: &[u32], local: u32) -> Option<u32>
    requires there { local < length function.now.locals }
    requires numbers { AreNumbers function.now.locals numbers.now }
    ensures { result ≡ numbered function.now local }
{
    when(
        is_regional(local_of(function, local)),
        number_at(numbers, local),
    )
}

/// The stop of a jump.
fn of_jump(jump: Jump, to: u32) -> Stop
    ensures { (f : AnyFunction) → result ≡ stop_in f (instruction.Jump jump to) }
{
    let leads = Some(to as usize);
    match jump {
        Jump::Always => Stop {
            gets: None,
            sets: None,
            falls: false,
            leads,
        },
        Jump::IfZero => Stop {
            gets: None,
            sets: None,
            falls: true,
            leads,
        },
        Jump::Back => Stop {
            gets: None,
            sets: None,
            falls: false,
            leads,
        },
    }
}

/// The stop of an instruction that names nothing.
fn of_simple(simple: Simple) -> Stop
    ensures { (f : AnyFunction) → result ≡ stop_in f (instruction.Simple simple) }
{
    match simple {
        Simple::Return => Stop {
            gets: None,
            sets: None,
            falls: false,
            leads: None,
        },
        _ => Stop {
            gets: None,
            sets: None,
            falls: true,
            leads: None,
        },
    }
}

/// The stop of an instruction.
fn stop_of(function: &Function, numbers: &[u32], instruction: &Instruction) -> Stop
    requires names { NamesLocals function.now instruction.now }
    requires numbers { AreNumbers function.now.locals numbers.now }
    ensures { result ≡ stop_in function.now instruction.now }
{
    match instruction {
        Instruction::Get(local) => Stop {
            gets: numbered(function, numbers, *local),
            sets: None,
            falls: true,
            leads: None,
        },
        Instruction::Set(local) => Stop {
            gets: None,
            sets: numbered(function, numbers, *local),
            falls: true,
            leads: None,
        },
        Instruction::Jump(jump, to) => of_jump(*jump, *to),
        Instruction::Simple(simple) => of_simple(*simple),
        _ => Stop {
            gets: None,
            sets: None,
            falls: true,
            leads: None,
        },
    }
}

fn put(out: &mut Vec<Stop>, stop: Stop) -> Result<(), NoMemory>
    ensures { OnOk result (out.new.items ≡ out.old.items ++ stop ∷ []) }
{
    out.push(stop)?;
    Ok(())
}

/// The stops of a function.
fn stops_of(alloc: Global, function: &Function, numbers: &[u32]) -> Result<Vec<Stop>, NoMemory>
    requires names { (at : ℕ) → NamesLocals function.now (instruction_at function.now at) }
    requires numbers { AreNumbers function.now.locals numbers.now }
    ensures { IfOk result (λ stops. stops.items ≡ map (stop_in function.now) function.now.code) }
{
    let mut stops = Vec::new(alloc);
    for at in 0..function.code.as_slice().len() {
        let stop = stop_of(function, numbers, instruction_of(function, at));
        put(&mut stops, stop)?;
    }
    Ok(stops)
}

/// The rows of a function.
fn rows_of(alloc: Global, function: &Function) -> Result<Vec<BitSet>, NoMemory>
    requires { HasStops function.now }
    ensures { IfOk result (λ rows. TellsUsed function.now rows.items) }
{
    let numbers = numbers_of(alloc, function.locals.as_slice())?;
    let stops = stops_of(alloc, function, numbers.as_slice())?;
    let rows = used(alloc, stops.as_slice())?;
    Ok(rows)
}

/// For each instruction of a function a row that shows which of its locals that are regions or pointers
/// are used from it on, by their numbers among these.
///
/// # Errors
///
/// Out of memory.
pub fn used_in(alloc: Global, parts: &Parts, number: u32) -> Result<Vec<BitSet>, NoMemory>
    requires fields { FieldsFit parts.now }
    requires sound { Sound parts.now }
    requires there { number < length parts.now.functions }
    requires few { trues (regionals (function_at (reading_of parts.now) number)) (length (function_at (reading_of parts.now) number).locals) ≤ 128 }
    ensures { IfOk result (λ rows. TellsUsed (function_at (reading_of parts.now) number) rows.items) }
{
    rows_of(alloc, function_of(parts, number))
}
