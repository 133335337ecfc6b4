// Runs a program.

ghost use Rattle.std.specs.Prelude.{◌≡◌, ◌≤◌, IfOk, IfErr, IsTrue, Some, option_map, slice_get};
ghost use Rattle.rc_base.specs.declared.ends.RunFault.TheVariants.{Memory};
ghost use Rattle.rc_core.specs.Arithmetic.{as_int};
ghost use Rattle.rc_core.specs.Deletes.{DeletesInPlace};
ghost use Rattle.rc_core.specs.Evaluation.{number_in};
ghost use Rattle.rc_core.specs.Shapes.{function_of, program_of};
ghost use Rattle.rc_slow.specs.Beginning.{Begins, from_beginning};
ghost use Rattle.rc_slow.specs.Evaluates.{Evaluates};
ghost use Rattle.rc_slow.specs.Going.{Arrives, way_from};
ghost use Rattle.rc_core.specs.Laid.{AreLaidOut};
ghost use Rattle.rc_slow.specs.Performing.{LeavesOutside};
ghost use Rattle.rc_values.specs.Values.{value_of};
ghost use Rattle.rc_values.specs.declared.stop.Stop.TheVariants.{Cut};

use crate::machine::Machine;
use crate::run::run_to_end;
use rc_base::{End, Limits, RunFault, Sink, Source};
use rc_core::parts::{Function, Parts};
use rc_core::program::Program;
use rc_core::{Layouts, as_int};
use rc_frames::{Activation, Callers, Waiting, first_locals};
use rc_memory::Heap;
use rc_nodes::{Control, Setting};
use rc_values::{Stop, Value, Values, number_in};
use std::alloc::Global;

/// The function of that number, where there is one.
fn main_of(parts: &Parts) -> Option<&Function>
    ensures { option_map (λ f. function_of f.now) result ≡ slice_get (program_of parts.now).functions (program_of parts.now).main }
{
    parts.functions.as_slice().get(parts.main as usize)
}

/// The machine where `main` begins, after its turn.
fn begin_main<'p>(setting: &Setting<'p>, function: &'p Function) -> Result<Machine<'p>, Stop>
    requires laid { AreLaidOut (program_of setting.now.parts.now).structs setting.now.layouts.now }
    requires turn { 1 ≤ setting.now.limits.turns }
    ensures begins { IfOk result (Begins (program_of setting.now.parts.now) setting.now.limits (function_of function.now)) }
    ensures memory { IfErr result (λ stop. stop ≡ Cut Memory) }
{
    let alloc = setting.alloc;
    let locals = first_locals(function, Values::new(alloc))?;
    let heap = Heap::new(alloc, setting.layouts, setting.parts)?;
    Ok(Machine {
        now: Activation {
            function,
            frames: Waiting::new(alloc),
            locals,
            calls: setting.limits.turns,
            held: None,
        },
        below: Callers::new(alloc),
        heap,
        turns: setting.limits.turns - 1,
    })
}

/// Runs `main`, whose turn was taken.
fn run_function<'p, S: Source, O: Sink>(
    setting: &Setting<'p>,
    function: &'p Function,
    input: &mut S,
    out: &mut O,
) -> Result<Value, Stop>
    requires laid { AreLaidOut (program_of setting.now.parts.now).structs setting.now.layouts.now }
    requires turn { 1 ≤ setting.now.limits.turns }
    requires main { slice_get (program_of setting.now.parts.now).functions (program_of setting.now.parts.now).main ≡ Some (function_of function.now) }
    ensures arrives { Arrives (program_of setting.now.parts.now) setting.now.limits (way_from (from_beginning (program_of setting.now.parts.now) setting.now.limits) (S.state input.old) (S.state input.new) (O.state out.old) (O.state out.new)) result }
    ensures leaves { LeavesOutside (S.state input.old) (S.state input.new) (O.state out.old) (O.state out.new) result }
{
    let mut machine = begin_main(setting, function)?;
    run_to_end(
        setting,
        &mut machine,
        Control::Execute(&function.body),
        input,
        out,
    )
}

/// Runs `main`, which takes a turn as every call does.
fn run_main<'p, S: Source, O: Sink>(
    setting: &Setting<'p>,
    input: &mut S,
    out: &mut O,
) -> Result<Value, Stop>
    requires laid { AreLaidOut (program_of setting.now.parts.now).structs setting.now.layouts.now }
    ensures arrives { Arrives (program_of setting.now.parts.now) setting.now.limits (way_from (from_beginning (program_of setting.now.parts.now) setting.now.limits) (S.state input.old) (S.state input.new) (O.state out.old) (O.state out.new)) result }
    ensures leaves { LeavesOutside (S.state input.old) (S.state input.new) (O.state out.old) (O.state out.new) result }
{
    if setting.limits.turns == 0 {
        return Err(Stop::Ends(End::Spent));
    }
    match main_of(setting.parts) {
        None => Ok(Value::Null),
        Some(function) => run_function(setting, function, input, out),
    }
}

/// The exit value, where `main` gave this one.
fn exit_value(value: Value) -> i32
    ensures { result ≡ as_int (number_in (value_of value)) }
{
    as_int(number_in(value))
}

/// What is answered where a deleted region was touched. No run comes to that over an input that tells
/// its bytes; of any other input nothing is known.
fn unforeseen<S: Source>(input: &S) -> RunFault
    requires untold { ¬ IsTrue (S.state input.now).tells }
    ensures { result ≡ Memory }
{
    let _input = input;
    RunFault::Memory
}

/// Runs the program of a setting.
fn evaluate_setting<'p, S: Source, O: Sink>(
    setting: &Setting<'p>,
    input: &mut S,
    out: &mut O,
) -> Result<End, RunFault>
    requires laid { AreLaidOut (program_of setting.now.parts.now).structs setting.now.layouts.now }
    requires deleting { DeletesInPlace (program_of setting.now.parts.now) }
    ensures { Evaluates (program_of setting.now.parts.now) setting.now.limits (S.state input.old) (S.state input.new) (O.state out.old) (O.state out.new) result }
{
    match run_main(setting, input, out) {
        Ok(value) => Ok(End::Exit(exit_value(value))),
        Err(Stop::Ends(end)) => Ok(end),
        Err(Stop::Stale(_)) => Err(unforeseen(input)),
        Err(Stop::Cut(fault)) => Err(fault),
    }
}

/// Runs a program, and answers how the run ends. Its end and its acts are those that the program means
/// on the bytes of the input, where the input tells them; where a read or a write fails, or memory
/// is refused, a front of the acts was done. It makes no flush.
pub fn evaluate<S: Source, O: Sink>(
    alloc: Global,
    program: &Program,
    limits: &Limits,
    input: &mut S,
    out: &mut O,
) -> Result<End, RunFault>
    ensures { Evaluates (program_of program.now) limits.now (S.state input.old) (S.state input.new) (O.state out.old) (O.state out.new) result }
{
    let parts = program.parts();
    match Layouts::new(alloc, parts.structs.as_slice()) {
        Err(_) => Err(RunFault::Memory),
        Ok(layouts) => {
            let setting = Setting {
                alloc,
                parts,
                layouts: &layouts,
                limits: *limits,
            };
            evaluate_setting(&setting, input, out)
        }
    }
}
