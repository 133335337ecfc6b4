// A whole run: one step after another, and what is done outside after each.

ghost use Rattle.std.specs.Prelude.{IfOk};
ghost use Rattle.rc_core.specs.Shapes.{program_of};
ghost use Rattle.rc_nodes.specs.Controls.{control_of};
ghost use Rattle.rc_slow.specs.Falling.{Lessens, TakesTurn};
ghost use Rattle.rc_slow.specs.Going.{Arrives, Comes, GoesOn};
ghost use Rattle.rc_core.specs.Laid.{AreLaidOut};
ghost use Rattle.rc_slow.specs.Performing.{LeavesOutside};

use crate::machine::{Machine, step};
use crate::outside::{Next, perform};
use rc_base::{Sink, Source};
use rc_nodes::{Control, Setting};
use rc_values::{Stop, Value};

/// One step, and what is done outside after it.
fn advance<'p, S: Source, O: Sink>(
    setting: &Setting<'p>,
    machine: &mut Machine<'p>,
    control: Control<'p>,
    input: &mut S,
    out: &mut O,
) -> Result<Next<'p>, Stop>
    requires laid { AreLaidOut (program_of setting.now.parts.now).structs setting.now.layouts.now }
    ensures comes { GoesOn (program_of setting.now.parts.now) setting.now.limits (S.state input.old) (S.state input.new) (O.state out.old) (O.state out.new) (control_of control.entry) machine.old (λ way. Comes (program_of setting.now.parts.now) setting.now.limits way result machine.new) }
    ensures lessens { IfOk result (λ next. Lessens (control_of control.entry) machine.old next machine.new) }
    ensures leaves { LeavesOutside (S.state input.old) (S.state input.new) (O.state out.old) (O.state out.new) result }
{
    match step(setting, machine, control) {
        Ok(progress) => perform(progress, input, out),
        Err(stop) => Err(stop),
    }
}

/// Makes steps until one of them takes a turn.
fn run_to_turn<'p, S: Source, O: Sink>(
    setting: &Setting<'p>,
    machine: &mut Machine<'p>,
    first: Control<'p>,
    input: &mut S,
    out: &mut O,
) -> Result<Next<'p>, Stop>
    requires laid { AreLaidOut (program_of setting.now.parts.now).structs setting.now.layouts.now }
    ensures comes { GoesOn (program_of setting.now.parts.now) setting.now.limits (S.state input.old) (S.state input.new) (O.state out.old) (O.state out.new) (control_of first.entry) machine.old (λ way. Comes (program_of setting.now.parts.now) setting.now.limits way result machine.new) }
    ensures turn { IfOk result (λ next. TakesTurn machine.old next machine.new) }
    ensures leaves { LeavesOutside (S.state input.old) (S.state input.new) (O.state out.old) (O.state out.new) result }
{
    let turns = machine.turns;
    let mut control = first;
    'steps: loop {
        match advance(setting, machine, control, input, out) {
            Ok(Next::Onward(next)) => {
                if machine.turns < turns {
                    return Ok(Next::Onward(next));
                }
                control = next;
            }
            Ok(Next::Ended(value)) => return Ok(Next::Ended(value)),
            Err(stop) => return Err(stop),
        }
    }
}

/// Runs from a state on: to the value of `main`, or to where it stops.
pub(crate) fn run_to_end<'p, S: Source, O: Sink>(
    setting: &Setting<'p>,
    machine: &mut Machine<'p>,
    first: Control<'p>,
    input: &mut S,
    out: &mut O,
) -> Result<Value, Stop>
    requires laid { AreLaidOut (program_of setting.now.parts.now).structs setting.now.layouts.now }
    ensures arrives { GoesOn (program_of setting.now.parts.now) setting.now.limits (S.state input.old) (S.state input.new) (O.state out.old) (O.state out.new) (control_of first.entry) machine.old (λ way. Arrives (program_of setting.now.parts.now) setting.now.limits way result) }
    ensures leaves { LeavesOutside (S.state input.old) (S.state input.new) (O.state out.old) (O.state out.new) result }
{
    let mut control = first;
    'turns: loop {
        match run_to_turn(setting, machine, control, input, out) {
            Ok(Next::Onward(next)) => control = next,
            Ok(Next::Ended(value)) => return Ok(value),
            Err(stop) => return Err(stop),
        }
    }
}
