// What a run does outside: `getchar` and `putchar`.

ghost use Rattle.std.specs.Prelude.{◌≡◌, ◌∷◌, [], OnOk, OnErr, IfOk, IfErr, IsTrue};
ghost use Rattle.rc_base.specs.Acts.{Gave, Getchar, output};
ghost use Rattle.rc_base.specs.Sinks.{Took};
ghost use Rattle.rc_base.specs.declared.ends.Limits.{Limits as RunLimits};
ghost use Rattle.rc_base.specs.declared.ends.RunFault.TheVariants.{ReadFault, WriteFault};
ghost use Rattle.rc_core.specs.Runs.{Go, Run};
ghost use Rattle.rc_slow.specs.Advancing.{LeadsTo};
ghost use Rattle.rc_memory.specs.KeptWorld.{KeptWorld, kept};
ghost use Rattle.rc_slow.specs.Outside.{HasStopCause, later};
ghost use Rattle.rc_slow.specs.Performing.{Follows, LeavesOutside, Performs, acts_of};
ghost use Rattle.rc_slow.specs.declared.machine.Machine.{Machine as CodeMachine};
ghost use Rattle.rc_slow.specs.declared.machine.Progress.TheVariants.{Asks, Writes};
ghost use Rattle.rc_values.specs.declared.stop.Stop.TheVariants.{Cut};
ghost use Rattle.rc_slow.specs.Whole.{Progress as MachineProgress};

use crate::machine::Progress;
use rc_base::{RunFault, Sink, Source};
use rc_nodes::Control;
use rc_values::{Stop, Value};

/// The value of `getchar`: the next byte, or -1 where there is no more.
#[tactic(auto, using(crate::proofs::Asked::asked_none, crate::proofs::Asked::asked_some))]
pub(crate) fn ask<S: Source>(input: &mut S) -> Result<i64, Stop>
    ensures asks { (w : KeptWorld) → IsTrue (S.state input.old).tells → w.input ≡ (S.state input.old).rest → IfOk result (λ n. kept.get_byte w ≡ Go n (later (Getchar ∷ []) w)) }
    ensures gave { OnOk result (Gave (Getchar ∷ []) (S.state input.old) (S.state input.new)) }
    ensures same { OnErr result (Gave [] (S.state input.old) (S.state input.new)) }
    ensures tells { (S.state input.new).tells ≡ (S.state input.old).tells }
    ensures fault { IfErr result (λ stop. stop ≡ Cut ReadFault) }
    ensures cause { HasStopCause (S.state input.old).faults (S.state input.new).faults result }
{
    match input.next() {
        Ok(None) => Ok(-1),
        Ok(Some(byte)) => Ok(byte as i64),
        Err(_) => Err(Stop::Cut(RunFault::ReadFault)),
    }
}

/// Writes a byte.
pub(crate) fn write<O: Sink>(out: &mut O, byte: u8) -> Result<(), Stop>
    ensures took { OnOk result (Took (byte ∷ []) (O.state out.old) (O.state out.new)) }
    ensures same { OnErr result (Took [] (O.state out.old) (O.state out.new)) }
    ensures tells { (O.state out.new).tells ≡ (O.state out.old).tells }
    ensures flushed { IsTrue (O.state out.old).tells → (O.state out.new).flushed ≡ (O.state out.old).flushed }
    ensures fault { IfErr result (λ stop. stop ≡ Cut WriteFault) }
    ensures cause { HasStopCause (O.state out.old).faults (O.state out.new).faults result }
{
    match out.put(byte) {
        Ok(()) => Ok(()),
        Err(_) => Err(Stop::Cut(RunFault::WriteFault)),
    }
}

/// Where a run stands after a step, and after what was done outside.
#[derive(Drop)]
pub(crate) enum Next<'p> {
    Onward(Control<'p>),
    /// `main` gave this value.
    Ended(Value),
}

/// Asks for the next byte, and goes on with it.
fn ask_on<'p, S: Source>(input: &mut S) -> Result<Next<'p>, Stop>
    ensures asks { (limits : RunLimits) (m : CodeMachine) (w : KeptWorld) (step : Run KeptWorld MachineProgress) → IsTrue (S.state input.old).tells → w.input ≡ (S.state input.old).rest → LeadsTo limits Asks m w step → Performs limits Asks result m w step }
    ensures follows { IfOk result (Follows Asks) }
    ensures gave { OnOk result (Gave (Getchar ∷ []) (S.state input.old) (S.state input.new)) }
    ensures same { OnErr result (Gave [] (S.state input.old) (S.state input.new)) }
    ensures tells { (S.state input.new).tells ≡ (S.state input.old).tells }
    ensures fault { IfErr result (λ stop. stop ≡ Cut ReadFault) }
    ensures cause { HasStopCause (S.state input.old).faults (S.state input.new).faults result }
{
    match ask(input) {
        Ok(n) => Ok(Next::Onward(Control::Gives(Value::Number(n)))),
        Err(stop) => Err(stop),
    }
}

/// Writes a byte, and goes on with it.
fn write_on<'p, O: Sink>(out: &mut O, byte: u8) -> Result<Next<'p>, Stop>
    ensures writes { (limits : RunLimits) (m : CodeMachine) (w : KeptWorld) (step : Run KeptWorld MachineProgress) → LeadsTo limits (Writes byte) m w step → Performs limits (Writes byte) result m w step }
    ensures follows { IfOk result (Follows (Writes byte)) }
    ensures took { OnOk result (Took (byte ∷ []) (O.state out.old) (O.state out.new)) }
    ensures same { OnErr result (Took [] (O.state out.old) (O.state out.new)) }
    ensures tells { (O.state out.new).tells ≡ (O.state out.old).tells }
    ensures flushed { IsTrue (O.state out.old).tells → (O.state out.new).flushed ≡ (O.state out.old).flushed }
    ensures fault { IfErr result (λ stop. stop ≡ Cut WriteFault) }
    ensures cause { HasStopCause (O.state out.old).faults (O.state out.new).faults result }
{
    match write(out, byte) {
        Ok(()) => Ok(Next::Onward(Control::Gives(Value::Number(byte as i64)))),
        Err(stop) => Err(stop),
    }
}

/// Does outside what a step asks for.
pub(crate) fn perform<'p, S: Source, O: Sink>(
    progress: Progress<'p>,
    input: &mut S,
    out: &mut O,
) -> Result<Next<'p>, Stop>
    ensures leads { (limits : RunLimits) (m : CodeMachine) (w : KeptWorld) (step : Run KeptWorld MachineProgress) → IsTrue (S.state input.old).tells → w.input ≡ (S.state input.old).rest → LeadsTo limits progress.entry m w step → Performs limits progress.entry result m w step }
    ensures follows { IfOk result (Follows progress.entry) }
    ensures took { OnOk result (Took (output (acts_of progress.entry)) (O.state out.old) (O.state out.new)) }
    ensures gave { OnOk result (Gave (acts_of progress.entry) (S.state input.old) (S.state input.new)) }
    ensures none_took { OnErr result (Took [] (O.state out.old) (O.state out.new)) }
    ensures none_gave { OnErr result (Gave [] (S.state input.old) (S.state input.new)) }
    ensures leaves { LeavesOutside (S.state input.old) (S.state input.new) (O.state out.old) (O.state out.new) result }
{
    match progress {
        Progress::Onward(control) => Ok(Next::Onward(control)),
        Progress::Ended(value) => Ok(Next::Ended(value)),
        Progress::Asks => ask_on(input),
        Progress::Writes(byte) => write_on(out, byte),
    }
}
