// The machine: a step at a time, inside a call and between calls.

ghost use Rattle.std.specs.Prelude.{◌≡◌, ◌≤◌, ◌∷◌, List, ℕ, option_map, slice_get};
ghost use Rattle.rc_base.specs.declared.ends.Limits.{Limits as RunLimits};
ghost use Rattle.rc_core.specs.Execution.{held, zero_result};
ghost use Rattle.rc_core.specs.Programs.{Program, call};
ghost use Rattle.rc_core.specs.Runs.{Go, Run};
ghost use Rattle.rc_core.specs.Shapes.{arguments_of, expr_of, function_of, program_of, stmt_of};
ghost use Rattle.rc_slow.specs.Advancing.{Advances, Leads, LeadsTo, standing, state_at};
ghost use Rattle.rc_frames.specs.Codes.{frame_of, frames_of, stage_of};
ghost use Rattle.rc_nodes.specs.Controls.{control_of};
ghost use Rattle.rc_frames.specs.Frames.{Frame as MachineFrame};
ghost use Rattle.rc_memory.specs.KeptWorld.{KeptWorld};
ghost use Rattle.rc_core.specs.Laid.{AreLaidOut};
ghost use Rattle.rc_frames.specs.Waiting.{waiting_of};
ghost use Rattle.rc_nodes.specs.Stepping.{Control as MachineControl, doing, first_step, given_step};
ghost use Rattle.rc_values.specs.Values.{value_of};
ghost use Rattle.rc_slow.specs.declared.machine.Machine.{Machine as CodeMachine};
ghost use Rattle.rc_slow.specs.Whole.{Progress as MachineProgress, State, aim_step, argument_step, breaks_step, call_from, call_step, continues_step, control_step, entered, evaluate_step, give_step, goes_step, leave_step, returns_step, staying};

use rc_base::End;
use rc_core::byte_of;
use rc_core::expr::Expr;
use rc_core::parts::Function;
use rc_core::stmt::Stmt;
use rc_frames::{Activation, Callers, Frame, Stage, Waiting, first_locals, held_for};
use rc_memory::Heap;
use rc_nodes::{
    Control, GivenStatement, Setting, allocate, begin_expression, begin_statement,
    broke_to_statement, continued_to_statement, done_to_statement, first_value_to_inner_expression,
    index_to_path, index_to_place, load, make_region, make_subregion, place_to_statement,
    pointer_to_place, second_value_to_expression, step_inward, value_to_statement,
};
use rc_values::{Stop, Target, Value, Values, number_in, zero_of};
use std::alloc::Global;
use std::mem;

/// The call that runs, those that wait, the heap, and how many turns are left.
#[derive(Drop)]
pub(crate) struct Machine<'p> {
    pub(crate) now: Activation<'p>,
    pub(crate) below: Callers<'p>,
    pub(crate) heap: Heap<'p>,
    pub(crate) turns: u64,
}

/// What a step leads to.
#[derive(Drop)]
pub(crate) enum Progress<'p> {
    Onward(Control<'p>),
    /// `main` gave this value.
    Ended(Value),
    /// It asks for the next byte, and goes on with it, or with -1.
    Asks,
    /// It writes a byte, and goes on with it.
    Writes(u8),
}

/// A step inside a call leads on, where it leads anywhere.
fn proceed<'p>(control: Result<Control<'p>, Stop>) -> Result<Progress<'p>, Stop>
    ensures { (limits : RunLimits) (m : CodeMachine) (w : KeptWorld) (step : Run KeptWorld MachineProgress) → Leads limits control.entry m w step → Advances limits result m w step }
{
    match control {
        Ok(control) => Ok(Progress::Onward(control)),
        Err(stop) => Err(stop),
    }
}

/// Begins a call of a function, where a turn is left for it.
fn enter<'p>(
    alloc: Global,
    machine: &mut Machine<'p>,
    function: &'p Function,
    arguments: Values,
) -> Result<Control<'p>, Stop>
    requires calls { 1 ≤ machine.old.now.calls }
    requires turns { 1 ≤ machine.old.turns }
    ensures { (program : Program) (limits : RunLimits) (k : MachineControl) (w : KeptWorld) → Leads limits result machine.new w (call_from program machine.old.now.calls (Some (function_of function.now)) (waiting_of machine.old.below) (state_at k machine.old) arguments (entered program function.now.deletes (state_at k machine.old) (standing limits machine.old w))) }
{
    let now = &machine.now;
    let held = held_for(alloc, function, &now.frames, &now.locals)?;
    let next = Activation {
        function,
        frames: Waiting::new(alloc),
        locals: first_locals(function, arguments)?,
        calls: machine.now.calls - 1,
        held: None,
    };
    let mut caller = mem::replace(&mut machine.now, next);
    caller.held = held;
    machine.below.push(caller)?;
    machine.turns -= 1;
    Ok(Control::Execute(&function.body))
}

/// A function, where there is one of that number.
fn function_at(functions: &[Function], number: u32) -> Option<&Function>
    ensures { option_map (λ f. f.now) result ≡ slice_get functions.now number }
{
    functions.get(number as usize)
}

/// Calls a function, whose arguments have these values.
fn call<'p>(
    setting: &Setting<'p>,
    machine: &mut Machine<'p>,
    number: u32,
    arguments: Values,
) -> Result<Control<'p>, Stop>
    ensures { (k : MachineControl) (w : KeptWorld) → Leads setting.now.limits result machine.new w (call_step (program_of setting.now.parts.now) number (state_at k machine.old) arguments (standing setting.now.limits machine.old w)) }
{
    if machine.now.calls == 0 {
        return Err(Stop::Ends(End::Spent));
    }
    if machine.turns == 0 {
        return Err(Stop::Ends(End::Spent));
    }
    match function_at(setting.parts.functions.as_slice(), number) {
        None => {
            machine.turns -= 1;
            Ok(Control::Gives(Value::Null))
        }
        Some(function) => enter(setting.alloc, machine, function, arguments),
    }
}

/// A call, or its first argument; the call waits for that.
fn begin_call<'p>(
    setting: &Setting<'p>,
    machine: &mut Machine<'p>,
    number: u32,
    arguments: &'p [Expr],
) -> Result<Control<'p>, Stop>
    ensures { (k : MachineControl) (line : ℕ) (w : KeptWorld) → Leads setting.now.limits result machine.new w (evaluate_step (program_of setting.now.parts.now) (call line number (arguments_of arguments.now)) (state_at k machine.old) (standing setting.now.limits machine.old w)) }
{
    let values = Values::new(setting.alloc);
    let Some((first, rest)) = arguments.split_first() else {
        return call(setting, machine, number, values);
    };
    machine
        .now
        .frames
        .push(Frame::Argument(number, values, rest))?;
    Ok(Control::Evaluate(first))
}

/// An argument of a call has a value.
fn pass_argument<'p>(
    setting: &Setting<'p>,
    machine: &mut Machine<'p>,
    number: u32,
    values: Values,
    rest: &'p [Expr],
    value: Value,
) -> Result<Control<'p>, Stop>
    ensures { (k : MachineControl) (w : KeptWorld) → Leads setting.now.limits result machine.new w (argument_step (program_of setting.now.parts.now) number values (arguments_of rest.now) (state_at k machine.old) (value_of value) (frames_of machine.old.now.frames) (standing setting.now.limits machine.old w)) }
{
    let mut values = values;
    values.push(value)?;
    let Some((next, rest)) = rest.split_first() else {
        return call(setting, machine, number, values);
    };
    machine
        .now
        .frames
        .push(Frame::Argument(number, values, rest))?;
    Ok(Control::Evaluate(next))
}

/// The call that runs has a value.
fn leave_call<'p>(machine: &mut Machine<'p>, value: Value) -> Progress<'p>
    ensures { (program : Program) (limits : RunLimits) (k : MachineControl) (w : KeptWorld) → LeadsTo limits result machine.new w (leave_step program (value_of value) (state_at k machine.old).below (standing limits machine.old w)) }
{
    match machine.below.pop() {
        None => Progress::Ended(value),
        Some(caller) => {
            machine.now = caller;
            Progress::Onward(Control::Gives(value))
        }
    }
}

/// Zero or null, as the type of the result says.
fn zero_result(function: &Function) -> Value
    ensures { value_of result ≡ zero_result (function_of function.now).result }
{
    match &function.result {
        None => Value::Null,
        Some(ty) => zero_of(ty),
    }
}

/// The call that runs comes to its end without a value.
fn leave_without_value<'p>(machine: &mut Machine<'p>) -> Progress<'p>
    ensures { (program : Program) (limits : RunLimits) (k : MachineControl) (w : KeptWorld) → LeadsTo limits result machine.new w (leave_step program (zero_result (state_at k machine.old).now.function.result) (state_at k machine.old).below (standing limits machine.old w)) }
{
    let value = zero_result(machine.now.function);
    leave_call(machine, value)
}

/// An expression, or its first part.
fn begin_evaluation<'p>(
    setting: &Setting<'p>,
    machine: &mut Machine<'p>,
    e: &'p Expr,
) -> Result<Progress<'p>, Stop>
    ensures { (k : MachineControl) (w : KeptWorld) → AreLaidOut (program_of setting.now.parts.now).structs setting.now.layouts.now → Advances setting.now.limits result machine.new w (evaluate_step (program_of setting.now.parts.now) (expr_of e.now) (state_at k machine.old) (standing setting.now.limits machine.old w)) }
{
    match e {
        Expr::Call {
            function,
            arguments,
            ..
        } => proceed(begin_call(setting, machine, *function, arguments)),
        Expr::NewRegion { line } => proceed(make_region(setting, &mut machine.heap, *line)),
        Expr::Getchar { .. } => Ok(Progress::Asks),
        _ => {
            let now = &mut machine.now;
            proceed(begin_expression(setting, &mut now.frames, &now.locals, e))
        }
    }
}

/// The first part of an expression has a value.
fn first_value_to_expression<'p>(
    setting: &Setting<'p>,
    machine: &mut Machine<'p>,
    e: &'p Expr,
    value: Value,
) -> Result<Progress<'p>, Stop>
    ensures { (k : MachineControl) (w : KeptWorld) → AreLaidOut (program_of setting.now.parts.now).structs setting.now.layouts.now → Advances setting.now.limits result machine.new w (staying (program_of setting.now.parts.now) (state_at k machine.old) (first_step (program_of setting.now.parts.now) (expr_of e.now) (value_of value) (frames_of machine.old.now.frames) machine.old.now.locals (standing setting.now.limits machine.old w))) }
{
    match e {
        Expr::NewSubregion { line, .. } => proceed(make_subregion(
            setting,
            &mut machine.heap,
            *line,
            value,
        )),
        Expr::Allocate { line, element, .. } => proceed(allocate(
            setting,
            &mut machine.heap,
            *line,
            value,
            1,
            element,
        )),
        Expr::Putchar { .. } => Ok(Progress::Writes(byte_of(number_in(value)))),
        _ => proceed(first_value_to_inner_expression(&mut machine.now.frames, e, value)),
    }
}

/// What the frame waits for has this value.
fn value_to_frame<'p>(
    setting: &Setting<'p>,
    machine: &mut Machine<'p>,
    frame: Frame<'p>,
    value: Value,
) -> Result<Progress<'p>, Stop>
    ensures { (k : MachineControl) (w : KeptWorld) → AreLaidOut (program_of setting.now.parts.now).structs setting.now.layouts.now → Advances setting.now.limits result machine.new w (give_step (program_of setting.now.parts.now) (frame_of frame.entry ∷ frames_of machine.old.now.frames) (value_of value) (state_at k machine.old) (standing setting.now.limits machine.old w)) }
{
    match frame {
        Frame::First(e) => first_value_to_expression(setting, machine, e, value),
        Frame::Second(e, first) => proceed(second_value_to_expression(
            setting,
            &mut machine.heap,
            e,
            first,
            value,
        )),
        Frame::Argument(number, values, rest) => {
            proceed(pass_argument(setting, machine, number, values, rest, value))
        }
        Frame::Pointer(place) => {
            proceed(pointer_to_place(setting.alloc, &mut machine.now.frames, place, value))
        }
        Frame::Index(place, pointer) => {
            Ok(Progress::Onward(index_to_place(setting.alloc, place, pointer, value)))
        }
        Frame::Element(target, count, stride, path) => {
            proceed(index_to_path(target, value, count, stride, path))
        }
        Frame::Load(_) => Ok(Progress::Onward(Control::Gives(value))),
        Frame::Inside(s, stage) => proceed(value_to_inside_frame(
            setting, machine, s, stage, value,
        )),
    }
}

/// What a statement waits for has this value.
fn value_to_inside_frame<'p>(
    setting: &Setting<'p>,
    machine: &mut Machine<'p>,
    s: &'p Stmt,
    stage: Stage,
    value: Value,
) -> Result<Control<'p>, Stop>
    ensures { (k : MachineControl) (w : KeptWorld) → Leads setting.now.limits result machine.new w (staying (program_of setting.now.parts.now) (state_at k machine.old) (given_step (program_of setting.now.parts.now) (stmt_of s.now) (stage_of (stmt_of s.now) stage) (value_of value) (frames_of machine.old.now.frames) machine.old.now.locals (standing setting.now.limits machine.old w))) }
{
    let given = GivenStatement {
        statement: s,
        stage,
        value,
    };
    let now = &mut machine.now;
    value_to_statement(
        setting.alloc,
        &machine.below,
        &mut machine.heap,
        &mut machine.turns,
        &mut now.frames,
        &mut now.locals,
        &given,
    )
}

/// A value comes out.
fn value_to_call<'p>(
    setting: &Setting<'p>,
    machine: &mut Machine<'p>,
    value: Value,
) -> Result<Progress<'p>, Stop>
    ensures { (k : MachineControl) (w : KeptWorld) → AreLaidOut (program_of setting.now.parts.now).structs setting.now.layouts.now → Advances setting.now.limits result machine.new w (give_step (program_of setting.now.parts.now) (frames_of machine.old.now.frames) (value_of value) (state_at k machine.old) (standing setting.now.limits machine.old w)) }
{
    match machine.now.frames.pop() {
        None => Ok(leave_call(machine, value)),
        Some(frame) => value_to_frame(setting, machine, frame, value),
    }
}

/// What the frame waits for is this place.
fn place_to_frame<'p>(
    setting: &Setting<'p>,
    machine: &mut Machine<'p>,
    frame: &Frame<'p>,
    target: Target,
) -> Result<Control<'p>, Stop>
    ensures { (k : MachineControl) (w : KeptWorld) → AreLaidOut (program_of setting.now.parts.now).structs setting.now.layouts.now → Leads setting.now.limits result machine.new w (aim_step (program_of setting.now.parts.now) (frame_of frame.now ∷ frames_of machine.old.now.frames) target (state_at k machine.old) (standing setting.now.limits machine.old w)) }
{
    match frame {
        Frame::Load(line) => load(&machine.heap, *line, target),
        Frame::Inside(s, stage) => place_to_statement(
            setting,
            &mut machine.heap,
            &mut machine.now.frames,
            s,
            stage,
            target,
        ),
        _ => Ok(Control::Aims(target)),
    }
}

/// A place comes out.
fn place_to_call<'p>(
    setting: &Setting<'p>,
    machine: &mut Machine<'p>,
    target: Target,
) -> Result<Progress<'p>, Stop>
    ensures { (k : MachineControl) (w : KeptWorld) → AreLaidOut (program_of setting.now.parts.now).structs setting.now.layouts.now → Advances setting.now.limits result machine.new w (aim_step (program_of setting.now.parts.now) (frames_of machine.old.now.frames) target (state_at k machine.old) (standing setting.now.limits machine.old w)) }
{
    match machine.now.frames.pop() {
        None => Ok(leave_without_value(machine)),
        Some(frame) => proceed(place_to_frame(setting, machine, &frame, target)),
    }
}

/// A statement in what the frame waits for went on.
fn done_to_frame<'p>(machine: &mut Machine<'p>, frame: &Frame<'p>) -> Result<Control<'p>, Stop>
    ensures { (program : Program) (limits : RunLimits) (k : MachineControl) (w : KeptWorld) → Leads limits result machine.new w (goes_step program (frame_of frame.now ∷ frames_of machine.old.now.frames) (state_at k machine.old) (standing limits machine.old w)) }
{
    match frame {
        Frame::Inside(s, stage) => done_to_statement(
            &mut machine.turns,
            &mut machine.now.frames,
            s,
            stage,
        ),
        _ => Ok(Control::Goes),
    }
}

/// A statement went on.
fn done_to_call<'p>(machine: &mut Machine<'p>) -> Result<Progress<'p>, Stop>
    ensures { (program : Program) (limits : RunLimits) (k : MachineControl) (w : KeptWorld) → Advances limits result machine.new w (goes_step program (frames_of machine.old.now.frames) (state_at k machine.old) (standing limits machine.old w)) }
{
    match machine.now.frames.pop() {
        None => Ok(leave_without_value(machine)),
        Some(frame) => proceed(done_to_frame(machine, &frame)),
    }
}

/// A statement in what the frame waits for broke.
fn broke_to_frame<'p>(frame: &Frame<'p>) -> Control<'p>
    ensures { (program : Program) (s : State) (frames : List MachineFrame) (w : KeptWorld) → breaks_step program (frame_of frame.now ∷ frames) s w ≡ staying program s (Go (doing (control_of result) frames s.now.locals) w) }
{
    match frame {
        Frame::Inside(s, stage) => broke_to_statement(s, stage),
        _ => Control::Breaks,
    }
}

/// A statement broke.
fn broke_to_call<'p>(machine: &mut Machine<'p>) -> Progress<'p>
    ensures { (program : Program) (limits : RunLimits) (k : MachineControl) (w : KeptWorld) → LeadsTo limits result machine.new w (breaks_step program (frames_of machine.old.now.frames) (state_at k machine.old) (standing limits machine.old w)) }
{
    match machine.now.frames.pop() {
        None => leave_without_value(machine),
        Some(frame) => Progress::Onward(broke_to_frame(&frame)),
    }
}

/// A statement in what the frame waits for continued.
fn continued_to_frame<'p>(machine: &mut Machine<'p>, frame: &Frame<'p>) -> Result<Control<'p>, Stop>
    ensures { (program : Program) (limits : RunLimits) (k : MachineControl) (w : KeptWorld) → Leads limits result machine.new w (continues_step program (frame_of frame.now ∷ frames_of machine.old.now.frames) (state_at k machine.old) (standing limits machine.old w)) }
{
    match frame {
        Frame::Inside(s, stage) => {
            continued_to_statement(&mut machine.turns, &mut machine.now.frames, s, stage)
        }
        _ => Ok(Control::Continues),
    }
}

/// A statement continued.
fn continued_to_call<'p>(machine: &mut Machine<'p>) -> Result<Progress<'p>, Stop>
    ensures { (program : Program) (limits : RunLimits) (k : MachineControl) (w : KeptWorld) → Advances limits result machine.new w (continues_step program (frames_of machine.old.now.frames) (state_at k machine.old) (standing limits machine.old w)) }
{
    match machine.now.frames.pop() {
        None => Ok(leave_without_value(machine)),
        Some(frame) => proceed(continued_to_frame(machine, &frame)),
    }
}

/// A statement returned a value: what waits in the call waits for nothing any more.
fn returned_to_call<'p>(machine: &mut Machine<'p>, value: Value) -> Progress<'p>
    ensures { (program : Program) (limits : RunLimits) (k : MachineControl) (w : KeptWorld) → LeadsTo limits result machine.new w (returns_step program (frames_of machine.old.now.frames) (value_of value) (state_at k machine.old) (standing limits machine.old w)) }
{
    match machine.now.frames.pop() {
        None => leave_call(machine, value),
        Some(_frame) => Progress::Onward(Control::Returns(value)),
    }
}

/// One step.
pub(crate) fn step<'p>(
    setting: &Setting<'p>,
    machine: &mut Machine<'p>,
    control: Control<'p>,
) -> Result<Progress<'p>, Stop>
    ensures { (k : MachineControl) (w : KeptWorld) → AreLaidOut (program_of setting.now.parts.now).structs setting.now.layouts.now → Advances setting.now.limits result machine.new w (control_step (program_of setting.now.parts.now) (control_of control.entry) (state_at k machine.old) (standing setting.now.limits machine.old w)) }
{
    match control {
        Control::Evaluate(e) => begin_evaluation(setting, machine, e),
        Control::Execute(s) => {
            let turns = machine.turns;
            let now = &mut machine.now;
            let function = now.function;
            proceed(begin_statement(
                setting.alloc,
                function,
                &mut now.frames,
                &mut now.locals,
                turns,
                s,
            ))
        }
        Control::GoAlong(target, path) => proceed(step_inward(
            setting.layouts,
            &mut machine.now.frames,
            target,
            path,
        )),
        Control::Gives(value) => value_to_call(setting, machine, value),
        Control::Aims(target) => place_to_call(setting, machine, target),
        Control::Goes => done_to_call(machine),
        Control::Breaks => Ok(broke_to_call(machine)),
        Control::Continues => continued_to_call(machine),
        Control::Returns(value) => Ok(returned_to_call(machine, value)),
    }
}
