// Statements that wait for a place or a value: what they store, delete and choose.

ghost use Rattle.std.specs.Prelude.{◌≡◌, List, IfOk, IfErr};
ghost use Rattle.rc_base.specs.declared.ends.RunFault.TheVariants.{Memory};
ghost use Rattle.rc_core.specs.Execution.{changed, held};
ghost use Rattle.rc_core.specs.Arithmetic.{converted};
ghost use Rattle.rc_core.specs.Heap.{Value as HeapValue, Number};
ghost use Rattle.rc_core.specs.Programs.{Program};
ghost use Rattle.rc_core.specs.Runs.{Go, bind, computed};
ghost use Rattle.rc_core.specs.Shapes.{stmt_of};
ghost use Rattle.rc_frames.specs.Codes.{frames_of, stage_of};
ghost use Rattle.rc_nodes.specs.Controls.{control_of};
ghost use Rattle.rc_nodes.specs.Coming.{Comes, with_turns};
ghost use Rattle.rc_frames.specs.Frames.{Frame as MachineFrame, ways};
ghost use Rattle.rc_memory.specs.KeptWorld.{KeptWorld, kept};
ghost use Rattle.rc_core.specs.Laid.{AreLaidOut};
ghost use Rattle.rc_memory.specs.Leaving.{Leaves};
ghost use Rattle.rc_frames.specs.Waiting.{waiting_of};
ghost use Rattle.rc_nodes.specs.Stepping.{aimed_step, copy_step, doing, given_step, going_next, place_step, source_step, stored_step, value_step};
ghost use Rattle.rc_values.specs.Values.{value_of};
ghost use Rattle.rc_values.specs.declared.stop.Stop.TheVariants.{Cut};

use crate::control::Control;
use crate::setting::Setting;
use crate::statements::{value_to_condition, wait_for_place, wait_for_value};
use rc_base::Trap;
use rc_core::stmt::{Change, Stmt};
use rc_core::ty::NumberType;
use rc_core::{calculate, converted, type_of};
use rc_frames::{Callers, Stage, Waiting, held_values};
use rc_memory::Heap;
use rc_values::{Stop, Target, Value, Values, is_true, number_in, trap};
use std::alloc::Global;

/// A statement that waits, how far it has come, and the value that it is given there.
#[derive(Drop)]
pub struct GivenStatement<'p> {
    pub statement: &'p Stmt,
    pub stage: Stage,
    pub value: Value,
}

/// Deletes a region, which neither live locals nor what waits in callers may name.
#[tactic(auto, using(crate::proofs::Results::stops_on))]
fn delete<'p>(
    alloc: Global,
    below: &Callers,
    heap: &mut Heap,
    frames: &Waiting,
    locals: &Values,
    line: u32,
    region: Value,
) -> Result<Control<'p>, Stop>
    ensures { (program : Program) (w : KeptWorld) → w.heap ≡ heap.old → w.waiting ≡ waiting_of below.now → Comes result (frames_of frames.now) locals.now heap.new w (bind (kept.delete line (held (ways (frames_of frames.now)).next locals.now) (value_of region) w) (going_next program (frames_of frames.now) locals.now)) }
{
    let held = held_values(alloc, frames, locals)?;
    let all = below.waiting_behind(held)?;
    heap.delete(alloc, line, region, &all)?;
    Ok(Control::Goes)
}

/// A statement has the value for which it waits.
fn value_to_waiting_statement<'p>(
    alloc: Global,
    below: &Callers,
    heap: &mut Heap,
    frames: &Waiting<'p>,
    locals: &mut Values,
    s: &'p Stmt,
    value: Value,
) -> Result<Control<'p>, Stop>
    ensures { (program : Program) (w : KeptWorld) → w.heap ≡ heap.old → w.waiting ≡ waiting_of below.now → Comes result (frames_of frames.now) locals.new heap.new w (value_step program (stmt_of s.now) (value_of value) (frames_of frames.now) locals.old w) }
{
    match s {
        Stmt::Declare { local, .. } => {
            locals.set(*local as usize, value);
            Ok(Control::Goes)
        }
        Stmt::Assign { local, .. } => {
            locals.set(*local as usize, value);
            Ok(Control::Goes)
        }
        Stmt::Delete { line, .. } => delete(alloc, below, heap, frames, locals, *line, value),
        Stmt::If { yes, no, .. } => {
            if is_true(value) {
                return Ok(Control::Execute(yes));
            }
            Ok(Control::Execute(no))
        }
        Stmt::Return { .. } => Ok(Control::Returns(value)),
        _ => Ok(Control::Goes),
    }
}

/// A number that was computed, converted to this type, or a trap.
fn computed_as(line: u32, to: NumberType, outcome: Result<i64, Trap>) -> Result<Value, Stop>
    ensures { (w : KeptWorld) → Leaves value_of result w.heap w (bind (computed line outcome w) (λ n w1. Go (Number (converted to n)) w1)) }
{
    match outcome {
        Ok(n) => Ok(Value::Number(converted(to, n))),
        Err(t) => Err(trap(t, line)),
    }
}

/// The new value of a place.
fn change(heap: &Heap, line: u32, change: Change, old: Value, value: Value) -> Result<Value, Stop>
    ensures { (program : Program) (w : KeptWorld) → w.heap ≡ heap.now → Leaves value_of result heap.now w (changed kept program line change (value_of old) (value_of value) w) }
{
    match change {
        Change::Compute {
            from,
            operator,
            signedness,
        } => {
            let left = converted(type_of(signedness), number_in(old));
            let exact = calculate(operator, signedness, left, number_in(value));
            computed_as(line, from, exact)
        }
        Change::Step { direction } => heap.step(line, old, direction, number_in(value)),
    }
}

/// Stores a value in a place.
#[tactic(auto, using(crate::proofs::Results::stops_on))]
fn store<'p>(heap: &mut Heap, line: u32, target: &Target, value: Value) -> Result<Control<'p>, Stop>
    ensures { (program : Program) (frames : List MachineFrame) (env : List HeapValue) (w : KeptWorld) → w.heap ≡ heap.old → Comes result frames env heap.new w (bind (kept.store line target.now (value_of value) w) (going_next program frames env)) }
{
    heap.store(line, target, &[value])?;
    Ok(Control::Goes)
}

/// Changes the value of a place, which was this one.
#[tactic(auto, using(crate::proofs::Results::stops_on))]
fn update_from<'p>(
    heap: &mut Heap,
    line: u32,
    by: Change,
    target: &Target,
    old: Value,
    value: Value,
) -> Result<Control<'p>, Stop>
    ensures { (program : Program) (frames : List MachineFrame) (env : List HeapValue) (w : KeptWorld) → w.heap ≡ heap.old → Comes result frames env heap.new w (bind (changed kept program line by (value_of old) (value_of value) w) (λ new w1. bind (kept.store line target.now new w1) (going_next program frames env))) }
{
    match change(heap, line, by, old, value) {
        Ok(new) => store(heap, line, target, new),
        Err(stop) => Err(stop),
    }
}

/// Changes the value of a place.
#[tactic(auto, using(crate::proofs::Results::stops_on))]
fn update<'p>(
    heap: &mut Heap,
    line: u32,
    by: Change,
    target: &Target,
    value: Value,
) -> Result<Control<'p>, Stop>
    ensures { (program : Program) (frames : List MachineFrame) (env : List HeapValue) (w : KeptWorld) → w.heap ≡ heap.old → Comes result frames env heap.new w (bind (kept.load line target.now w) (λ old w1. bind (changed kept program line by old (value_of value) w1) (λ new w2. bind (kept.store line target.now new w2) (going_next program frames env)))) }
{
    let old = heap.load(line, target)?;
    update_from(heap, line, by, target, old, value)
}

/// A statement has the value that it stores in a place.
fn value_to_storing_statement<'p>(
    heap: &mut Heap,
    s: &Stmt,
    target: &Target,
    value: Value,
) -> Result<Control<'p>, Stop>
    ensures { (program : Program) (frames : List MachineFrame) (env : List HeapValue) (w : KeptWorld) → w.heap ≡ heap.old → Comes result frames env heap.new w (stored_step program (stmt_of s.now) target.now (value_of value) frames env w) }
{
    match s {
        Stmt::Store { line, .. } => store(heap, *line, target, value),
        Stmt::Update { line, change, .. } => update(heap, *line, *change, target, value),
        _ => Ok(Control::Goes),
    }
}

/// What a statement waits for has a value.
pub fn value_to_statement<'p>(
    alloc: Global,
    below: &Callers,
    heap: &mut Heap,
    turns: &mut u64,
    frames: &mut Waiting<'p>,
    locals: &mut Values,
    given: &GivenStatement<'p>,
) -> Result<Control<'p>, Stop>
    ensures { (program : Program) (w : KeptWorld) → w.heap ≡ heap.old → w.waiting ≡ waiting_of below.now → Comes result (frames_of frames.new) locals.new heap.new (with_turns turns.new w) (given_step program (stmt_of given.now.statement.now) (stage_of (stmt_of given.now.statement.now) given.now.stage) (value_of given.now.value) (frames_of frames.old) locals.old (with_turns turns.old w)) }
{
    let s = given.statement;
    let value = given.value;
    match &given.stage {
        Stage::Value => value_to_waiting_statement(alloc, below, heap, frames, locals, s, value),
        Stage::Stored(target) => value_to_storing_statement(heap, s, target, value),
        Stage::Test(rounds) => value_to_condition(turns, frames, s, *rounds, value),
        _ => Ok(Control::Goes),
    }
}

/// Copies the cells of a struct.
#[tactic(auto, using(crate::proofs::Results::stops_on))]
fn copy<'p>(
    setting: &Setting,
    heap: &mut Heap,
    line: u32,
    structure: u32,
    to: &Target,
    from: Target,
) -> Result<Control<'p>, Stop>
    ensures { (program : Program) (frames : List MachineFrame) (env : List HeapValue) (w : KeptWorld) → AreLaidOut program.structs setting.now.layouts.now → w.heap ≡ heap.old → Comes result frames env heap.new w (copy_step program line structure to.now from frames env w) }
{
    let values = heap.load_all(
        setting.alloc,
        line,
        &from,
        setting.layouts.size_of(structure),
    )?;
    heap.store(line, to, values.as_slice())?;
    Ok(Control::Goes)
}

/// A statement has the place that it stores in, or the left one.
fn place_to_waiting_statement<'p>(
    alloc: Global,
    frames: &mut Waiting<'p>,
    s: &'p Stmt,
    target: Target,
) -> Result<Control<'p>, Stop>
    ensures places { IfOk result (λ c. (program : Program) (env : List HeapValue) → place_step program (stmt_of s.now) target (frames_of frames.old) env ≡ doing (control_of c) (frames_of frames.new) env) }
    ensures memory { IfErr result (λ stop. stop ≡ Cut Memory) }
{
    match s {
        Stmt::Store { value, .. } => wait_for_value(frames, s, Stage::Stored(target), value),
        Stmt::Update { value, .. } => wait_for_value(frames, s, Stage::Stored(target), value),
        Stmt::Copy { right, .. } => wait_for_place(alloc, frames, s, Stage::Source(target), right),
        _ => Ok(Control::Goes),
    }
}

/// A statement has the place that it copies to another.
fn place_to_copy<'p>(
    setting: &Setting,
    heap: &mut Heap,
    s: &Stmt,
    to: &Target,
    from: Target,
) -> Result<Control<'p>, Stop>
    ensures { (program : Program) (frames : List MachineFrame) (env : List HeapValue) (w : KeptWorld) → AreLaidOut program.structs setting.now.layouts.now → w.heap ≡ heap.old → Comes result frames env heap.new w (source_step program (stmt_of s.now) to.now from frames env w) }
{
    match s {
        Stmt::Copy {
            line,
            structure,
            ..
        } => copy(setting, heap, *line, *structure, to, from),
        _ => Ok(Control::Goes),
    }
}

/// What a statement waits for is this place.
pub fn place_to_statement<'p>(
    setting: &Setting,
    heap: &mut Heap,
    frames: &mut Waiting<'p>,
    s: &'p Stmt,
    stage: &Stage,
    target: Target,
) -> Result<Control<'p>, Stop>
    ensures { (program : Program) (env : List HeapValue) (w : KeptWorld) → AreLaidOut program.structs setting.now.layouts.now → w.heap ≡ heap.old → Comes result (frames_of frames.new) env heap.new w (aimed_step program (stmt_of s.now) (stage_of (stmt_of s.now) stage.now) target (frames_of frames.old) env w) }
{
    match stage {
        Stage::Place => place_to_waiting_statement(setting.alloc, frames, s, target),
        Stage::Source(to) => place_to_copy(setting, heap, s, to, target),
        _ => Ok(Control::Goes),
    }
}
