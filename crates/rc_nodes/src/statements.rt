// Statements: one begins by what it evaluates or executes first, and goes on as its parts come out.

ghost use Rattle.std.specs.Prelude.{◌≡◌, ◌∷◌, ℕ, List, IfOk, IfErr, option_map, slice_get};
ghost use Rattle.rc_base.specs.declared.ends.RunFault.TheVariants.{Memory};
ghost use Rattle.rc_core.specs.Execution.{local_type};
ghost use Rattle.rc_core.specs.Heap.{Value as HeapValue, zero_of};
ghost use Rattle.rc_core.specs.Programs.{Program, Function as CleanFunction, declare, return};
ghost use Rattle.rc_core.specs.Shapes.{expr_of, function_of, place_of, stmt_of};
ghost use Rattle.rc_frames.specs.Codes.{frames_of, rest_behind, stage_of};
ghost use Rattle.rc_nodes.specs.Controls.{control_of};
ghost use Rattle.rc_nodes.specs.Coming.{Comes, Turned, with_turns};
ghost use Rattle.rc_frames.specs.Frames.{Frame as MachineFrame, inside};
ghost use Rattle.rc_memory.specs.KeptWorld.{KeptWorld};
ghost use Rattle.rc_nodes.specs.Stepping.{Doing, body_step, break_step, broken, continue_step, doing, evaluating, execute, executing, go_step, head_step, headed_step, start, test_step, third_step, turning_to, within_step};
ghost use Rattle.rc_values.specs.Values.{value_of};
ghost use Rattle.rc_values.specs.declared.stop.Stop.TheVariants.{Cut};

use crate::control::Control;
use crate::places::begin_place;
use rc_base::End;
use rc_core::expr::{Expr, Place};
use rc_core::parts::Function;
use rc_core::stmt::Stmt;
use rc_frames::{Frame, Stage, Waiting};
use rc_values::{Stop, Value, Values, is_true, zero_of};
use std::alloc::Global;

/// The statement waits for the value of an expression.
pub(crate) fn wait_for_value<'p>(
    frames: &mut Waiting<'p>,
    s: &'p Stmt,
    stage: Stage,
    e: &'p Expr,
) -> Result<Control<'p>, Stop>
    ensures waits { IfOk result (λ c. (control_of c ≡ evaluating (expr_of e.now)) × (frames_of frames.new ≡ inside (stmt_of s.now) (stage_of (stmt_of s.now) stage) ∷ frames_of frames.old)) }
    ensures memory { IfErr result (λ stop. stop ≡ Cut Memory) }
{
    frames.push(Frame::Inside(s, stage))?;
    Ok(Control::Evaluate(e))
}

/// The statement waits for one in it.
fn wait_for_part<'p>(
    frames: &mut Waiting<'p>,
    s: &'p Stmt,
    stage: Stage,
    part: &'p Stmt,
) -> Result<Control<'p>, Stop>
    ensures waits { IfOk result (λ c. (control_of c ≡ executing (stmt_of part.now)) × (frames_of frames.new ≡ inside (stmt_of s.now) (stage_of (stmt_of s.now) stage) ∷ frames_of frames.old)) }
    ensures memory { IfErr result (λ stop. stop ≡ Cut Memory) }
{
    frames.push(Frame::Inside(s, stage))?;
    Ok(Control::Execute(part))
}

/// The statement waits for a place.
pub(crate) fn wait_for_place<'p>(
    alloc: Global,
    frames: &mut Waiting<'p>,
    s: &'p Stmt,
    stage: Stage,
    place: &'p Place,
) -> Result<Control<'p>, Stop>
    ensures waits { IfOk result (λ c. (program : Program) (env : List HeapValue) → doing (control_of c) (frames_of frames.new) env ≡ start program (place_of place.now) (inside (stmt_of s.now) (stage_of (stmt_of s.now) stage) ∷ frames_of frames.old) env) }
    ensures memory { IfErr result (λ stop. stop ≡ Cut Memory) }
{
    frames.push(Frame::Inside(s, stage))?;
    begin_place(alloc, frames, place)
}

/// Zero or null, as a local's type says.
fn zero_of_local(function: &Function, local: u32) -> Value
    ensures { value_of result ≡ zero_of (local_type (function_of function.now) local) }
{
    match function.locals.get(local as usize) {
        None => Value::Number(0),
        Some(ty) => zero_of(ty),
    }
}

/// Executes a declaration.
fn begin_declaration<'p>(
    function: &Function,
    frames: &mut Waiting<'p>,
    locals: &mut Values,
    s: &'p Stmt,
    local: u32,
    value: &'p Option<Expr>,
) -> Result<Control<'p>, Stop>
    ensures executes { IfOk result (λ c. (program : Program) (line : ℕ) (w : KeptWorld) → stmt_of s.now ≡ declare line local (option_map expr_of value.now) → execute program (function_of function.now) (declare line local (option_map expr_of value.now)) (frames_of frames.old) locals.old w ≡ doing (control_of c) (frames_of frames.new) locals.new) }
    ensures memory { IfErr result (λ stop. stop ≡ Cut Memory) }
{
    match value {
        None => {
            locals.set(local as usize, zero_of_local(function, local));
            Ok(Control::Goes)
        }
        Some(e) => wait_for_value(frames, s, Stage::Value, e),
    }
}

/// Executes a return.
fn begin_return<'p>(
    frames: &mut Waiting<'p>,
    s: &'p Stmt,
    value: &'p Option<Expr>,
) -> Result<Control<'p>, Stop>
    ensures executes { IfOk result (λ c. (program : Program) (f : CleanFunction) (line : ℕ) (env : List HeapValue) (w : KeptWorld) → stmt_of s.now ≡ return line (option_map expr_of value.now) → execute program f (return line (option_map expr_of value.now)) (frames_of frames.old) env w ≡ doing (control_of c) (frames_of frames.new) env) }
    ensures memory { IfErr result (λ stop. stop ≡ Cut Memory) }
{
    match value {
        None => Ok(Control::Returns(Value::Null)),
        Some(e) => wait_for_value(frames, s, Stage::Value, e),
    }
}

/// The statement of a block after the first `begun`, where it has one.
fn part_at(body: &[Stmt], begun: u64) -> Option<&Stmt>
    ensures { option_map (λ s. s.now) result ≡ slice_get body.now begun }
{
    body.get(begun as usize)
}

/// The statement of a block after the first `begun`, or the block is done.
fn next_in_block<'p>(frames: &mut Waiting<'p>, s: &'p Stmt, begun: u64) -> Result<Control<'p>, Stop>
    ensures goes { IfOk result (λ c. (program : Program) (env : List HeapValue) → within_step program (stmt_of s.now) (rest_behind begun (stmt_of s.now)) (frames_of frames.old) env ≡ doing (control_of c) (frames_of frames.new) env) }
    ensures memory { IfErr result (λ stop. stop ≡ Cut Memory) }
{
    match s {
        Stmt::Block { body } => match part_at(body, begun) {
            None => Ok(Control::Goes),
            Some(part) => wait_for_part(frames, s, Stage::Within(begun + 1), part),
        },
        _ => Ok(Control::Goes),
    }
}

/// A statement, or the first of its parts; the statement waits for that.
pub fn begin_statement<'p>(
    alloc: Global,
    function: &Function,
    frames: &mut Waiting<'p>,
    locals: &mut Values,
    turns: u64,
    s: &'p Stmt,
) -> Result<Control<'p>, Stop>
    ensures executes { IfOk result (λ c. (program : Program) (w : KeptWorld) → execute program (function_of function.now) (stmt_of s.now) (frames_of frames.old) locals.old (with_turns turns w) ≡ doing (control_of c) (frames_of frames.new) locals.new) }
    ensures memory { IfErr result (λ stop. stop ≡ Cut Memory) }
{
    match s {
        Stmt::Block { .. } => next_in_block(frames, s, 0),
        Stmt::Declare { local, value, .. } => begin_declaration(
            function, frames, locals, s, *local, value,
        ),
        Stmt::Assign { value, .. } => wait_for_value(frames, s, Stage::Value, value),
        Stmt::Store { place, .. } => wait_for_place(alloc, frames, s, Stage::Place, place),
        Stmt::Update { place, .. } => wait_for_place(alloc, frames, s, Stage::Place, place),
        Stmt::Copy { left, .. } => wait_for_place(alloc, frames, s, Stage::Place, left),
        Stmt::Evaluate { value, .. } => wait_for_value(frames, s, Stage::Value, value),
        Stmt::Delete { region, .. } => wait_for_value(frames, s, Stage::Value, region),
        Stmt::If { test, .. } => wait_for_value(frames, s, Stage::Value, test),
        Stmt::While { test, .. } => wait_for_value(frames, s, Stage::Test(turns), test),
        Stmt::Do { body, .. } => wait_for_part(frames, s, Stage::Body(turns), body),
        Stmt::For { first, .. } => wait_for_part(frames, s, Stage::First, first),
        Stmt::Break { .. } => Ok(Control::Breaks),
        Stmt::Continue { .. } => Ok(Control::Continues),
        Stmt::Return { value, .. } => begin_return(frames, s, value),
    }
}

/// Takes a turn for one more round. Where no turn is left, or no more round may begin, the run is spent.
fn take_turn(turns: &mut u64, rounds: u64) -> Result<u64, Stop>
    ensures { (program : Program) (next : ℕ → Doing) (w : KeptWorld) → Turned result next (with_turns turns.new w) (turning_to program rounds next (with_turns turns.old w)) }
{
    if *turns == 0 {
        return Err(Stop::Ends(End::Spent));
    }
    *turns -= 1;
    if rounds == 0 {
        return Err(Stop::Ends(End::Spent));
    }
    Ok(rounds - 1)
}

/// The condition of a loop has this value.
pub(crate) fn value_to_condition<'p>(
    turns: &mut u64,
    frames: &mut Waiting<'p>,
    s: &'p Stmt,
    rounds: u64,
    value: Value,
) -> Result<Control<'p>, Stop>
    ensures { (program : Program) (env : List HeapValue) (w : KeptWorld) → Comes result (frames_of frames.new) env w.heap (with_turns turns.new w) (test_step program (stmt_of s.now) rounds (value_of value) (frames_of frames.old) env (with_turns turns.old w)) }
{
    if !is_true(value) {
        return Ok(Control::Goes);
    }
    match s {
        Stmt::While { body, .. } => wait_for_part(frames, s, Stage::Body(rounds), body),
        Stmt::Do { body, .. } => {
            let rounds = take_turn(turns, rounds)?;
            wait_for_part(frames, s, Stage::Body(rounds), body)
        }
        Stmt::For { body, .. } => wait_for_part(frames, s, Stage::Body(rounds), body),
        _ => Ok(Control::Goes),
    }
}

/// The condition of a `for`, or its body where it has none.
fn begin_round<'p>(
    frames: &mut Waiting<'p>,
    s: &'p Stmt,
    rounds: u64,
    test: &'p Option<Expr>,
    body: &'p Stmt,
) -> Result<Control<'p>, Stop>
    ensures heads { IfOk result (λ c. (program : Program) (env : List HeapValue) → head_step program (stmt_of s.now) rounds (option_map expr_of test.now) (stmt_of body.now) (frames_of frames.old) env ≡ doing (control_of c) (frames_of frames.new) env) }
    ensures memory { IfErr result (λ stop. stop ≡ Cut Memory) }
{
    match test {
        None => wait_for_part(frames, s, Stage::Body(rounds), body),
        Some(e) => wait_for_value(frames, s, Stage::Test(rounds), e),
    }
}

/// The body of a loop went on or continued, as said; for another statement that comes out as it is.
fn end_round<'p>(
    turns: &mut u64,
    frames: &mut Waiting<'p>,
    s: &'p Stmt,
    rounds: u64,
    control: Control<'p>,
) -> Result<Control<'p>, Stop>
    ensures { (program : Program) (env : List HeapValue) (w : KeptWorld) → Comes result (frames_of frames.new) env w.heap (with_turns turns.new w) (body_step program (stmt_of s.now) rounds (control_of control.entry) (frames_of frames.old) env (with_turns turns.old w)) }
{
    match s {
        Stmt::While { test, .. } => {
            let rounds = take_turn(turns, rounds)?;
            wait_for_value(frames, s, Stage::Test(rounds), test)
        }
        Stmt::Do { test, .. } => wait_for_value(frames, s, Stage::Test(rounds), test),
        Stmt::For { third, .. } => wait_for_part(frames, s, Stage::Third(rounds), third),
        _ => Ok(control),
    }
}

/// The first part of the head of a `for` went on.
fn done_to_first<'p>(frames: &mut Waiting<'p>, s: &'p Stmt, turns: u64) -> Result<Control<'p>, Stop>
    ensures { (program : Program) (env : List HeapValue) (w : KeptWorld) → Comes result (frames_of frames.new) env w.heap (with_turns turns w) (headed_step program (stmt_of s.now) (frames_of frames.old) env (with_turns turns w)) }
{
    match s {
        Stmt::For { test, body, .. } => begin_round(frames, s, turns, test, body),
        _ => Ok(Control::Goes),
    }
}

/// The third part of the head of a `for` went on.
fn done_to_third<'p>(
    turns: &mut u64,
    frames: &mut Waiting<'p>,
    s: &'p Stmt,
    rounds: u64,
) -> Result<Control<'p>, Stop>
    ensures { (program : Program) (env : List HeapValue) (w : KeptWorld) → Comes result (frames_of frames.new) env w.heap (with_turns turns.new w) (third_step program (stmt_of s.now) rounds (frames_of frames.old) env (with_turns turns.old w)) }
{
    match s {
        Stmt::For { test, body, .. } => {
            let rounds = take_turn(turns, rounds)?;
            begin_round(frames, s, rounds, test, body)
        }
        _ => Ok(Control::Goes),
    }
}

/// A statement in one that waits went on.
pub fn done_to_statement<'p>(
    turns: &mut u64,
    frames: &mut Waiting<'p>,
    s: &'p Stmt,
    stage: &Stage,
) -> Result<Control<'p>, Stop>
    ensures { (program : Program) (env : List HeapValue) (w : KeptWorld) → Comes result (frames_of frames.new) env w.heap (with_turns turns.new w) (go_step program (stmt_of s.now) (stage_of (stmt_of s.now) stage.now) (frames_of frames.old) env (with_turns turns.old w)) }
{
    match stage {
        Stage::Within(begun) => next_in_block(frames, s, *begun),
        Stage::Body(rounds) => end_round(turns, frames, s, *rounds, Control::Goes),
        Stage::First => done_to_first(frames, s, *turns),
        Stage::Third(rounds) => done_to_third(turns, frames, s, *rounds),
        _ => Ok(Control::Goes),
    }
}

/// A statement in one that waits continued.
pub fn continued_to_statement<'p>(
    turns: &mut u64,
    frames: &mut Waiting<'p>,
    s: &'p Stmt,
    stage: &Stage,
) -> Result<Control<'p>, Stop>
    ensures { (program : Program) (env : List HeapValue) (w : KeptWorld) → Comes result (frames_of frames.new) env w.heap (with_turns turns.new w) (continue_step program (stmt_of s.now) (stage_of (stmt_of s.now) stage.now) (frames_of frames.old) env (with_turns turns.old w)) }
{
    match stage {
        Stage::Body(rounds) => end_round(turns, frames, s, *rounds, Control::Continues),
        _ => Ok(Control::Continues),
    }
}

/// What comes out of a statement whose body broke.
fn broke_to_loop<'p>(s: &Stmt) -> Control<'p>
    ensures { (program : Program) → control_of result ≡ broken program (stmt_of s.now) }
{
    match s {
        Stmt::While { .. } => Control::Goes,
        Stmt::Do { .. } => Control::Goes,
        Stmt::For { .. } => Control::Goes,
        _ => Control::Breaks,
    }
}

/// A statement in one that waits broke.
pub fn broke_to_statement<'p>(s: &Stmt, stage: &Stage) -> Control<'p>
    ensures { (program : Program) (frames : List MachineFrame) (env : List HeapValue) → doing (control_of result) frames env ≡ break_step program (stmt_of s.now) (stage_of (stmt_of s.now) stage.now) frames env }
{
    match stage {
        Stage::Body(_) => broke_to_loop(s),
        _ => Control::Breaks,
    }
}
