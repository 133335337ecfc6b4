// Expressions: one begins by what it evaluates first, and goes on as its parts give their values.

ghost use Rattle.std.specs.Prelude.{◌≡◌, ◌∷◌, List, IfOk, IfErr, IsTrue};
ghost use Rattle.rc_base.specs.declared.ends.RunFault.TheVariants.{Memory};
ghost use Rattle.rc_core.specs.Evaluation.{give_number, local_at, number_in, region_named, toward};
ghost use Rattle.rc_core.specs.Heap.{Value as HeapValue};
ghost use Rattle.rc_core.specs.Layout.{cells};
ghost use Rattle.rc_core.specs.Programs.{Program, Expr as CleanExpr, Function as CleanFunction, new_region, new_subregion};
ghost use Rattle.rc_core.specs.Runs.{Calls, Go, Run, bind, computed};
ghost use Rattle.rc_core.specs.Shapes.{expr_of, program_of, ty_of};
ghost use Rattle.rc_frames.specs.Codes.{frames_of};
ghost use Rattle.rc_nodes.specs.Controls.{control_of};
ghost use Rattle.rc_nodes.specs.Coming.{Comes, stays_inside};
ghost use Rattle.rc_frames.specs.Frames.{Frame as MachineFrame, first, second};
ghost use Rattle.rc_memory.specs.Kept.{KeptHeap};
ghost use Rattle.rc_memory.specs.KeptWorld.{KeptWorld, kept};
ghost use Rattle.rc_core.specs.Laid.{AreLaidOut};
ghost use Rattle.rc_memory.specs.Leaving.{Leaves};
ghost use Rattle.rc_nodes.specs.Stepping.{begin, doing, evaluating, first_step, giving_next, needs_no_world, second_step};
ghost use Rattle.rc_values.specs.Values.{value_of};
ghost use Rattle.rc_values.specs.declared.stop.Stop.TheVariants.{Cut};

use crate::control::Control;
use crate::places::begin_place;
use crate::setting::Setting;
use rc_base::Trap;
use rc_core::expr::Expr;
use rc_core::operators::Direction;
use rc_core::ty::Ty;
use rc_core::{calculate, calculate_one, converted};
use rc_frames::{Frame, Waiting};
use rc_memory::Heap;
use rc_values::{
    Stop, Target, Value, Values, as_wanted, is_same, is_true, number_in, static_pointer, trap,
};

/// A number that was computed, or a trap.
fn computed<'p>(line: u32, outcome: Result<i64, Trap>) -> Result<Control<'p>, Stop>
    ensures { (program : Program) (frames : List MachineFrame) (env : List HeapValue) (w : KeptWorld) → Comes result frames env w.heap w (bind (bind (computed line outcome w) give_number) (giving_next program frames env)) }
{
    match outcome {
        Ok(n) => Ok(Control::Gives(Value::Number(n))),
        Err(t) => Err(trap(t, line)),
    }
}

/// The region of a pointer, or a trap.
fn region_named<'p>(line: u32, value: Value) -> Result<Control<'p>, Stop>
    ensures { (program : Program) (frames : List MachineFrame) (env : List HeapValue) (w : KeptWorld) → Comes result frames env w.heap w (bind (region_named line (value_of value) w) (giving_next program frames env)) }
{
    match value {
        Value::Number(_) => Err(trap(Trap::Null, line)),
        Value::Null => Err(trap(Trap::Null, line)),
        Value::Handle(r) => Ok(Control::Gives(Value::Handle(r))),
        Value::Pointer(a) => Ok(Control::Gives(Value::Handle(a.region))),
    }
}

/// The value of a local.
fn local_at(locals: &Values, x: u32) -> Value
    ensures { value_of result ≡ local_at locals.now x }
{
    match locals.get(x as usize) {
        None => Value::Null,
        Some(value) => value,
    }
}

/// The expression waits for its first part.
fn wait_for_first<'p>(
    frames: &mut Waiting<'p>,
    e: &'p Expr,
    part: &'p Expr,
) -> Result<Control<'p>, Stop>
    ensures waits { IfOk result (λ c. (control_of c ≡ evaluating (expr_of part.now)) × (frames_of frames.new ≡ first (expr_of e.now) ∷ frames_of frames.old)) }
    ensures memory { IfErr result (λ stop. stop ≡ Cut Memory) }
{
    frames.push(Frame::First(e))?;
    Ok(Control::Evaluate(part))
}

/// An expression without parts, or its first part; the expression waits for that.
#[tactic(auto, using(rc_core::proofs::ShapeRows::call_is))]
pub fn begin_expression<'p>(
    setting: &Setting<'p>,
    frames: &mut Waiting<'p>,
    locals: &Values,
    e: &'p Expr,
) -> Result<Control<'p>, Stop>
    ensures begins { IfOk result (λ c. IsTrue (needs_no_world (expr_of e.now)) → (w : KeptWorld) → begin (program_of setting.now.parts.now) (expr_of e.now) (frames_of frames.old) locals.now w ≡ Go (doing (control_of c) (frames_of frames.new) locals.now) w) }
    ensures memory { IfErr result (λ stop. stop ≡ Cut Memory) }
{
    match e {
        Expr::Constant { value, .. } => Ok(Control::Gives(Value::Number(*value))),
        Expr::Null { .. } => Ok(Control::Gives(Value::Null)),
        Expr::Str { string, .. } => {
            let number = setting.parts.globals.len() as u64 + *string as u64;
            Ok(Control::Gives(static_pointer(number)))
        }
        Expr::Local { local, .. } => Ok(Control::Gives(local_at(locals, *local))),
        Expr::Read { line, place } => {
            frames.push(Frame::Load(*line))?;
            begin_place(setting.alloc, frames, place)
        }
        Expr::Address { global, .. } => Ok(Control::Gives(static_pointer(*global as u64))),
        Expr::NewRegion { .. } => Ok(Control::Gives(Value::Null)),
        Expr::Call { .. } => Ok(Control::Evaluate(e)),
        Expr::Getchar { .. } => Ok(Control::Gives(Value::Null)),
        Expr::Step { pointer, .. } => wait_for_first(frames, e, pointer),
        Expr::StepFrom { number, .. } => wait_for_first(frames, e, number),
        Expr::Unary { operand, .. } => wait_for_first(frames, e, operand),
        Expr::Binary { left, .. } => wait_for_first(frames, e, left),
        Expr::Convert { operand, .. } => wait_for_first(frames, e, operand),
        Expr::Not { operand, .. } => wait_for_first(frames, e, operand),
        Expr::And { left, .. } => wait_for_first(frames, e, left),
        Expr::Or { left, .. } => wait_for_first(frames, e, left),
        Expr::Choose { test, .. } => wait_for_first(frames, e, test),
        Expr::IsNull { operand, .. } => wait_for_first(frames, e, operand),
        Expr::Same { left, .. } => wait_for_first(frames, e, left),
        Expr::NewSubregion { parent, .. } => wait_for_first(frames, e, parent),
        Expr::RegionOf { pointer, .. } => wait_for_first(frames, e, pointer),
        Expr::Allocate { region, .. } => wait_for_first(frames, e, region),
        Expr::AllocateArray { region, .. } => wait_for_first(frames, e, region),
        Expr::Putchar { byte, .. } => wait_for_first(frames, e, byte),
    }
}

/// The expression, whose first part has this value, waits for its second.
fn wait_for_second<'p>(
    frames: &mut Waiting<'p>,
    e: &'p Expr,
    value: Value,
    part: &'p Expr,
) -> Result<Control<'p>, Stop>
    ensures waits { IfOk result (λ c. (control_of c ≡ evaluating (expr_of part.now)) × (frames_of frames.new ≡ second (expr_of e.now) (value_of value) ∷ frames_of frames.old)) }
    ensures memory { IfErr result (λ stop. stop ≡ Cut Memory) }
{
    frames.push(Frame::Second(e, value))?;
    Ok(Control::Evaluate(part))
}

/// The first part of an expression has this value, which doesn't lead to the heap or outside.
#[tactic(auto, using(rc_core::proofs::ShapeRows::call_is))]
pub fn first_value_to_inner_expression<'p>(
    frames: &mut Waiting<'p>,
    e: &'p Expr,
    value: Value,
) -> Result<Control<'p>, Stop>
    ensures { IsTrue (stays_inside (expr_of e.now)) → (program : Program) (env : List HeapValue) (w : KeptWorld) → Comes result (frames_of frames.new) env w.heap w (first_step program (expr_of e.now) (value_of value) (frames_of frames.old) env w) }
{
    match e {
        Expr::Unary {
            line,
            operator,
            signedness,
            ..
        } => computed(
            *line,
            calculate_one(*operator, *signedness, number_in(value)),
        ),
        Expr::Convert { to, .. } => {
            let number = converted(*to, number_in(value));
            Ok(Control::Gives(Value::Number(number)))
        }
        Expr::Not { .. } => Ok(Control::Gives(as_wanted(false, is_true(value)))),
        Expr::And { right, .. } => {
            if !is_true(value) {
                return Ok(Control::Gives(Value::Number(0)));
            }
            wait_for_second(frames, e, value, right)
        }
        Expr::Or { right, .. } => {
            if is_true(value) {
                return Ok(Control::Gives(Value::Number(1)));
            }
            wait_for_second(frames, e, value, right)
        }
        Expr::Choose { yes, no, .. } => {
            if is_true(value) {
                return Ok(Control::Evaluate(yes));
            }
            Ok(Control::Evaluate(no))
        }
        Expr::IsNull { wanted, .. } => Ok(Control::Gives(as_wanted(*wanted, !is_true(value)))),
        Expr::RegionOf { line, .. } => region_named(*line, value),
        Expr::Step { number, .. } => wait_for_second(frames, e, value, number),
        Expr::StepFrom { pointer, .. } => wait_for_second(frames, e, value, pointer),
        Expr::Binary { right, .. } => wait_for_second(frames, e, value, right),
        Expr::Same { right, .. } => wait_for_second(frames, e, value, right),
        Expr::AllocateArray { number, .. } => wait_for_second(frames, e, value, number),
        Expr::Constant { .. } => Ok(Control::Gives(value)),
        Expr::Null { .. } => Ok(Control::Gives(value)),
        Expr::Str { .. } => Ok(Control::Gives(value)),
        Expr::Local { .. } => Ok(Control::Gives(value)),
        Expr::Read { .. } => Ok(Control::Gives(value)),
        Expr::Address { .. } => Ok(Control::Gives(value)),
        Expr::Call { .. } => Ok(Control::Gives(value)),
        Expr::NewRegion { .. } => Ok(Control::Gives(value)),
        Expr::NewSubregion { .. } => Ok(Control::Gives(value)),
        Expr::Allocate { .. } => Ok(Control::Gives(value)),
        Expr::Putchar { .. } => Ok(Control::Gives(value)),
        Expr::Getchar { .. } => Ok(Control::Gives(value)),
    }
}

/// Makes a region of its own.
#[tactic(auto, using(crate::proofs::Results::stops_on))]
pub fn make_region<'p>(setting: &Setting, heap: &mut Heap, line: u32) -> Result<Control<'p>, Stop>
    ensures { (program : Program) (frames : List MachineFrame) (env : List HeapValue) (w : KeptWorld) → w.heap ≡ heap.old → w.regions ≡ setting.now.limits.regions → Comes result frames env heap.new w (begin program (new_region line) frames env w) }
{
    let region = heap.make(setting.alloc, line, 0, setting.limits.regions)?;
    Ok(Control::Gives(Value::Handle(region)))
}

/// Makes a region in another.
#[tactic(auto, using(crate::proofs::Results::stops_on))]
pub fn make_subregion<'p>(
    setting: &Setting,
    heap: &mut Heap,
    line: u32,
    parent: Value,
) -> Result<Control<'p>, Stop>
    ensures { (program : Program) (e : CleanExpr) (frames : List MachineFrame) (env : List HeapValue) (w : KeptWorld) → w.heap ≡ heap.old → w.regions ≡ setting.now.limits.regions → Comes result frames env heap.new w (first_step program (new_subregion line e) (value_of parent) frames env w) }
{
    let region = heap.make_child(setting.alloc, line, parent, setting.limits.regions)?;
    Ok(Control::Gives(Value::Handle(region)))
}

/// A value comes out, where there is one.
#[tactic(auto, using(crate::proofs::Results::stops_on))]
fn yield_value<'p>(value: Result<Value, Stop>) -> Result<Control<'p>, Stop>
    ensures { (program : Program) (frames : List MachineFrame) (env : List HeapValue) (heap : KeptHeap) (w : KeptWorld) (run : Run KeptWorld HeapValue) → Leaves value_of value heap w run → Comes result frames env heap w (bind run (giving_next program frames env)) }
{
    match value {
        Ok(value) => Ok(Control::Gives(value)),
        Err(stop) => Err(stop),
    }
}

/// Allocates an array of elements of a type.
pub fn allocate<'p, 'l>(
    setting: &Setting<'l>,
    heap: &mut Heap<'l>,
    line: u32,
    region: Value,
    count: i64,
    element: &Ty,
) -> Result<Control<'p>, Stop>
    ensures { (program : Program) (frames : List MachineFrame) (env : List HeapValue) (w : KeptWorld) → AreLaidOut program.structs setting.now.layouts.now → w.heap ≡ heap.old → w.blocks ≡ setting.now.limits.blocks → Comes result frames env heap.new w (bind (kept.allocate line (value_of region) count (cells program.structs (ty_of element.now)) w) (giving_next program frames env)) }
{
    let kinds = setting.layouts.cells_of(element);
    yield_value(heap.allocate(
        setting.alloc,
        line,
        region,
        count,
        kinds,
        setting.limits.blocks,
    ))
}

/// The pointer `number` elements on, or back.
#[tactic(auto, using(crate::proofs::Results::stops_on))]
fn step_pointer<'p>(
    heap: &Heap,
    line: u32,
    pointer: Value,
    direction: Direction,
    number: Value,
) -> Result<Control<'p>, Stop>
    ensures { (program : Program) (frames : List MachineFrame) (env : List HeapValue) (w : KeptWorld) → w.heap ≡ heap.now → Comes result frames env heap.now w (bind (kept.step line (value_of pointer) (toward direction (number_in (value_of number))) w) (giving_next program frames env)) }
{
    let pointer = heap.step(line, pointer, direction, number_in(number))?;
    Ok(Control::Gives(pointer))
}

/// Reads a place.
#[tactic(auto, using(crate::proofs::Results::stops_on))]
pub fn load<'p>(heap: &Heap, line: u32, target: Target) -> Result<Control<'p>, Stop>
    ensures { (program : Program) (frames : List MachineFrame) (env : List HeapValue) (w : KeptWorld) → w.heap ≡ heap.now → Comes result frames env heap.now w (bind (kept.load line target w) (giving_next program frames env)) }
{
    let value = heap.load(line, &target)?;
    Ok(Control::Gives(value))
}

/// The second part of an expression has this value too.
pub fn second_value_to_expression<'p, 'l>(
    setting: &Setting<'l>,
    heap: &mut Heap<'l>,
    e: &Expr,
    first: Value,
    second: Value,
) -> Result<Control<'p>, Stop>
    ensures { (program : Program) (f : CleanFunction) (calls : Calls KeptWorld) (frames : List MachineFrame) (env : List HeapValue) (w : KeptWorld) → AreLaidOut program.structs setting.now.layouts.now → w.heap ≡ heap.old → w.blocks ≡ setting.now.limits.blocks → Comes result frames env heap.new w (second_step program f calls (expr_of e.now) (value_of first) (value_of second) frames env w) }
{
    match e {
        Expr::Step {
            line,
            direction,
            ..
        } => step_pointer(heap, *line, first, *direction, second),
        Expr::StepFrom { line, .. } => step_pointer(heap, *line, second, Direction::Forward, first),
        Expr::Binary {
            line,
            operator,
            signedness,
            ..
        } => computed(
            *line,
            calculate(*operator, *signedness, number_in(first), number_in(second)),
        ),
        Expr::And { .. } => Ok(Control::Gives(as_wanted(true, is_true(second)))),
        Expr::Or { .. } => Ok(Control::Gives(as_wanted(true, is_true(second)))),
        Expr::Same { wanted, .. } => Ok(Control::Gives(as_wanted(*wanted, is_same(first, second)))),
        Expr::AllocateArray { line, element, .. } => {
            let count = number_in(second);
            allocate(setting, heap, *line, first, count, element)
        }
        _ => Ok(Control::Gives(second)),
    }
}
