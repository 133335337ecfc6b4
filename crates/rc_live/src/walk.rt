// The walk from the end of a function to its beginning.
ghost use Rattle.std.specs.Prelude.{◌≡◌, ◌≤◌, ◌++◌, ◌&&◌, ℕ, is_some, option_map, Bool, List, [], ◌∷◌, length, map, OnOk, IfOk};
ghost use Rattle.rc_core.specs.Types.{Ty};
ghost use Rattle.rc_core.specs.Live.{Ways as LiveWays};
ghost use Rattle.rc_rlang.specs.RegionPoints.{branch_points};
ghost use Rattle.rc_rlang.specs.Points.{change_points, conversion_points};
ghost use Rattle.rc_rlang.specs.RegionRuns.{deletes};
ghost use Rattle.rc_core.specs.Programs.{Struct};
ghost use Rattle.rc_rlang.specs.Shapes.{act_of, code_of, codes_of, test_of, operation_of, step_of, steps_of, rlang_of};
ghost use Rattle.rc_rlang.specs.Touches.{operation_touch};
ghost use Rattle.rc_rlang.specs.LiveLists.{held_at, held_if};
ghost use Rattle.rc_live.specs.Effects.{Found, Tells, loops, loops_among};
ghost use Rattle.rc_live.specs.Rows.{numbered, Shows, ShowWays};
ghost use Rattle.rc_live.specs.declared.effects.Effect.{Effect as EffectValue};
ghost use Rattle.rc_live.specs.Walking.{structs_in, deletes_in, touch_in, IsReady, Serves, WentBack, ActDone, CodeDone, CodesDone, OperationDone, StepDone, StepsDone};

use crate::effects::Effect;
use crate::rows::{Ways, locals_of, with, without};
use crate::touches::{Touched, touch};
use rc_base::{BitSet, NoMemory};
use rc_core::stmt::Change;
use rc_core::ty::NumberType;
use rc_core::{Layouts, type_of};
use rc_rlang::code::{Act, Code, RegionParts, Test};
use rc_rlang::live_map::Held;
use rc_rlang::steps::{Operation, Step};
use std::alloc::Global;
use std::marker::Model;

/// What a walk looks at besides the code, and the locals that have bits.
#[derive(Clone, Copy)]
pub(crate) struct Context<'c> {
    pub(crate) alloc: Global,
    pub(crate) parts: &'c RegionParts,
    pub(crate) layouts: &'c Layouts,
    pub(crate) names: &'c [u32],
}

/// How far a walk has come, from the end. The lists are those of the deleting points behind, the last
/// one first.
#[derive(Drop)]
pub(crate) struct Walk {
    /// The number of the point that it came past last.
    pub(crate) point: u32,
    pub(crate) lists: Vec<Held>,
}

impl Model for Walk {
    ghost use Rattle.std.specs.Prelude.{map};
    ghost use Rattle.rc_rlang.specs.LiveMaps.{held_of};
    ghost use Rattle.rc_live.specs.Walking.{Going};

    ghost Value = { Going };

    ghost view = { λ w. record { point = w.point; lists = map held_of w.lists.items } };
}

impl Walk {
    /// Back past points that don't delete.
    pub(crate) fn pass(&mut self, points: u64)
        ensures { WentBack points (λ here. []) self.old self.new }
    {
        self.point = (self.point as u64).saturating_sub(points) as u32;
    }

    /// Back past a deleting point.
    pub(crate) fn list(
        &mut self,
        alloc: Global,
        names: &[u32],
        live: BitSet,
    ) -> Result<(), NoMemory>
        requires { length names.now ≤ 128 }
        ensures { (deleting : ℕ → Bool) (types : List Ty) (l : ℕ → Bool) → names.now ≡ numbered types → Shows names.now live l →
            OnOk result (WentBack 1 (λ here. held_at deleting types here l) self.old self.new) }
    {
        let locals = locals_of(alloc, names, live)?;
        self.point = self.point.saturating_sub(1);
        self.lists.push(Held {
            point: self.point,
            locals,
        })?;
        Ok(())
    }
}

/// Whether a function deletes regions.
fn function_deletes(parts: &RegionParts, function: u32) -> bool
    ensures { result ≡ deletes (rlang_of parts.now) function }
{
    match parts.functions.get(function as usize) {
        None => false,
        Some(routine) => routine.deletes,
    }
}

/// Back past a call.
fn call(context: &Context, function: u32, live: BitSet, walk: &mut Walk) -> Result<(), NoMemory>
    requires { IsReady context.now }
    ensures { (types : List Ty) (l : ℕ → Bool) → Serves context.now types → Shows context.now.names.now live l →
        OnOk result (WentBack 1 (λ here. held_if (deletes_in context.now) types (deletes_in context.now function) here l) walk.old walk.new) }
{
    if function_deletes(context.parts, function) {
        walk.list(context.alloc, context.names, live)
    } else {
        walk.pass(1);
        Ok(())
    }
}

/// Back past an operation: what is live before it.
fn operation(
    context: &Context,
    operation: &Operation,
    live: BitSet,
    walk: &mut Walk,
) -> Result<BitSet, NoMemory>
    requires { IsReady context.now }
    ensures { (types : List Ty) (l : ℕ → Bool) → Serves context.now types → Shows context.now.names.now live l →
        IfOk result (λ row. OperationDone context.now types (operation_of (structs_in context.now.parts.now) operation.now) l row walk.old walk.new) }
{
    match touch(operation) {
        Touched::Nothing => {
            walk.pass(1);
            Ok(live)
        }
        Touched::Reads(local) => {
            walk.pass(1);
            Ok(with(context.names, live, local))
        }
        Touched::Calls(function) => {
            call(context, function, live, walk)?;
            Ok(live)
        }
    }
}

/// Back past a step: what is live before it.
#[cycle(steps)]
fn step(context: &Context, step: &Step, live: BitSet, walk: &mut Walk) -> Result<BitSet, NoMemory>
    requires { IsReady context.now }
    ensures { (types : List Ty) (l : ℕ → Bool) → Serves context.now types → Shows context.now.names.now live l →
        IfOk result (λ row. StepDone context.now types (step_of (structs_in context.now.parts.now) step.now) l row walk.old walk.new) }
{
    match step {
        Step::Set {
            operation: done,
            ..
        } => operation(context, done, live, walk),
        Step::Fork { yes, no, .. } => {
            let live_no = steps(context, no.as_slice(), live, walk)?;
            let live_yes = steps(context, yes.as_slice(), live, walk)?;
            walk.pass(1);
            Ok(live_yes.union(live_no))
        }
    }
}

/// Back past steps.
#[cycle(steps)]
pub(crate) fn steps(
    context: &Context,
    steps: &[Step],
    live: BitSet,
    walk: &mut Walk,
) -> Result<BitSet, NoMemory>
    requires { IsReady context.now }
    ensures { (types : List Ty) (l : ℕ → Bool) → Serves context.now types → Shows context.now.names.now live l →
        IfOk result (λ row. StepsDone context.now types (steps_of (structs_in context.now.parts.now) steps.now) l row walk.old walk.new) }
{
    let mut row = live;
    for i in (0..steps.len()).rev() {
        row = step(context, &steps[i], row, walk)?;
    }
    Ok(row)
}

fn conversion(from: NumberType, to: NumberType) -> u64
    ensures { result ≡ conversion_points from to }
{
    match (from, to) {
        (NumberType::Int, NumberType::Int) => 0,
        (NumberType::Unsigned, NumberType::Unsigned) => 0,
        (NumberType::Char, NumberType::Char) => 0,
        _ => 1,
    }
}

fn points_of_change(change: Change) -> u64
    ensures { result ≡ change_points change }
{
    match change {
        Change::Compute {
            from,
            signedness,
            ..
        } => {
            let own = type_of(signedness);
            3 + conversion(from, own) + conversion(own, from)
        }
        Change::Step { .. } => 3,
    }
}

/// Back past an act: what is live before it.
fn act(context: &Context, act: &Act, live: BitSet, walk: &mut Walk) -> Result<BitSet, NoMemory>
    requires { IsReady context.now }
    ensures { (types : List Ty) (l : ℕ → Bool) → Serves context.now types → Shows context.now.names.now live l →
        IfOk result (λ row. ActDone context.now types (act_of (structs_in context.now.parts.now) act.now) l row walk.old walk.new) }
{
    match act {
        Act::Drop => Ok(live),
        Act::Perform { function, .. } => {
            call(context, *function, live, walk)?;
            Ok(live)
        }
        Act::Assign { local, .. } => {
            walk.pass(1);
            Ok(without(context.names, live, *local))
        }
        Act::Store { .. } => {
            walk.pass(1);
            Ok(live)
        }
        Act::Update { change, .. } => {
            walk.pass(points_of_change(*change));
            Ok(live)
        }
        Act::Move { structure, .. } => {
            let cells = context.layouts.size_of(*structure);
            walk.pass(cells);
            walk.pass(cells);
            Ok(live)
        }
        Act::Delete { .. } => {
            walk.list(context.alloc, context.names, live)?;
            Ok(live)
        }
        Act::Leave { .. } => {
            walk.pass(1);
            Ok(BitSet::empty())
        }
    }
}

/// What is live where a loop ends before its body: nothing, where it has no condition.
fn way_out(test: &Option<Test>, next: BitSet) -> BitSet
    ensures { (names : List ℕ) (l : ℕ → Bool) → Shows names next l → Shows names result (λ x. is_some test.now && l x) }
{
    match test {
        None => BitSet::empty(),
        Some(_) => next,
    }
}

/// Back past the condition of a loop, where it has one.
fn pass_test(test: &Option<Test>, walk: &mut Walk)
    ensures { WentBack (branch_points (option_map test_of test.now)) (λ here. []) walk.old walk.new }
{
    if test.is_some() {
        walk.pass(1);
    }
}

/// What is live before the loop whose effect is listed last, which is taken off the list.
fn head(effects: &mut Vec<Effect>, ways: &Ways) -> BitSet
    ensures { (names : List ℕ) (before : List EffectValue) (e : EffectValue) (f : LiveWays → ℕ → Bool) (k : LiveWays) → effects.old.items ≡ before ++ e ∷ [] → Tells names e f → ShowWays names ways.now k →
        Shows names result (f k) × (effects.new.items ≡ before) }
{
    let Some(effect) = effects.pop() else {
        return BitSet::empty();
    };
    effect.before(ways)
}

/// Back past the code of a statement: what is live before it. The effects of its loops are taken off the
/// end of their list.
#[cycle(code)]
pub(crate) fn code(
    context: &Context,
    code: &Code,
    ways: &Ways,
    effects: &mut Vec<Effect>,
    walk: &mut Walk,
) -> Result<BitSet, NoMemory>
    requires { IsReady context.now }
    ensures { (types : List Ty) (k : LiveWays) (before : List EffectValue) → Serves context.now types → ShowWays context.now.names.now ways.now k → Found context.now.names.now (loops (code_of (structs_in context.now.parts.now) code.now)) before effects.old.items →
        IfOk result (λ row. CodeDone context.now types (code_of (structs_in context.now.parts.now) code.now) k row walk.old walk.new × (effects.new.items ≡ before)) }
{
    match code {
        Code::Simple {
            steps: all,
            act: last,
        } => {
            let live = act(context, last, ways.next, walk)?;
            steps(context, all.as_slice(), live, walk)
        }
        Code::Clear { local, .. } => {
            walk.pass(1);
            Ok(without(context.names, ways.next, *local))
        }
        Code::Block { body } => codes(context, body.as_slice(), ways, effects, walk),
        Code::Branch {
            steps: all,
            yes,
            no,
            ..
        } => {
            let live_no = self::code(context, no, ways, effects, walk)?;
            let live_yes = self::code(context, yes, ways, effects, walk)?;
            walk.pass(1);
            steps(context, all.as_slice(), live_yes.union(live_no), walk)
        }
        Code::Loop {
            steps: all,
            test,
            third,
            body,
            ..
        } => {
            let first = head(effects, ways);
            let again = self::code(context, third, &ways.then(first), effects, walk)?;
            let inside = self::code(context, body, &ways.round(again), effects, walk)?;
            pass_test(test, walk);
            let out = way_out(test, ways.next);
            steps(context, all.as_slice(), out.union(inside), walk)?;
            walk.pass(1);
            Ok(first)
        }
        Code::Repeat {
            body,
            steps: all,
            ..
        } => {
            let first = head(effects, ways);
            walk.pass(1);
            let again = steps(context, all.as_slice(), ways.next.union(first), walk)?;
            self::code(context, body, &ways.round(again), effects, walk)?;
            walk.pass(1);
            Ok(first)
        }
        Code::Break { .. } => {
            walk.pass(1);
            Ok(ways.broken)
        }
        Code::Continue { .. } => {
            walk.pass(1);
            Ok(ways.continued)
        }
    }
}

/// Back past the code of statements, the last one first.
#[cycle(code)]
fn codes(
    context: &Context,
    body: &[Code],
    ways: &Ways,
    effects: &mut Vec<Effect>,
    walk: &mut Walk,
) -> Result<BitSet, NoMemory>
    requires { IsReady context.now }
    ensures { (types : List Ty) (k : LiveWays) (before : List EffectValue) → Serves context.now types → ShowWays context.now.names.now ways.now k → Found context.now.names.now (loops_among (codes_of (structs_in context.now.parts.now) body.now)) before effects.old.items →
        IfOk result (λ row. CodesDone context.now types (codes_of (structs_in context.now.parts.now) body.now) k row walk.old walk.new × (effects.new.items ≡ before)) }
{
    let mut next = ways.next;
    for i in (0..body.len()).rev() {
        next = code(context, &body[i], &ways.then(next), effects, walk)?;
    }
    Ok(next)
}
