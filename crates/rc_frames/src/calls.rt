// Calls: the one that runs, and those that wait for another.

ghost use Rattle.std.specs.Prelude.{◌≡◌, ◌++◌, ◌∷◌, [], List, drop, map, is_some, OnOk, IfOk, IfErr, MatchOption};
ghost use Rattle.rc_base.specs.declared.ends.RunFault.TheVariants.{Memory};
ghost use Rattle.rc_core.specs.Execution.{first_locals, held, held_value};
ghost use Rattle.rc_core.specs.Heap.{Value as HeapValue, zero_of};
ghost use Rattle.rc_core.specs.Shapes.{function_of, ty_of};
ghost use Rattle.rc_frames.specs.Codes.{frames_of};
ghost use Rattle.rc_frames.specs.Frames.{ways};
ghost use Rattle.rc_frames.specs.Waiting.{held_by, held_over, waiting_of, waiting_over};
ghost use Rattle.rc_values.specs.Values.{value_of};
ghost use Rattle.rc_values.specs.declared.stop.Stop.TheVariants.{Cut};

use crate::live::is_live;
use crate::waiting::Waiting;
use rc_base::RunFault;
use rc_core::parts::Function;
use rc_core::ty::Ty;
use rc_values::{Stop, Value, Values, zero_of};
use std::alloc::Global;
use std::marker::Model;

/// A call that runs, or waits for another.
#[derive(Drop)]
pub struct Activation<'p> {
    pub function: &'p Function,
    pub frames: Waiting<'p>,
    pub locals: Values,
    /// How many calls may stand inside one another in it.
    pub calls: u64,
    /// Where it waits for a function that deletes, its values that no deletion may leave dangling.
    pub held: Option<Values>,
}

/// The calls that wait, which contracts see as a list with the innermost first.
#[derive(Drop)]
pub struct Callers<'p> {
    list: Vec<Activation<'p>>,
}

impl<'p> Model for Callers<'p> {
    ghost use Rattle.rc_core.specs.contracts.ty.Ty as ty;
    ghost use Rattle.rc_core.specs.contracts.expr.Expr as expr;
    ghost use Rattle.rc_core.specs.contracts.expr.Place as place;
    ghost use Rattle.rc_core.specs.contracts.expr.PathStep as inward;
    ghost use Rattle.rc_core.specs.contracts.stmt.Stmt as stmt;
    ghost use Rattle.std.specs.Coded.{codes};
    ghost use Rattle.std.specs.Prelude.{reverse};
    ghost use Rattle.rc_frames.specs.Waiting.{CodeActivations};

    ghost Value = { CodeActivations };

    ghost coded = { Prim.hlevel (codes, ty.the_row.coded, expr.the_row.coded, place.the_row.coded, inward.the_row.coded, stmt.the_row.coded) };

    ghost view = { λ c. reverse c.list.items };
}

/// Adds what waits in a call.
fn append_held(all: &mut Values, caller: &Activation) -> Result<(), Stop>
    ensures held { (rest : List HeapValue) → OnOk result (all.new ++ rest ≡ all.old ++ held_over caller.now.held rest) }
    ensures memory { IfErr result (λ stop. stop ≡ Cut Memory) }
{
    match &caller.held {
        None => Ok(()),
        Some(held) => Ok(all.append(held)?),
    }
}

/// Adds what waits in these calls, the innermost of which is the last.
fn append_waiting(all: &mut Values, callers: &[Activation]) -> Result<(), Stop>
    ensures waits { OnOk result (all.new ≡ all.old ++ waiting_over callers.now) }
    ensures memory { IfErr result (λ stop. stop ≡ Cut Memory) }
{
    let mut left = callers.len();
    while left > 0 {
        left -= 1;
        append_held(all, &callers[left])?;
    }
    Ok(())
}

impl<'p> Callers<'p> {
    pub fn new(alloc: Global) -> Callers<'p>
        ensures { result ≡ [] }
    {
        Callers {
            list: Vec::new(alloc),
        }
    }

    #[tactic(auto, using(rc_values::proofs::Lists::reversed_more))]
    pub fn push(&mut self, caller: Activation<'p>) -> Result<(), Stop>
        ensures pushed { OnOk result (self.new ≡ caller.entry ∷ self.old) }
        ensures memory { IfErr result (λ stop. stop ≡ Cut Memory) }
    {
        self.list.push(caller)?;
        Ok(())
    }

    /// The innermost call that waits, or none.
    #[tactic(auto, using(rc_values::proofs::Lists::reversed_more))]
    pub fn pop(&mut self) -> Option<Activation<'p>>
        ensures { MatchOption result (self.old ≡ []) (λ caller. self.old ≡ caller ∷ self.new) }
    {
        self.list.pop()
    }

    /// These values, and after them those that wait.
    pub fn waiting_behind(&self, held: Values) -> Result<Values, Stop>
        ensures waits { IfOk result (λ all. all ≡ held ++ waiting_of self.now) }
        ensures memory { IfErr result (λ stop. stop ≡ Cut Memory) }
    {
        let mut all = held;
        append_waiting(&mut all, self.list.as_slice())?;
        Ok(all)
    }
}

/// Adds the value of a local, where it is live and no number.
fn hold(held: &mut Values, live: bool, value: Value) -> Result<(), Stop>
    ensures holds { OnOk result (held.new ≡ held.old ++ held_value live (value_of value) []) }
    ensures memory { IfErr result (λ stop. stop ≡ Cut Memory) }
{
    if !live {
        return Ok(());
    }
    match value {
        Value::Number(_) => Ok(()),
        Value::Null => Ok(held.push(value)?),
        Value::Handle(_) => Ok(held.push(value)?),
        Value::Pointer(_) => Ok(held.push(value)?),
    }
}

/// The number of a local. Memory holds no list of so many locals that it would be no `u32`.
fn number_of(local: usize) -> Result<u32, Stop>
    ensures number { IfOk result (λ number. number ≡ local) }
    ensures memory { IfErr result (λ stop. stop ≡ Cut Memory) }
{
    if local > u32::MAX as usize {
        return Err(Stop::Cut(RunFault::Memory));
    }
    Ok(local as u32)
}

/// Whether a local is live where what the innermost frame waits for comes out.
#[tactic(auto, using(crate::proofs::Lives::frames_same))]
fn is_live_here(frames: &Waiting, local: u32) -> bool
    ensures { result ≡ (ways (frames_of frames.now)).next local }
{
    is_live(frames.as_slice(), local)
}

/// The values of the locals that are live where what the innermost frame waits for comes out, but for
/// numbers.
#[tactic(auto, using(crate::proofs::Lives::held_more))]
pub fn held_values(alloc: Global, frames: &Waiting, locals: &Values) -> Result<Values, Stop>
    ensures held { IfOk result (λ values. values ≡ held (ways (frames_of frames.now)).next locals.now) }
    ensures memory { IfErr result (λ stop. stop ≡ Cut Memory) }
{
    let mut held = Values::new(alloc);
    for (local, value) in locals.as_slice().iter().enumerate() {
        let live = is_live_here(frames, number_of(local)?);
        hold(&mut held, live, *value)?;
    }
    Ok(held)
}

/// What waits in a call while it waits for this function.
pub fn held_for(
    alloc: Global,
    function: &Function,
    frames: &Waiting,
    locals: &Values,
) -> Result<Option<Values>, Stop>
    ensures held { (rest : List HeapValue) → IfOk result (λ h. (is_some h ≡ function.now.deletes) × (held_over h rest ≡ held_by function.now.deletes (held (ways (frames_of frames.now)).next locals.now) rest)) }
    ensures memory { IfErr result (λ stop. stop ≡ Cut Memory) }
{
    if !function.deletes {
        return Ok(None);
    }
    Ok(Some(held_values(alloc, frames, locals)?))
}

/// Adds zero or null for each of these types.
fn push_zeros(values: &mut Values, types: &[Ty]) -> Result<(), Stop>
    ensures zeros { OnOk result (values.new ≡ values.old ++ map zero_of (map ty_of types.now)) }
    ensures memory { IfErr result (λ stop. stop ≡ Cut Memory) }
{
    for ty in types {
        values.push(zero_of(ty))?;
    }
    Ok(())
}

/// Adds zero or null for each of these types but the first.
#[tactic(auto, using(rc_values::proofs::Lists::drop_mapped, rc_values::proofs::Lists::drop_past))]
fn push_zeros_after(values: &mut Values, types: &[Ty], passed: u32) -> Result<(), Stop>
    ensures zeros { OnOk result (values.new ≡ values.old ++ map zero_of (drop passed (map ty_of types.now))) }
    ensures memory { IfErr result (λ stop. stop ≡ Cut Memory) }
{
    if passed as usize >= types.len() {
        return Ok(());
    }
    push_zeros(values, &types[passed as usize..])
}

/// The arguments, and after them zeros and nulls.
pub fn first_locals(function: &Function, arguments: Values) -> Result<Values, Stop>
    ensures locals { IfOk result (λ locals. locals ≡ first_locals (function_of function.now) arguments) }
    ensures memory { IfErr result (λ stop. stop ≡ Cut Memory) }
{
    let mut locals = arguments;
    push_zeros_after(&mut locals, function.locals.as_slice(), function.parameters)?;
    Ok(locals)
}
