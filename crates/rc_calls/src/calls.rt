// Calls and returns.
ghost use Rattle.std.specs.Prelude.{◌≡◌, ◌≤◌, ◌<◌, true, length, slice_get, Some};
ghost use Rattle.rc_core.specs.Evaluation.{local_at, number_in};
ghost use Rattle.rc_code.specs.Running.{function_at, kept, reading_of};
ghost use Rattle.rc_pile.specs.Stacks.{setting as set_to};
ghost use Rattle.rc_pile.specs.Words.{value_of};
ghost use Rattle.rc_steps.specs.Ready.{called};
ghost use Rattle.rc_decode.specs.declared.op.Op.TheVariants.{Call, Return};
ghost use Rattle.rc_decode.specs.Whole.{IsBody};
ghost use Rattle.rc_steps.specs.ShortForms.{IsReadyFor};
ghost use Rattle.rc_ops.specs.Going.{IsInside, Went, at_of};
ghost use Rattle.rc_calls.specs.Calling.{if_given, kept_first, result_if};
ghost use Rattle.rc_calls.specs.Setting.{BeginsAt, IsSet};

use crate::pins::{pin_behind, unpin_behind};
use rc_code::{Function, Storage};
use rc_core::converted;
use rc_core::ty::NumberType;
use rc_decode::Body;
use rc_ops::{Counter, Exit, Running, Setting};
use rc_pile::{Caller, Pile, Word};
use rc_store::{Cell, Heap};

/// The number, or 0 where it is none.
#[inline(always)]
pub fn number_in(word: Word) -> i64
    ensures { result ≡ number_in (value_of word) }
{
    match word.cell() {
        Cell::Number(n) => n,
        Cell::Nothing => 0,
        Cell::Region(_) => 0,
        Cell::Pointer(_) => 0,
    }
}

/// A local keeps what one of its kind keeps: a `char` a byte.
#[inline(always)]
fn keep(storage: Storage, pile: &mut Pile, local: u32)
    requires { local < length pile.old.locals }
    ensures { pile.new ≡ set_to local (kept storage (local_at pile.old.locals local)) pile.old }
{
    if let Storage::Number(NumberType::Char) = storage {
        let n = number_in(pile.local(local));
        pile.set_number(local, converted(NumberType::Char, n));
    }
}

/// The first locals keep what locals of their kinds keep.
#[inline(always)]
fn keep_first(function: &Function, pile: &mut Pile)
    requires few { function.now.parameters ≤ length function.now.locals }
    requires there { function.now.parameters ≤ length pile.old.locals }
    ensures { pile.new ≡ record pile.old { locals = kept_first function.now.parameters function.now.locals pile.old.locals } }
{
    let storages = function.locals.as_slice();
    for x in 0..function.parameters {
        keep(storages[x as usize], pile, x);
    }
}

/// A function, as it is called.
#[inline(always)]
pub fn body_of<'a>(setting: &Setting<'a>, function: u32) -> &'a Body
    requires set { IsSet setting.now.image.now setting.now.bodies.now setting.now.layouts.now }
    requires known { function < length setting.now.image.now.functions }
    ensures body { IsBody setting.now.image.now result.now.start (function_at (reading_of setting.now.image.now) function) result.now }
    ensures there { slice_get setting.now.bodies.now function ≡ Some result.now }
{
    &setting.bodies[function as usize]
}

/// The function of that number.
#[inline(always)]
fn function_of<'a>(setting: &Setting<'a>, function: u32) -> &'a Function
    requires known { function < length setting.now.image.now.functions }
    ensures is { result.now ≡ function_at (reading_of setting.now.image.now) function }
    ensures parameters { result.now.parameters ≤ length result.now.locals }
{
    &setting.image.parts().functions.as_slice()[function as usize]
}

/// The operands of a call become its first locals, and the caller waits.
#[inline(always)]
fn begin(setting: &Setting, pile: &mut Pile, caller: Caller, callee: u32, body: &Body)
    requires known { callee < length setting.now.image.now.functions }
    requires body { IsBody setting.now.image.now body.now.start (function_at (reading_of setting.now.image.now) callee) body.now }
    requires there { body.now.parameters ≤ length pile.old.operands }
    requires room { length body.now.locals.items ≤ pile.old.room }
    requires more { 0 < pile.old.more }
    ensures { pile.new ≡ called (reading_of setting.now.image.now) caller callee pile.old }
{
    pile.enter(caller, body.parameters, &body.locals);
    if !body.has_chars {
        return;
    }
    keep_first(function_of(setting, callee), pile);
}

/// Calls a function: its arguments become its first locals, the caller's values are pinned, and it
/// takes a turn.
#[inline(always)]
pub fn call<H: Heap>(
    setting: &Setting,
    heap: &mut H,
    running: &mut Running,
    pile: &mut Pile,
    at: &mut Counter,
    has_pins: bool,
    callee: u32,
) -> Option<Exit>
    requires set { IsSet setting.now.image.now setting.now.bodies.now setting.now.layouts.now }
    requires inside { IsInside at.old }
    requires ready { IsReadyFor setting.now.image.now (at_of running.old at.old) pile.old (H.store heap.old) running.old.start (Call has_pins callee) }
    ensures went { Went setting.now.image.now (at_of running.old at.old) pile.old (H.store heap.old) (at_of running.new at.new) pile.new (H.store heap.new) result }
    ensures start { BeginsAt setting.now.bodies.now running.old → BeginsAt setting.now.bodies.now running.new }
{
    if at.turns == 0 {
        return Some(Exit::Spent);
    }
    let body = body_of(setting, callee);
    if !pile.has_room(body.room) {
        return Some(Exit::Crowded(body.room));
    }
    let caller = Caller {
        function: running.function,
        place: at.place + 1,
    };
    let Ok(()) = pin_behind(setting, heap, pile, caller, has_pins) else {
        return Some(Exit::NoMemory);
    };
    begin(setting, pile, caller, callee, body);
    at.turns -= 1;
    at.place = 0;
    running.function = callee;
    running.start = body.start;
    None
}

/// What a function gives, or null where it gives nothing.
#[inline(always)]
fn result_word(pile: &Pile, has_result: bool) -> Word
    requires { has_result ≡ true → 0 < length pile.now.operands }
    ensures { value_of result ≡ result_if has_result pile.now.operands }
{
    if has_result {
        pile.operand(0)
    } else {
        Word::null()
    }
}

/// Puts a result on the stack, if there is one.
#[inline(always)]
fn give_result(pile: &mut Pile, has_result: bool, word: Word)
    requires { has_result ≡ true → 0 < pile.old.room }
    ensures { pile.new ≡ if_given has_result (value_of word) pile.old }
{
    if has_result {
        pile.give(0, word);
    }
}

/// Returns to the caller, which unpins its values and goes on with the result, if there is one; or leaves,
/// where no caller waits.
#[inline(always)]
pub fn give_back<H: Heap>(
    setting: &Setting,
    heap: &mut H,
    running: &mut Running,
    pile: &mut Pile,
    at: &mut Counter,
    has_result: bool,
) -> Option<Exit>
    requires set { IsSet setting.now.image.now setting.now.bodies.now setting.now.layouts.now }
    requires inside { IsInside at.old }
    requires ready { IsReadyFor setting.now.image.now (at_of running.old at.old) pile.old (H.store heap.old) running.old.start (Return has_result) }
    ensures went { Went setting.now.image.now (at_of running.old at.old) pile.old (H.store heap.old) (at_of running.new at.new) pile.new (H.store heap.new) result }
    ensures start { BeginsAt setting.now.bodies.now running.old → BeginsAt setting.now.bodies.now running.new }
{
    let word = result_word(pile, has_result);
    if pile.is_last() {
        return Some(Exit::Gives(number_in(word)));
    }
    let caller = pile.leave();
    let body = body_of(setting, caller.function);
    unpin_behind(setting, heap, pile, caller, body);
    give_result(pile, has_result, word);
    running.function = caller.function;
    running.start = body.start;
    at.place = caller.place;
    None
}
