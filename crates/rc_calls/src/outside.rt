// Bytes that are written and asked for.
ghost use Rattle.std.specs.Prelude.{◌≡◌, ◌∷◌, [], IfOk, IsTrue, OnErr, OnOk};
ghost use Rattle.rc_base.specs.Acts.{Gave, Getchar};
ghost use Rattle.rc_base.specs.Causes.{HasCause};
ghost use Rattle.rc_decode.specs.declared.op.Op.TheVariants.{Other};
ghost use Rattle.rc_decode.specs.declared.op.Other.TheVariants.{GetChar, PutChar};
ghost use Rattle.rc_steps.specs.Leads.{next_of};
ghost use Rattle.rc_steps.specs.Ready.{IsNextByte};
ghost use Rattle.rc_steps.specs.ShortForms.{IsReadyFor};
ghost use Rattle.rc_ops.specs.Going.{IsInside, at_of};
ghost use Rattle.rc_calls.specs.Outside.{Gets, HasExitCause, Heard, PutsByte};

use rc_base::{Failed, Sink, Source};
use rc_core::byte_of;
use rc_ops::{Counter, Exit, Running, Setting};
use rc_pile::Pile;
use rc_store::Heap;

/// Writes the topmost operand's byte, which stays on the stack.
#[inline(always)]
pub fn put_char<H: Heap, O: Sink>(
    _setting: &Setting,
    _heap: &H,
    running: Running,
    pile: &mut Pile,
    at: &mut Counter,
    out: &mut O,
    _operand: u32,
) -> Option<Exit>
    requires inside { IsInside at.old }
    requires ready { IsReadyFor _setting.now.image.now (at_of running at.old) pile.old (H.store _heap.now) running.start (Other PutChar _operand) }
    ensures went { PutsByte _setting.now.image.now (at_of running at.old) pile.old (H.store _heap.now) (O.state out.old) (O.state out.new) (at_of running at.new) pile.new result }
    ensures tells { (O.state out.new).tells ≡ (O.state out.old).tells }
    ensures unflushed { IsTrue (O.state out.old).tells → (O.state out.new).flushed ≡ (O.state out.old).flushed }
    ensures cause { HasExitCause (O.state out.old).faults (O.state out.new).faults result }
{
    let byte = byte_of(pile.number(0));
    match out.put(byte) {
        Ok(()) => {
            pile.give_number(1, byte as i64);
            at.place += 1;
            None
        }
        Err(_) => Some(Exit::WriteFault),
    }
}

/// The value of `getchar`.
fn ask<S: Source>(input: &mut S) -> Result<i64, Failed>
    ensures asks { IsTrue (S.state input.old).tells → IfOk result (λ n. next_of (S.state input.old).rest ≡ n) }
    ensures byte { IfOk result (λ n. IsNextByte n) }
    ensures heard { IfOk result (λ n. Heard n (S.state input.old).ended (S.state input.new).ended) }
    ensures gave { OnOk result (Gave (Getchar ∷ []) (S.state input.old) (S.state input.new)) }
    ensures same { OnErr result (Gave [] (S.state input.old) (S.state input.new)) }
    ensures tells { (S.state input.new).tells ≡ (S.state input.old).tells }
    ensures cause { HasCause (S.state input.old).faults (S.state input.new).faults result }
{
    match input.next() {
        Ok(None) => Ok(-1),
        Ok(Some(byte)) => Ok(byte as i64),
        Err(failed) => Err(failed),
    }
}

/// Asks for a byte, and puts it on the stack, or -1 where there is none.
#[inline(always)]
pub fn get_char<H: Heap, S: Source>(
    _setting: &Setting,
    _heap: &H,
    running: Running,
    pile: &mut Pile,
    at: &mut Counter,
    input: &mut S,
    _operand: u32,
) -> Option<Exit>
    requires inside { IsInside at.old }
    requires ready { IsReadyFor _setting.now.image.now (at_of running at.old) pile.old (H.store _heap.now) running.start (Other GetChar _operand) }
    ensures went { Gets _setting.now.image.now (at_of running at.old) pile.old (H.store _heap.now) (S.state input.old) (S.state input.new) (at_of running at.new) pile.new result }
    ensures tells { (S.state input.new).tells ≡ (S.state input.old).tells }
    ensures cause { HasExitCause (S.state input.old).faults (S.state input.new).faults result }
{
    match ask(input) {
        Ok(n) => {
            pile.give_number(0, n);
            at.place += 1;
            None
        }
        Err(_) => Some(Exit::ReadFault),
    }
}
