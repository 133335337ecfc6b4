// Deletions.
ghost use Rattle.std.specs.Prelude.{◌≡◌, ◌<◌, false, length};
ghost use Rattle.std.specs.List.{list_any};
ghost use Rattle.rc_core.specs.Evaluation.{local_at};
ghost use Rattle.rc_core.specs.Heap.{names};
ghost use Rattle.rc_code.specs.Running.{function_at, pinned, reading_of};
ghost use Rattle.rc_code.specs.Soundness.{instruction_at};
ghost use Rattle.rc_store.specs.Stores.{IsLive};
ghost use Rattle.rc_decode.specs.declared.op.Op.TheVariants.{Other};
ghost use Rattle.rc_decode.specs.declared.op.Other.TheVariants.{Delete};
ghost use Rattle.rc_steps.specs.ShortForms.{IsReadyFor};
ghost use Rattle.rc_ops.specs.Going.{IsInside, Went, at_of};
ghost use Rattle.rc_calls.specs.Pinning.{AreLocals};
ghost use Rattle.rc_cell_ops.specs.Deleting.{Frees, deleting_pins};

use rc_base::{Steps, Trap};
use rc_calls::{live_region, pin_all, unpin_all};
use rc_code::{Image, Instruction};
use rc_ops::{Counter, Exit, Running, Setting};
use rc_pile::Pile;
use rc_store::{Denied, Heap};

/// The locals that the deletion at this place pins. None where there is no deletion.
#[inline(always)]
fn deleting_pins(image: &Image, function: u32, place: u32) -> &[u32]
    ensures { result.now ≡ deleting_pins (instruction_at (function_at (reading_of image.now) function) place) }
{
    let Some(function) = image.parts().functions.as_slice().get(function as usize) else {
        return &[];
    };
    match function.code.as_slice().get(place as usize) {
        Some(Instruction::Delete(pins)) => pins.as_slice(),
        _ => &[],
    }
}

/// Whether a local names a region.
#[inline(always)]
fn names(pile: &Pile, local: u32, region: u32) -> bool
    requires { local < length pile.now.locals }
    ensures { result ≡ names region (local_at pile.now.locals local) }
{
    pile.local(local).cell().names(region)
}

/// Whether one of these locals names a region.
#[inline(always)]
fn names_any(pile: &Pile, pins: &[u32], region: u32) -> bool
    requires { AreLocals pins.now pile.now }
    ensures { result ≡ list_any (λ x. names region (local_at pile.now.locals x)) pins.now }
{
    for local in pins {
        if names(pile, *local, region) {
            return true;
        }
    }
    false
}

/// Deletes a live region that none of these locals names, so that pins of theirs wouldn't hinder it.
///
/// # Errors
///
/// The trap of a region that must stay.
#[inline(always)]
fn free_unnamed<H: Heap>(
    heap: &mut H,
    _pile: &Pile,
    _pins: &[u32],
    region: u32,
    steps: &mut Steps<H::Counter>,
) -> Result<(), Exit>
    requires live { IsLive (H.store heap.old) region }
    requires unnamed { list_any (names region) (pinned _pins.now _pile.now.locals) ≡ false }
    ensures { Frees (pinned _pins.now _pile.now.locals) region (H.store heap.old) (H.store heap.new) result }
{
    match heap.delete(region, steps) {
        Ok(()) => Ok(()),
        Err(Denied::Root) => Err(Exit::Trapped(Trap::Root)),
        Err(Denied::Subregion) => Err(Exit::Trapped(Trap::Subregion)),
        Err(Denied::Reference) => Err(Exit::Trapped(Trap::Reference)),
    }
}

/// Deletes a live region while these locals are pinned. One of them names it, so that it has to stay: which
/// trap that is depends on what else there is.
///
/// # Errors
///
/// The trap of a region that must stay. Or out of memory.
#[inline(always)]
fn free_pinned<H: Heap>(
    heap: &mut H,
    pile: &Pile,
    pins: &[u32],
    region: u32,
    steps: &mut Steps<H::Counter>,
) -> Result<(), Exit>
    requires locals { AreLocals pins.now pile.now }
    requires live { IsLive (H.store heap.old) region }
    ensures { Frees (pinned pins.now pile.now.locals) region (H.store heap.old) (H.store heap.new) result }
{
    let Ok(()) = pin_all(heap, pile, pins) else {
        return Err(Exit::NoMemory);
    };
    match heap.delete(region, steps) {
        Ok(()) => {
            unpin_all(heap, pile, pins);
            Ok(())
        }
        Err(Denied::Root) => Err(Exit::Trapped(Trap::Root)),
        Err(Denied::Subregion) => Err(Exit::Trapped(Trap::Subregion)),
        Err(Denied::Reference) => Err(Exit::Trapped(Trap::Reference)),
    }
}

/// Deletes a live region as if these locals were pinned.
///
/// # Errors
///
/// The trap of a region that must stay. Or out of memory.
#[inline(always)]
fn free<H: Heap>(
    heap: &mut H,
    pile: &Pile,
    pins: &[u32],
    region: u32,
    steps: &mut Steps<H::Counter>,
) -> Result<(), Exit>
    requires locals { AreLocals pins.now pile.now }
    requires live { IsLive (H.store heap.old) region }
    ensures { Frees (pinned pins.now pile.now.locals) region (H.store heap.old) (H.store heap.new) result }
{
    if names_any(pile, pins, region) {
        free_pinned(heap, pile, pins, region, steps)
    } else {
        free_unnamed(heap, pile, pins, region, steps)
    }
}

/// Deletes the region on the stack.
#[inline(always)]
pub fn delete<H: Heap>(
    setting: &Setting,
    heap: &mut H,
    running: Running,
    pile: &mut Pile,
    at: &mut Counter,
    _operand: u32,
    steps: &mut Steps<H::Counter>,
) -> Option<Exit>
    requires inside { IsInside at.old }
    requires ready { IsReadyFor setting.now.image.now (at_of running at.old) pile.old (H.store heap.old) running.start (Other Delete _operand) }
    ensures { Went setting.now.image.now (at_of running at.old) pile.old (H.store heap.old) (at_of running at.new) pile.new (H.store heap.new) result }
{
    let region = match live_region(heap, pile.operand(0)) {
        Ok(region) => region,
        Err(exit) => return Some(exit),
    };
    let pins = deleting_pins(setting.image, running.function, at.place);
    match free(heap, pile, pins, region, steps) {
        Ok(()) => {
            pile.take(1);
            at.place += 1;
            None
        }
        Err(exit) => Some(exit),
    }
}
