// Locals that are pinned while a call runs.
ghost use Rattle.std.specs.Prelude.{◌≡◌, ◌≤◌, ◌<◌, ◌+◌, ◌++◌, ◌∷◌, [], true, OnOk, Contains, IsPermutation};
ghost use Rattle.rc_core.specs.Heap.{is_fresh};
ghost use Rattle.rc_code.specs.Running.{function_at, pinned, reading_of};
ghost use Rattle.rc_code.specs.Soundness.{instruction_at};
ghost use Rattle.rc_store.specs.Stores.{live_in};
ghost use Rattle.rc_store.specs.Values.{value_of};
ghost use Rattle.rc_steps.specs.Ready.{IsPinned, IsUnpinned, pins_of};
ghost use Rattle.rc_decode.specs.Decoding.{has_pins as has_some};
ghost use Rattle.rc_decode.specs.Whole.{IsBody};
ghost use Rattle.rc_steps.specs.ShortForms.{AreHeld};
ghost use Rattle.rc_calls.specs.Pinning.{AreLocals, fresh_of, pins_behind};

use rc_base::NoMemory;
use rc_code::{Image, Instruction};
use rc_decode::Body;
use rc_ops::Setting;
use rc_pile::{Caller, Pile};
use rc_store::{Cell, Heap};

/// The locals that the call at this place pins. None where there is no call.
#[inline(always)]
fn pins_at(image: &Image, function: u32, place: u32) -> &[u32]
    ensures { result.now ≡ pins_of (instruction_at (function_at (reading_of image.now) function) place) }
{
    let Some(function) = image.parts().functions.as_slice().get(function as usize) else {
        return &[];
    };
    match function.code.as_slice().get(place as usize) {
        Some(Instruction::Call(_, pins)) => pins.as_slice(),
        _ => &[],
    }
}

/// Whether a value names no dead region.
#[inline(always)]
pub fn is_fresh<H: Heap>(heap: &H, value: Cell) -> bool
    ensures { result ≡ is_fresh (live_in (H.store heap.now).regions) (value_of value) }
{
    match value {
        Cell::Number(_) => true,
        Cell::Nothing => true,
        Cell::Region(region) => heap.is_live(region),
        Cell::Pointer(pointer) => heap.is_live(pointer.region),
    }
}

/// Pins a value, where it names no dead region.
#[inline(always)]
fn pin_fresh<H: Heap>(heap: &mut H, value: Cell)
    requires { 0 < (H.store heap.old).spare }
    ensures pins { (H.store heap.new).pins ≡ (H.store heap.old).pins ++ fresh_of (live_in (H.store heap.old).regions) (value_of value ∷ []) }
    ensures spare { (H.store heap.old).spare ≤ (H.store heap.new).spare + 1 }
    ensures same { H.store heap.new ≡ record (H.store heap.old) { pins = (H.store heap.new).pins; spare = (H.store heap.new).spare } }
{
    if is_fresh(heap, value) {
        heap.pin(value);
    }
}

/// Takes a pin of a value away, where it names no dead region.
#[inline(always)]
fn unpin_fresh<H: Heap>(heap: &mut H, value: Cell)
    requires { is_fresh (live_in (H.store heap.old).regions) (value_of value) ≡ true → Contains (H.store heap.old).pins (value_of value) }
    ensures pins { IsPermutation (H.store heap.old).pins (fresh_of (live_in (H.store heap.old).regions) (value_of value ∷ []) ++ (H.store heap.new).pins) }
    ensures same { H.store heap.new ≡ record (H.store heap.old) { pins = (H.store heap.new).pins; spare = (H.store heap.new).spare } }
{
    if is_fresh(heap, value) {
        heap.unpin(value);
    }
}

/// Pins the values of these locals that name no dead region.
///
/// # Errors
///
/// Out of memory.
#[inline(always)]
pub fn pin_all<H: Heap>(heap: &mut H, pile: &Pile, pins: &[u32]) -> Result<(), NoMemory>
    requires { AreLocals pins.now pile.now }
    ensures { OnOk result (IsPinned (pinned pins.now pile.now.locals) (H.store heap.old) (H.store heap.new)) }
{
    let Ok(n) = u32::try_from(pins.len()) else {
        return Err(NoMemory);
    };
    heap.reserve_pins(n)?;
    for local in pins {
        let value = pile.local(*local).cell();
        pin_fresh(heap, value);
    }
    Ok(())
}

/// Takes the pins of these locals' values away, of those that name no dead region: the last one first, as
/// it was pinned last.
#[inline(always)]
pub fn unpin_all<H: Heap>(heap: &mut H, pile: &Pile, pins: &[u32])
    requires locals { AreLocals pins.now pile.now }
    requires held { AreHeld (pinned pins.now pile.now.locals) (H.store heap.old) }
    ensures { IsUnpinned (pinned pins.now pile.now.locals) (H.store heap.old) (H.store heap.new) }
{
    for i in (0..pins.len()).rev() {
        let value = pile.local(pins[i]).cell();
        unpin_fresh(heap, value);
    }
}

/// Pins the values that the call behind which a caller waits pins. It has pins, or none.
///
/// # Errors
///
/// Out of memory.
#[inline(always)]
pub(crate) fn pin_behind<H: Heap>(
    setting: &Setting,
    heap: &mut H,
    pile: &Pile,
    caller: Caller,
    has_pins: bool,
) -> Result<(), NoMemory>
    requires some { has_pins ≡ has_some (pins_behind (reading_of setting.now.image.now) caller) }
    requires locals { AreLocals (pins_behind (reading_of setting.now.image.now) caller) pile.now }
    ensures { OnOk result (IsPinned (pinned (pins_behind (reading_of setting.now.image.now) caller) pile.now.locals) (H.store heap.old) (H.store heap.new)) }
{
    if !has_pins {
        return Ok(());
    }
    let pins = pins_at(
        setting.image,
        caller.function,
        caller.place.saturating_sub(1),
    );
    pin_all(heap, pile, pins)
}

/// Takes the pins away that the call behind which a caller waits made. The caller's function may have
/// none.
#[inline(always)]
pub(crate) fn unpin_behind<H: Heap>(
    setting: &Setting,
    heap: &mut H,
    pile: &Pile,
    caller: Caller,
    body: &Body,
)
    requires body { IsBody setting.now.image.now body.now.start (function_at (reading_of setting.now.image.now) caller.function) body.now }
    requires locals { AreLocals (pins_behind (reading_of setting.now.image.now) caller) pile.now }
    requires held { AreHeld (pinned (pins_behind (reading_of setting.now.image.now) caller) pile.now.locals) (H.store heap.old) }
    ensures { IsUnpinned (pinned (pins_behind (reading_of setting.now.image.now) caller) pile.now.locals) (H.store heap.old) (H.store heap.new) }
{
    if !body.has_pins {
        return;
    }
    let pins = pins_at(
        setting.image,
        caller.function,
        caller.place.saturating_sub(1),
    );
    unpin_all(heap, pile, pins);
}
