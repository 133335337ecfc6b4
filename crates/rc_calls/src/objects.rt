// Objects and pointers.
ghost use Rattle.std.specs.Prelude.{int_le, ◌≡◌, ◌≤◌, ◌<◌, ◌+◌, ℕ, false, true, length, pos, suc, unsigned_abs, IsTrue, MatchOption};
ghost use Rattle.rc_core.specs.Evaluation.{toward};
ghost use Rattle.rc_core.specs.Shapes.{kinds_in};
ghost use Rattle.rc_core.specs.Source.{is_index};
ghost use Rattle.rc_core.specs.Typing.{fits};
ghost use Rattle.rc_core.specs.declared.ty.NumberType.TheVariants.{Int};
ghost use Rattle.rc_core.specs.declared.ty.Signedness.{Signedness};
ghost use Rattle.rc_code.specs.Running.{layout_at, reading_of};
ghost use Rattle.rc_store.specs.Stores.{IsLive};
ghost use Rattle.rc_decode.specs.declared.op.Op.TheVariants.{Other};
ghost use Rattle.rc_decode.specs.declared.op.Other.TheVariants.{Allocate, AllocateArray, RegionOf};
ghost use Rattle.rc_steps.specs.Ready.{IsReadyToAllocate, IsReadyToMove};
ghost use Rattle.rc_steps.specs.ShortForms.{IsReadyFor};
ghost use Rattle.rc_ops.specs.Going.{IsInside, Went, at_of};
ghost use Rattle.rc_calls.specs.Setting.{IsSet};

use crate::found::{live_pointer, live_region};
use rc_base::Trap;
use rc_core::layout::Layout;
use rc_core::operators::Direction;
use rc_ops::{Counter, Exit, Running, Setting};
use rc_pile::{Pile, Word};
use rc_store::{Heap, MakeFault, Pointer};

/// The region that a pointer leads into.
#[inline(always)]
pub fn region_of<H: Heap>(
    _setting: &Setting,
    _heap: &H,
    running: Running,
    pile: &mut Pile,
    at: &mut Counter,
    _operand: u32,
) -> Option<Exit>
    requires inside { IsInside at.old }
    requires ready { IsReadyFor _setting.now.image.now (at_of running at.old) pile.old (H.store _heap.now) running.start (Other RegionOf _operand) }
    ensures { Went _setting.now.image.now (at_of running at.old) pile.old (H.store _heap.now) (at_of running at.new) pile.new (H.store _heap.now) result }
{
    let word = pile.operand(0);
    if word.leads_nowhere() {
        return Some(Exit::Trapped(Trap::Null));
    }
    let pointer = word.pointer();
    pile.give(1, Word::of_region(pointer.region));
    at.place += 1;
    None
}

/// The layout of a type.
#[inline(always)]
fn layout_of<'a>(setting: &Setting<'a>, type_number: u32) -> &'a Layout
    requires set { IsSet setting.now.image.now setting.now.bodies.now setting.now.layouts.now }
    requires known { type_number < length setting.now.image.now.types }
    ensures { kinds_in result.now ≡ layout_at (reading_of setting.now.image.now) type_number }
{
    &setting.layouts[type_number as usize]
}

/// An object to be made: so many elements of a type in a region. Its address comes in place of so many
/// operands.
#[derive(Clone, Copy)]
struct Wanted {
    operands: u32,
    region: u32,
    type_number: u32,
    count: i64,
}

/// How many elements that are, which isn't negative.
#[inline(always)]
fn elements(count: i64) -> u32
    requires fits { IsTrue (fits Int count) }
    requires there { int_le (pos 0) count ≡ true }
    ensures { result ≡ unsigned_abs count }
{
    count as u32
}

/// Makes an object in a live region, and puts its address on the stack.
#[inline(always)]
fn make<H: Heap>(
    setting: &Setting,
    heap: &mut H,
    running: Running,
    pile: &mut Pile,
    at: &mut Counter,
    wanted: Wanted,
) -> Option<Exit>
    requires set { IsSet setting.now.image.now setting.now.bodies.now setting.now.layouts.now }
    requires inside { IsInside at.old }
    requires some { 0 < wanted.operands }
    requires there { wanted.operands ≤ length pile.old.operands }
    requires live { IsLive (H.store heap.old) wanted.region }
    requires known { wanted.type_number < length setting.now.image.now.types }
    requires fits { IsTrue (fits Int wanted.count) }
    requires ready { IsReadyToAllocate setting.now.image.now (at_of running at.old) pile.old (H.store heap.old) wanted.operands wanted.type_number wanted.count wanted.region }
    ensures { Went setting.now.image.now (at_of running at.old) pile.old (H.store heap.old) (at_of running at.new) pile.new (H.store heap.new) result }
{
    if wanted.count < 0 {
        return Some(Exit::Trapped(Trap::Size));
    }
    let layout = layout_of(setting, wanted.type_number);
    match heap.allocate(wanted.region, layout, elements(wanted.count)) {
        Ok(object) => {
            let pointer = Pointer {
                region: wanted.region,
                object,
                index: 0,
            };
            pile.give(wanted.operands, Word::of_pointer(pointer));
            at.place += 1;
            None
        }
        Err(MakeFault::Full) => Some(Exit::Trapped(Trap::Full)),
        Err(MakeFault::Memory) => Some(Exit::NoMemory),
    }
}

/// Makes an object of one element in the region on the stack.
#[inline(always)]
pub fn allocate<H: Heap>(
    setting: &Setting,
    heap: &mut H,
    running: Running,
    pile: &mut Pile,
    at: &mut Counter,
    type_number: u32,
) -> Option<Exit>
    requires set { IsSet setting.now.image.now setting.now.bodies.now setting.now.layouts.now }
    requires inside { IsInside at.old }
    requires ready { IsReadyFor setting.now.image.now (at_of running at.old) pile.old (H.store heap.old) running.start (Other Allocate type_number) }
    ensures { Went setting.now.image.now (at_of running at.old) pile.old (H.store heap.old) (at_of running at.new) pile.new (H.store heap.new) result }
{
    match live_region(heap, pile.operand(0)) {
        Ok(region) => {
            let wanted = Wanted {
                operands: 1,
                region,
                type_number,
                count: 1,
            };
            make(setting, heap, running, pile, at, wanted)
        }
        Err(exit) => Some(exit),
    }
}

/// Makes an object of as many elements as the `int` on the stack says, in the region below it.
#[inline(always)]
pub fn allocate_array<H: Heap>(
    setting: &Setting,
    heap: &mut H,
    running: Running,
    pile: &mut Pile,
    at: &mut Counter,
    type_number: u32,
) -> Option<Exit>
    requires set { IsSet setting.now.image.now setting.now.bodies.now setting.now.layouts.now }
    requires inside { IsInside at.old }
    requires ready { IsReadyFor setting.now.image.now (at_of running at.old) pile.old (H.store heap.old) running.start (Other AllocateArray type_number) }
    ensures { Went setting.now.image.now (at_of running at.old) pile.old (H.store heap.old) (at_of running at.new) pile.new (H.store heap.new) result }
{
    let count = pile.number(0);
    match live_region(heap, pile.operand(1)) {
        Ok(region) => {
            let wanted = Wanted {
                operands: 2,
                region,
                type_number,
                count,
            };
            make(setting, heap, running, pile, at, wanted)
        }
        Err(exit) => Some(exit),
    }
}

/// A number of elements forwards or backwards.
#[inline(always)]
fn toward(direction: Direction, n: i64) -> i128
    ensures { result ≡ toward direction n }
{
    match direction {
        Direction::Forward => n as i128,
        Direction::Backward => -(n as i128),
    }
}

/// An index, where it is from 0 to below the count.
#[inline(always)]
pub fn index_below(index: i128, count: u64) -> Option<u32>
    requires { count ≤ 4294967296 }
    ensures { MatchOption result (is_index index count ≡ false) (λ i. (is_index index count ≡ true) × (i ≡ unsigned_abs index)) }
{
    if index < 0 {
        return None;
    }
    if index >= count as i128 {
        return None;
    }
    Some(index as u32)
}

/// Moves a pointer by elements.
#[inline(always)]
pub fn move_pointer<H: Heap>(
    _setting: &Setting,
    heap: &H,
    running: Running,
    pile: &mut Pile,
    at: &mut Counter,
    direction: Direction,
) -> Option<Exit>
    requires inside { IsInside at.old }
    requires ready { (t : ℕ) × (s : Signedness) × IsReadyToMove _setting.now.image.now (at_of running at.old) pile.old (H.store heap.now) t s direction }
    ensures { Went _setting.now.image.now (at_of running at.old) pile.old (H.store heap.now) (at_of running at.new) pile.new (H.store heap.now) result }
{
    let n = pile.number(0);
    match live_pointer(heap, pile.operand(1)) {
        Err(miss) => Some(miss.exit()),
        Ok(pointer) => {
            let count = heap.elements(pointer.region, pointer.object) as u64;
            let moved = pointer.index as i128 + toward(direction, n);
            let Some(index) = index_below(moved, count + 1) else {
                return Some(Exit::Trapped(Trap::Bounds));
            };
            let to = Pointer {
                region: pointer.region,
                object: pointer.object,
                index,
            };
            pile.give(2, Word::of_pointer(to));
            at.place += 1;
            None
        }
    }
}
