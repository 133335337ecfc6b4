// New regions.
ghost use Rattle.std.specs.Prelude.{◌≡◌, ◌<◌, ◌≤◌, ◌+◌, length};
ghost use Rattle.rc_decode.specs.declared.op.Op.TheVariants.{Other};
ghost use Rattle.rc_decode.specs.declared.op.Other.TheVariants.{NewRegion, NewSubregion};
ghost use Rattle.rc_store.specs.Stores.{IsLive};
ghost use Rattle.rc_steps.specs.Ready.{IsReadyToMake};
ghost use Rattle.rc_steps.specs.ShortForms.{IsReadyFor};
ghost use Rattle.rc_ops.specs.Going.{IsInside, Went, at_of};

use crate::found::live_region;
use rc_base::Trap;
use rc_ops::{Counter, Exit, Running, Setting};
use rc_pile::{Pile, Word};
use rc_store::{Heap, MakeFault};

/// Makes a region below a live one, and puts it in place of so many operands.
#[inline(always)]
fn make<H: Heap>(
    _setting: &Setting,
    heap: &mut H,
    running: Running,
    pile: &mut Pile,
    at: &mut Counter,
    operands: u32,
    parent: u32,
) -> Option<Exit>
    requires inside { IsInside at.old }
    requires live { IsLive (H.store heap.old) parent }
    requires there { operands ≤ length pile.old.operands }
    requires room { 0 < pile.old.room + operands }
    requires ready { IsReadyToMake _setting.now.image.now (at_of running at.old) pile.old (H.store heap.old) operands parent }
    ensures { Went _setting.now.image.now (at_of running at.old) pile.old (H.store heap.old) (at_of running at.new) pile.new (H.store heap.new) result }
{
    match heap.new_region(parent) {
        Ok(region) => {
            pile.give(operands, Word::of_region(region));
            at.place += 1;
            None
        }
        Err(MakeFault::Full) => Some(Exit::Trapped(Trap::Full)),
        Err(MakeFault::Memory) => Some(Exit::NoMemory),
    }
}

/// Makes a region below the traditional one.
#[inline(always)]
pub fn new_region<H: Heap>(
    setting: &Setting,
    heap: &mut H,
    running: Running,
    pile: &mut Pile,
    at: &mut Counter,
    _operand: u32,
) -> Option<Exit>
    requires inside { IsInside at.old }
    requires ready { IsReadyFor setting.now.image.now (at_of running at.old) pile.old (H.store heap.old) running.start (Other NewRegion _operand) }
    ensures { Went setting.now.image.now (at_of running at.old) pile.old (H.store heap.old) (at_of running at.new) pile.new (H.store heap.new) result }
{
    make(setting, heap, running, pile, at, 0, 0)
}

/// Makes a region below the one on the stack.
#[inline(always)]
pub fn new_subregion<H: Heap>(
    setting: &Setting,
    heap: &mut H,
    running: Running,
    pile: &mut Pile,
    at: &mut Counter,
    _operand: u32,
) -> Option<Exit>
    requires inside { IsInside at.old }
    requires ready { IsReadyFor setting.now.image.now (at_of running at.old) pile.old (H.store heap.old) running.start (Other NewSubregion _operand) }
    ensures { Went setting.now.image.now (at_of running at.old) pile.old (H.store heap.old) (at_of running at.new) pile.new (H.store heap.new) result }
{
    match live_region(heap, pile.operand(0)) {
        Ok(parent) => make(setting, heap, running, pile, at, 1, parent),
        Err(exit) => Some(exit),
    }
}
