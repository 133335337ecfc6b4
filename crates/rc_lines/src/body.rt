// What the code of a function is made over.
ghost use Rattle.std.specs.Prelude.{◌≡◌, ◌+◌, IfOk, true};
ghost use Rattle.rc_core.specs.Shapes.{ty_of};
ghost use Rattle.rc_emission.specs.StatementCode.{call_pins};
ghost use Rattle.rc_rlang.specs.LiveLists.{held_if};
ghost use Rattle.rc_rlang.specs.LiveMaps.{IsPoint};
ghost use Rattle.rc_rlang.specs.RegionRuns.{pins_from};
ghost use Rattle.rc_scope.specs.Names.{number_of};
ghost use Rattle.rc_lines.specs.Over.{deleting_in, types_in, slot_in, Listed};

use crate::keys::kept_key;
use rc_base::NoMemory;
use rc_core::Layouts;
use rc_core::ty::Ty;
use rc_rlang::code::{RegionParts, Routine};
use rc_rlang::live_map::LiveMap;
use rc_scope::Names;
use std::alloc::Global;

/// What the code of a function is made over. Its lines name what is of the program and of the lists of
/// live locals, and nothing of the layouts and the keys.
#[derive(Clone, Copy)]
pub struct Body<'a, 'k> {
    pub alloc: Global,
    /// The whole program.
    pub parts: &'a RegionParts,
    /// The layouts of its structs.
    pub layouts: &'k Layouts,
    /// The function.
    pub routine: &'a Routine,
    /// What is listed at deleting points.
    pub live: &'a LiveMap,
    /// The keys of the operands that the function keeps in locals.
    pub kept: &'k Names,
    /// The first of these locals.
    pub first: u32,
}

impl<'a, 'k> Body<'a, 'k> {
    /// Whether a function deletes.
    pub fn is_deleting(&self, function: u32) -> bool
        ensures { result ≡ deleting_in self.now function }
    {
        match self.parts.functions.get(function as usize) {
            Some(routine) => routine.deletes,
            None => false,
        }
    }

    /// The locals that are pinned while a function runs that is called at a point.
    pub fn pins(&self, function: u32, point: u32) -> &'a [u32]
        requires { deleting_in self.now function ≡ true → IsPoint self.now.live.now point }
        ensures { (live : _) → Listed self.now.live.now (held_if (deleting_in self.now) (types_in self.now) (deleting_in self.now function) point live) → result.now ≡ call_pins (deleting_in self.now function) (pins_from (types_in self.now) 0 live) }
    {
        if self.is_deleting(function) {
            return self.live.after(point);
        }
        &[]
    }

    /// The local for the operand of a key.
    fn local(&self, key: &[u8]) -> Result<u32, NoMemory>
        ensures { IfOk result (λ r. r ≡ self.now.first + number_of self.now.kept.now key.now) }
    {
        let number = match self.kept.find(key) {
            Some(number) => number,
            None => u32::try_from(self.kept.len()).map_err(|_| NoMemory)?,
        };
        Ok(self.first.checked_add(number).ok_or(NoMemory)?)
    }

    /// The local for an operand of the type at the height.
    pub fn slot(&self, height: usize, ty: &Ty) -> Result<u32, NoMemory>
        ensures { IfOk result (λ r. r ≡ slot_in self.now height (ty_of ty.now)) }
    {
        let key = kept_key(self.alloc, height, ty)?;
        self.local(key.as_slice())
    }
}
