// The marks of the stores of functions.
ghost use Rattle.std.specs.Prelude.{◌≡◌, ◌++◌, List, IfOk, OnOk};
ghost use Rattle.rc_core.specs.Laid.{AreLaidOut};
ghost use Rattle.rc_core.specs.Programs.{Struct};
ghost use Rattle.rc_elim.specs.Masks.{marks_in};
ghost use Rattle.rc_rlang.specs.Counted.{AreLayouts};
ghost use Rattle.rc_rlang.specs.Shapes.{rlang_of, routine_in};
ghost use Rattle.rc_marks.specs.InOrder.{marks_in_order, routine_marks};

use rc_base::NoMemory;
use rc_core::Layouts;
use rc_elim::Mask;
use rc_reports::sites_by_points;
use rc_rlang::code::Routine;
use rc_rlang::rlang::Rlang;
use std::alloc::Global;

/// Adds the marks of the stores of the function of this number.
fn add_marks(
    alloc: Global,
    layouts: &Layouts,
    mask: &Mask,
    function: u32,
    routine: &Routine,
    out: &mut Vec<bool>,
) -> Result<(), NoMemory>
    requires laid { AreLayouts layouts.now }
    ensures { (structs : List Struct) → AreLaidOut structs layouts.now → OnOk result (out.new.items ≡ out.old.items ++ routine_marks (marks_in mask.now function) (routine_in structs routine.now)) }
{
    for site in sites_by_points(alloc, layouts, routine)?.as_slice() {
        out.push(mask.removed(function, site.point))?;
    }
    Ok(())
}

/// The marks of all stores to annotated cells, in the order in which the image of the code has them:
/// function after function, and in each by their points. It takes one walk.
///
/// # Errors
///
/// Out of memory.
pub fn marks_of(alloc: Global, code: &Rlang, mask: &Mask) -> Result<Vec<bool>, NoMemory>
    ensures { IfOk result (λ all. all.items ≡ marks_in_order (marks_in mask.now) (rlang_of code.now)) }
{
    let parts = code.parts();
    let layouts = code.layouts();
    let mut all = Vec::new(alloc);
    let mut number = 0u32;
    for routine in parts.functions.as_slice() {
        add_marks(alloc, layouts, mask, number, routine, &mut all)?;
        number = number.checked_add(1).ok_or(NoMemory)?;
    }
    Ok(all)
}
