// What a report says of each store.
ghost use Rattle.std.specs.Prelude.{◌≡◌, ◌++◌, List, IfOk, OnOk, map};
ghost use Rattle.rc_core.specs.Laid.{AreLaidOut};
ghost use Rattle.rc_core.specs.Programs.{Struct};
ghost use Rattle.rc_elim.specs.Masks.{marks_in};
ghost use Rattle.rc_rlang.specs.Counted.{AreLayouts};
ghost use Rattle.rc_rlang.specs.Shapes.{rlang_of, routine_in};
ghost use Rattle.rc_reports.specs.Listed.{listed};
ghost use Rattle.rc_reports.specs.Reports.{entries, entry_of};

use crate::listing::sites;
use rc_base::NoMemory;
use rc_core::Layouts;
use rc_core::ty::Note;
use rc_elim::Mask;
use rc_rlang::code::Routine;
use rc_rlang::rlang::Rlang;
use std::alloc::Global;

/// What a report says of a store: its line, the annotation of its cell, and whether its check is removed.
#[derive(Clone, Copy, Debug, PartialEq, Eq)]
pub struct Entry {
    pub line: u32,
    pub note: Note,
    pub removed: bool,
}

/// Adds what is said of the stores of the function of this number.
fn add_entries(
    alloc: Global,
    layouts: &Layouts,
    mask: &Mask,
    function: u32,
    routine: &Routine,
    out: &mut Vec<Entry>,
) -> Result<(), NoMemory>
    requires laid { AreLayouts layouts.now }
    ensures { (structs : List Struct) → AreLaidOut structs layouts.now → OnOk result (out.new.items ≡ out.old.items ++ map (entry_of (marks_in mask.now function)) (listed (routine_in structs routine.now).body 1)) }
{
    for site in sites(alloc, layouts, routine)?.as_slice() {
        out.push(Entry {
            line: site.line,
            note: site.note,
            removed: mask.removed(function, site.point),
        })?;
    }
    Ok(())
}

/// What the report of region code says of each store to an annotated cell, in the order of the text,
/// where the marked checks are removed.
///
/// # Errors
///
/// Out of memory.
pub fn entries(alloc: Global, code: &Rlang, mask: &Mask) -> Result<Vec<Entry>, NoMemory>
    ensures { IfOk result (λ all. all.items ≡ entries (marks_in mask.now) (rlang_of code.now)) }
{
    let parts = code.parts();
    let layouts = code.layouts();
    let mut all = Vec::new(alloc);
    let mut number = 0u32;
    for routine in parts.functions.as_slice() {
        add_entries(alloc, layouts, mask, number, routine, &mut all)?;
        number = number.checked_add(1).ok_or(NoMemory)?;
    }
    Ok(all)
}
