// The checks that facts prove needless.
ghost use Rattle.std.specs.Prelude.{◌≡◌, ◌<◌, IfOk, length};
ghost use Rattle.rc_rlang.specs.IsRlang.{IsRlang};
ghost use Rattle.rc_rlang.specs.Shapes.{rlang_of};
ghost use Rattle.rc_edges.specs.Heads.{Inferred};
ghost use Rattle.rc_elim.specs.Marking.{AreMarked, IsMarked};
ghost use Rattle.rc_elim.specs.Masks.{HasPoints, MarksRemovable, marks_in, rows_of};

use crate::mask::Mask;
use crate::walking::{Way, proven};
use rc_base::NoMemory;
use rc_edges::Facts;
use rc_rlang::code::RegionParts;
use rc_rlang::rlang::Rlang;
use std::alloc::Global;

/// The marks of the function of this number, by what is known before its points.
fn function_marks(
    alloc: Global,
    _parts: &RegionParts,
    facts: &Facts,
    function: usize,
) -> Result<Vec<bool>, NoMemory>
    requires code { IsRlang (rlang_of _parts.now) }
    requires inferred { Inferred _parts.now facts.now }
    requires there { function < length _parts.now.functions.items }
    ensures { (inferred : Inferred _parts.now facts.now) → IfOk result (λ bits. IsMarked _parts.now inferred.family function bits.items) }
{
    let way = Way {
        alloc,
        graph: &facts.graphs[function],
        exits: facts.exits.as_slice(),
    };
    proven(&way, facts.points[function].as_slice())
}

/// The marks of all functions.
fn all_marks(alloc: Global, parts: &RegionParts, facts: &Facts) -> Result<Vec<Vec<bool>>, NoMemory>
    requires code { IsRlang (rlang_of parts.now) }
    requires inferred { Inferred parts.now facts.now }
    ensures { (inferred : Inferred parts.now facts.now) → IfOk result (λ rows. AreMarked parts.now inferred.family (length parts.now.functions.items) (rows_of rows.items)) }
{
    let mut rows = Vec::new(alloc);
    for function in 0..parts.functions.len() {
        let row = function_marks(alloc, parts, facts, function)?;
        rows.push(row)?;
    }
    Ok(rows)
}

/// The mask of the stores whose checks may go: those that some consistent annotation of the code with
/// facts proves needless, and no others. The facts are those that are inferred of the code.
///
/// # Errors
///
/// Out of memory.
pub fn removable(alloc: Global, code: &Rlang, facts: &Facts) -> Result<Mask, NoMemory>
    requires { Inferred code.now facts.now }
    ensures points { IfOk result (HasPoints (rlang_of code.now)) }
    ensures marks { IfOk result (λ mask. MarksRemovable (rlang_of code.now) (marks_in mask)) }
{
    let rows = all_marks(alloc, code.parts(), facts)?;
    Ok(Mask { rows })
}
