// From programs to region code.

ghost use Rattle.rc_core.specs.Shapes.{program_of};
ghost use Rattle.rc_elab.specs.Counting.{Counts};
ghost use Rattle.rc_elab.specs.Elaborating.{Means, Translates};

use crate::counting::{count_laid, layouts_of};
use crate::fault::ElabFault;
use rc_core::program::Program;
use rc_rlang::rlang::Rlang;
use rc_routines::region_parts;
use std::alloc::Global;

/// The region code of the program, which does what the program does.
///
/// # Errors
///
/// The line of the first function that has more than 128 region variables; more than 65,536 points;
/// out of memory.
pub fn elaborate(alloc: Global, program: &Program) -> Result<Rlang, ElabFault>
    ensures counts { Counts (program_of program.now) result }
    ensures translates { Translates (program_of program.now) result }
    ensures means { Means (program_of program.now) result }
{
    let _parts = program.parts();
    let layouts = layouts_of(alloc, program)?;
    count_laid(program, &layouts)?;
    let parts = match region_parts(alloc, program, &layouts) {
        Ok(parts) => parts,
        Err(_) => return Err(ElabFault::Memory),
    };
    Ok(Rlang::new(parts, layouts))
}
