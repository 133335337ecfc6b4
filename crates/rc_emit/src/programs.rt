// Images of programs.
ghost use Rattle.std.specs.Prelude.{IfOk};
ghost use Rattle.rc_code.specs.Soundness.{Sound};
ghost use Rattle.rc_core.specs.Shapes.{program_of};
ghost use Rattle.rc_elab.specs.Counting.{Counts};
ghost use Rattle.rc_emit.specs.Compiled.{IsWithoutNeedlessChecks};
ghost use Rattle.rc_unchecked.specs.Images.{HasMeaningOf};
ghost use Rattle.rc_numbering.specs.Small.{IsSmall};
ghost use Rattle.rc_numbering.specs.Programs.{image_of_program};
ghost use Rattle.rc_rlang.specs.Shapes.{rlang_of};
ghost use Rattle.rc_unchecked.specs.Compiled.{IsCompiled};

use crate::emission::emit;
use rc_base::NoMemory;
use rc_code::Image;
use rc_core::program::Program;
use rc_elab::{ElabFault, elaborate};
use rc_elim::needless;
use rc_live::live;
use rc_rlang::rlang::Rlang;
use std::alloc::Global;

/// The image of region code in which exactly the checks are left out that facts prove needless.
///
/// # Errors
///
/// As `emit`.
fn without_needless_checks(alloc: Global, code: &Rlang) -> Result<Image, NoMemory>
    ensures { IfOk result (IsWithoutNeedlessChecks (rlang_of code.now)) }
{
    let lists = live(alloc, code)?;
    let mask = needless(alloc, code)?;
    emit(alloc, code, &lists, &mask)
}

/// The image of a program, which does what the program does. It may be run. Exactly those of its
/// stores have a mark, and make no check, whose checks facts prove needless.
///
/// # Errors
///
/// The line of the first function that has more than 128 region variables; more than 65,536 points;
/// out of memory. The last is the answer too where a count, a line or a place doesn't fit 32 bits.
pub fn compile_program(alloc: Global, program: &Program) -> Result<Image, ElabFault>
    ensures counts { Counts (program_of program.now) result }
    ensures compiled { IfOk result (IsCompiled (program_of program.now)) }
    ensures small { IfOk result (λ image. IsSmall (image_of_program (program_of program.now))) }
    ensures sound { IfOk result (λ image. Sound image) }
    ensures means { IfOk result (λ image. HasMeaningOf (program_of program.now) image) }
{
    let _parts = program.parts();
    let code = elaborate(alloc, program)?;
    match without_needless_checks(alloc, &code) {
        Ok(image) => Ok(image),
        Err(_fault) => Err(ElabFault::Memory),
    }
}
