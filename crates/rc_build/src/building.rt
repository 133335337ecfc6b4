// The image of a program, and of a text: that of its program.
ghost use Rattle.std.specs.Prelude.{IfOk};
ghost use Rattle.rc_core.specs.Shapes.{program_of};
ghost use Rattle.rc_build.specs.Built.{Builds, Finishes};
ghost use Rattle.rc_unchecked.specs.Images.{HasImage};

use rc_base::NoMemory;
use rc_code::{Image, Loaded};
use rc_compile::{CompileFault, too_much, typed_program};
use rc_core::program::Program;
use rc_emit::compile_program;
use std::alloc::Global;

/// The image of a program, in which exactly the checks are left out that facts prove needless. Where the program keeps within the bounds of points and region
/// variables, as that of a text does, it is refused for want of memory alone.
///
/// # Errors
///
/// Out of memory, which is said too of a program beyond those bounds.
pub fn image(alloc: Global, program: &Program) -> Result<Image, NoMemory>
    ensures { IfOk result (HasImage (program_of program.now)) }
{
    let _parts = program.parts();
    match compile_program(alloc, program) {
        Ok(image) => Ok(image),
        Err(_fault) => Err(NoMemory),
    }
}

/// The image of a program, in which exactly the checks are left out that facts prove needless.
///
/// # Errors
///
/// As `within_bounds` of rc_compile answers: too many region variables or points, or out of memory.
#[tactic(auto, using(crate::proofs::Finishing::not_finished))]
pub fn finish(alloc: Global, program: &Program) -> Result<Image, CompileFault>
    ensures { Finishes (program_of program.now) result }
{
    let _parts = program.parts();
    match compile_program(alloc, program) {
        Ok(image) => Ok(image),
        Err(fault) => Err(too_much(fault)),
    }
}

/// The image of a text's program, as `finish` makes it.
///
/// # Errors
///
/// The text's refusal, as `program` of rc_compile answers it, or out of memory.
#[tactic(auto, using(crate::proofs::Finishing::finished_text))]
pub fn compile(alloc: Global, text: &[u8]) -> Result<Image, CompileFault>
    ensures { Builds text.now result }
{
    let program = typed_program(alloc, text)?;
    finish(alloc, &program)
}

/// The same image, to be run.
///
/// # Errors
///
/// As `compile`.
pub fn ready(alloc: Global, text: &[u8]) -> Result<Loaded, CompileFault>
    ensures { Builds text.now result }
{
    let image = compile(alloc, text)?;
    Ok(Loaded::new(image))
}
