// A program that is made ready.
ghost use Rattle.std.specs.Prelude.{IfOk};
ghost use Rattle.rc_core.specs.Shapes.{program_of};
ghost use Rattle.rc_driver.specs.Soaking.{IsMadeOf};

use rc_base::NoMemory;
use rc_build::image;
use rc_code::Loaded;
use rc_core::program::Program;
use rc_reports::{Entry, report};
use std::alloc::Global;

/// What is made of a program: its image, to be run; the entries of its report; and how many functions
/// it has.
#[derive(Drop)]
pub(crate) struct Made {
    pub(crate) code: Loaded,
    pub(crate) entries: Vec<Entry>,
    pub(crate) functions: u64,
}

/// Makes a program ready.
///
/// # Errors
///
/// Out of memory.
pub(crate) fn make(alloc: Global, program: &Program) -> Result<Made, NoMemory>
    ensures { IfOk result (λ made. IsMadeOf (program_of program.now) made) }
{
    let code = Loaded::new(image(alloc, program)?);
    let entries = report(alloc, program)?;
    let functions = program.parts().functions.len() as u64;
    Ok(Made {
        code,
        entries,
        functions,
    })
}
