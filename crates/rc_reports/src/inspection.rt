// The report of a text.
ghost use Rattle.std.specs.Prelude.{IfOk};
ghost use Rattle.rc_compile.specs.Compiles.{KeepsWithin};
ghost use Rattle.rc_core.specs.Shapes.{program_of};
ghost use Rattle.rc_reports.specs.Inspected.{Inspects, IsReportOf};
ghost use Rattle.rc_reports.specs.Reports.{IsReport};
ghost use Rattle.rc_rlang.specs.Shapes.{rlang_of};

use crate::entry::{Entry, entries};
use rc_base::NoMemory;
use rc_compile::{CompileFault, too_much, typed_program};
use rc_core::program::Program;
use rc_elab::elaborate;
use rc_elim::needless;
use rc_rlang::rlang::Rlang;
use std::alloc::Global;

/// The report of region code.
fn report_of(alloc: Global, code: &Rlang) -> Result<Vec<Entry>, NoMemory>
    ensures { IfOk result (λ all. IsReport (rlang_of code.now) all.items) }
{
    let mask = needless(alloc, code)?;
    entries(alloc, code, &mask)
}

/// The report of a program. Where the program keeps within the bounds of points and region variables, as
/// that of a text does, it is refused for want of memory alone.
///
/// # Errors
///
/// Out of memory, which is said too of a program beyond those bounds.
pub fn report(alloc: Global, program: &Program) -> Result<Vec<Entry>, NoMemory>
    ensures { IfOk result (λ all. IsReportOf (program_of program.now) all.items) }
{
    let Ok(code) = elaborate(alloc, program) else {
        return Err(NoMemory);
    };
    report_of(alloc, &code)
}

/// The report of a program, or what it needs too much of.
fn counted_report(alloc: Global, program: &Program) -> Result<Vec<Entry>, CompileFault>
    ensures within { KeepsWithin (program_of program.now) result }
    ensures is { IfOk result (λ all. IsReportOf (program_of program.now) all.items) }
{
    let code = match elaborate(alloc, program) {
        Ok(code) => code,
        Err(fault) => return Err(too_much(fault)),
    };
    match report_of(alloc, &code) {
        Ok(all) => Ok(all),
        Err(_) => Err(CompileFault::Memory),
    }
}

/// What the report of a text's program says of each store to an annotated cell, in the order of the text.
///
/// # Errors
///
/// The text's refusal, as `program` of rc_compile answers it, or out of memory.
#[tactic(auto, using(crate::proofs::Inspecting::inspected))]
pub fn inspect(alloc: Global, text: &[u8]) -> Result<Vec<Entry>, CompileFault>
    ensures { Inspects text.now result }
{
    let program = typed_program(alloc, text)?;
    counted_report(alloc, &program)
}
