// Reports.
ghost use Rattle.std.specs.Prelude.{◌≡◌, ℕ, List, IfOk};
ghost use Rattle.rc_outcomes.specs.Reporting.{MadeReport, WroteReport};

use rc_answers::{Done, Fault};
use rc_base::{NoMemory, Sink, write_all};

/// Writes a report, and flushes it.
fn write_report<O: Sink>(out: &mut O, report: &[u8]) -> Result<(), Fault>
    ensures { WroteReport report.now (O.state out.old) (O.state out.new) result }
{
    match write_all(out, report) {
        Ok(()) => match out.flush() {
            Ok(()) => Ok(()),
            Err(_) => Err(Fault::WriteFault),
        },
        Err(_) => Err(Fault::WriteFault),
    }
}

/// Writes a report, where there was memory to make it, and flushes it.
///
/// # Errors
///
/// `WriteFault`, or `Memory` where it was not made.
pub fn report<O: Sink>(out: &mut O, made: Result<Vec<u8>, NoMemory>) -> Result<Done, Fault>
    ensures { (bytes : List ℕ) → IfOk made (λ text. text.items ≡ bytes) → MadeReport bytes (O.state out.old) (O.state out.new) result }
{
    let Ok(text) = made else {
        return Err(Fault::Memory);
    };
    match write_report(out, text.as_slice()) {
        Ok(()) => Ok(Done::Reported),
        Err(fault) => Err(fault),
    }
}
