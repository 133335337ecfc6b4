// The flush behind a run.
ghost use Rattle.rc_outcomes.specs.Runs.{FlushedBehind};

use rc_answers::{Done, Fault};
use rc_base::{RunFault, Sink};

/// Flushes the output behind a run, but behind a byte that couldn't be written.
///
/// # Errors
///
/// The fault of the run, or `WriteFault` where the run came to its end and the flush failed.
pub fn flush_behind<O: Sink>(out: &mut O, ended: Result<Done, RunFault>) -> Result<Done, Fault>
    ensures { FlushedBehind (O.state out.old) (O.state out.new) ended result }
{
    match ended {
        Ok(done) => match out.flush() {
            Ok(()) => Ok(done),
            Err(_) => Err(Fault::WriteFault),
        },
        Err(fault) => match fault {
            RunFault::WriteFault => Err(Fault::WriteFault),
            RunFault::ReadFault => {
                let _ = out.flush();
                Err(Fault::ReadFault)
            }
            RunFault::Memory => {
                let _ = out.flush();
                Err(Fault::Memory)
            }
        },
    }
}
