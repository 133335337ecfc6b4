// Tells an answer on the error stream.
ghost use Rattle.std.specs.Prelude.{◌≡◌, IsErrOf, OnErr, OnOk};
ghost use Rattle.rc_base.specs.Causes.{HasCause};
ghost use Rattle.rc_base.specs.Sinks.{IsFlushed, Took, TookFront, Writes};
ghost use Rattle.rc_answers.specs.LineBytes.{line_bytes};
ghost use Rattle.rc_answers.specs.Pieces.{numbered};
ghost use Rattle.rc_answers.specs.Telling.{Tells};
ghost use Rattle.rc_answers.specs.declared.answer.Fault.TheVariants.{ErrFault};

use crate::line::Line;
use crate::numbered::Numbered;
use crate::texts::line_of;
use crate::{Done, Fault};
use itoa::Buffer;
use rc_base::{Failed, Sink, write_all};

fn write_numbered<E: Sink>(err: &mut E, part: Numbered) -> Result<(), Failed>
    ensures { Writes (numbered part) (E.state err.old) (E.state err.new) result }
{
    let mut buffer = Buffer::new();
    let Ok(()) = write_all(err, buffer.format(part.number).as_bytes()) else {
        return Err(Failed);
    };
    write_all(err, part.text)
}

/// Writes a line, or a front of it where a put fails.
pub(crate) fn write_line<E: Sink>(err: &mut E, line: Line) -> Result<(), Failed>
    ensures { Writes (line_bytes line) (E.state err.old) (E.state err.new) result }
{
    let Ok(()) = write_all(err, line.text) else {
        return Err(Failed);
    };
    let Some(first) = line.first else {
        return Ok(());
    };
    let Ok(()) = write_numbered(err, first) else {
        return Err(Failed);
    };
    let Some(second) = line.second else {
        return Ok(());
    };
    write_numbered(err, second)
}

/// Writes a line and flushes it.
fn flush_line<E: Sink>(err: &mut E, line: Line) -> Result<(), Failed>
    ensures ok { OnOk result (Took (line_bytes line) (E.state err.old) (E.state err.new)) }
    ensures flushed { OnOk result (IsFlushed (E.state err.new)) }
    ensures failed { OnErr result (TookFront (line_bytes line) (E.state err.old) (E.state err.new)) }
    ensures tells { (E.state err.new).tells ≡ (E.state err.old).tells }
    ensures cause { HasCause (E.state err.old).faults (E.state err.new).faults result }
{
    write_line(err, line)?;
    err.flush()
}

/// Tells an answer on the error stream, where it has a line. Where the stream fails, what was done is
/// lost, and a fault stays.
pub fn tell<E: Sink>(err: &mut E, answer: Result<Done, Fault>) -> Result<Done, Fault>
    requires { ¬ IsErrOf answer ErrFault }
    ensures told { Tells answer (E.state err.old) (E.state err.new) result }
    ensures tells { (E.state err.new).tells ≡ (E.state err.old).tells }
{
    let line = line_of(&answer);
    if line.is_empty() {
        return answer;
    }
    let told = flush_line(err, line);
    match answer {
        Ok(done) => match told {
            Ok(()) => Ok(done),
            Err(_) => Err(Fault::ErrFault),
        },
        Err(fault) => Err(fault),
    }
}
