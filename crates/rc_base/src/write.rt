// Writing a list of bytes.
ghost use Rattle.rc_base.specs.Sinks.{Writes};

use crate::{Failed, Sink};

/// Puts all these bytes, or a front of them where a put fails. It doesn't flush.
pub fn write_all<O: Sink>(out: &mut O, bytes: &[u8]) -> Result<(), Failed>
    ensures { Writes bytes.now (O.state out.old) (O.state out.new) result }
{
    for byte in bytes {
        out.put(*byte)?;
    }
    Ok(())
}
