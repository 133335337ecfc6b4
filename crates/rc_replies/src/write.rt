// Writing an answer.
ghost use Rattle.std.specs.Prelude.{◌≡◌, ◌++◌, codes};
ghost use Rattle.std.specs.Fmt.{decimal};
ghost use Rattle.rc_replies.specs.Replies.{reply_text};
ghost use Rattle.rc_replies.specs.Writing.{WritesUntil};

use crate::reply::Reply;
use itoa::Buffer;
use rc_base::{Failed, Sink};

/// Puts these bytes one by one, up to one whose put fails.
fn write_until<O: Sink>(out: &mut O, bytes: &[u8]) -> Result<(), Failed>
    ensures { WritesUntil bytes.now (O.state out.old) (O.state out.new) result }
{
    for byte in bytes {
        out.put(*byte)?;
    }
    Ok(())
}

fn write_number<O: Sink>(out: &mut O, number: u32) -> Result<(), Failed>
    ensures { WritesUntil (decimal number) (O.state out.old) (O.state out.new) result }
{
    let mut buffer = Buffer::new();
    write_until(out, buffer.format(number).as_bytes())
}

/// Writes a text with a number behind it, as a line.
fn write_numbered<O: Sink>(out: &mut O, text: &[u8], number: u32) -> Result<(), Failed>
    ensures { WritesUntil (text.now ++ decimal number ++ codes "\n") (O.state out.old) (O.state out.new) result }
{
    let Ok(()) = write_until(out, text) else {
        return Err(Failed);
    };
    let Ok(()) = write_number(out, number) else {
        return Err(Failed);
    };
    write_until(out, b"\n")
}

/// Writes the line of an answer, up to a byte whose put fails. It doesn't flush.
pub fn write_reply<O: Sink>(out: &mut O, reply: Reply) -> Result<(), Failed>
    ensures { WritesUntil (reply_text reply) (O.state out.old) (O.state out.new) result }
{
    match reply {
        Reply::Region(number) => write_numbered(out, b"region ", number),
        Reply::Object(number) => write_numbered(out, b"object ", number),
        Reply::Full => write_until(out, b"full\n"),
        Reply::Done => write_until(out, b"ok\n"),
        Reply::Root => write_until(out, b"root\n"),
        Reply::Subregion => write_until(out, b"subregion\n"),
        Reply::Reference => write_until(out, b"reference\n"),
        Reply::Bad => write_until(out, b"bad\n"),
    }
}
