// Writing to a writer.
ghost use Rattle.std.specs.Prelude.{◌≤◌, length};

use std::io::Write;

/// Writes the bytes from `start` on, and answers where the writer stopped to take them: at the end, or
/// where it failed or took nothing.
pub(crate) fn write_front<W: Write>(writer: &mut W, bytes: &[u8], start: usize) -> usize
    requires { start ≤ length bytes.now }
    ensures { result ≤ length bytes.now }
{
    let mut taken = start;
    while taken < bytes.len() {
        match writer.write(&bytes[taken..]) {
            Ok(0) => return taken,
            Ok(count) => taken += count,
            Err(_) => return taken,
        }
    }
    taken
}
