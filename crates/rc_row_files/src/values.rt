// What keys give.
ghost use Rattle.std.specs.Prelude.{◌≡◌, ◌++◌, ◌∷◌, [], IfOk, IsErr, Ok, OnOk, string_bytes};
ghost use Rattle.std.specs.Str.Parse.{ParsesUnsigned};
ghost use Rattle.hex.specs.Hex.{decode_of};

use std::alloc::Global;
use std::io::{self, ErrorKind};

/// The error of what can't be read.
pub fn unread<T>() -> io::Result<T>
    ensures { IsErr result }
{
    Err(io::Error::from(ErrorKind::InvalidData))
}

/// The bytes of these hexadecimal digits.
pub fn bytes(alloc: Global, digits: &str) -> io::Result<Vec<u8>>
    ensures { IfOk result (λ bytes. decode_of digits.now ≡ Ok bytes.items) }
{
    match hex::decode(alloc, digits) {
        Ok(bytes) => Ok(bytes),
        Err(_) => unread(),
    }
}

/// The number of 64 bits of these decimal digits.
pub fn number(word: &str) -> io::Result<u64>
    ensures { ParsesUnsigned 64 10 word.now result }
{
    match word.parse() {
        Ok(number) => Ok(number),
        Err(_) => unread(),
    }
}

/// The number of 32 bits of these decimal digits.
pub fn small_number(word: &str) -> io::Result<u32>
    ensures { ParsesUnsigned 32 10 word.now result }
{
    match word.parse() {
        Ok(number) => Ok(number),
        Err(_) => unread(),
    }
}

/// The numbers, with a blank between two of them.
pub fn numbers(alloc: Global, list: &str) -> io::Result<Vec<u64>> {
    let mut numbers = Vec::new(alloc);
    for word in list.split(' ') {
        numbers.push(number(word)?)?;
    }
    Ok(numbers)
}

/// Puts a line behind a text.
pub fn push_line(text: &mut String, line: &str) -> io::Result<()>
    ensures { OnOk result (string_bytes text.new ≡ string_bytes text.old ++ line.now ++ 10 ∷ []) }
{
    text.push_str(line)?;
    text.push('\n')?;
    Ok(())
}
