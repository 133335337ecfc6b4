// Pieces of bytes, in which a backslash begins a byte that can't be written as it is.
ghost use Rattle.std.specs.Prelude.{◌<◌, IfSome, length};

use std::io::{self, ErrorKind};

/// A byte of a piece, and what stands after it.
#[derive(Clone, Copy)]
struct Front<'a> {
    byte: u8,
    rest: &'a [u8],
}

fn digit(byte: u8) -> Option<u8>
    ensures { IfSome result (λ n. n < 16) }
{
    match byte {
        b'0'..=b'9' => Some(byte - b'0'),
        b'a'..=b'f' => Some(byte - b'a' + 10),
        _ => None,
    }
}

fn number(high: u8, low: u8) -> Option<u8> {
    Some(digit(high)? * 16 + digit(low)?)
}

/// The first byte of a piece.
fn first_byte(piece: &[u8]) -> Option<Front<'_>>
    ensures { IfSome result (λ f. length f.rest.now < length piece.now) }
{
    match piece {
        [b'\\', b'n', rest @ ..] => Some(Front { byte: b'\n', rest }),
        [b'\\', b'\\', rest @ ..] => Some(Front { byte: b'\\', rest }),
        [b'\\', b'x', high, low, rest @ ..] => match number(*high, *low) {
            Some(byte) => Some(Front { byte, rest }),
            None => None,
        },
        [b'\\', ..] | [] => None,
        [byte, rest @ ..] => Some(Front { byte: *byte, rest }),
    }
}

/// Puts the bytes of a piece at the end.
pub(crate) fn push_piece(bytes: &mut Vec<u8>, piece: &str) -> io::Result<()> {
    let mut left = piece.as_bytes();
    for _ in 0..piece.len() {
        if left.is_empty() {
            break;
        }
        let Some(front) = first_byte(left) else {
            return Err(io::Error::from(ErrorKind::InvalidData));
        };
        bytes.push(front.byte)?;
        left = front.rest;
    }
    Ok(())
}

/// Puts the bytes of a piece at the end, as often as the number before it says.
pub(crate) fn push_pieces(bytes: &mut Vec<u8>, counted: &str) -> io::Result<()> {
    let Some((number, piece)) = counted.split_once(' ') else {
        return Err(io::Error::from(ErrorKind::InvalidData));
    };
    let Ok(times) = number.parse::<u32>() else {
        return Err(io::Error::from(ErrorKind::InvalidData));
    };
    for _ in 0..times {
        push_piece(bytes, piece)?;
    }
    Ok(())
}
