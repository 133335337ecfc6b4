// Character constants and string literals (ISO C 6.4.4.4 and 6.4.5).
ghost use Rattle.std.specs.Prelude.{◌≡◌, ◌<◌, ◌≤◌, length, take, IfOk, IfErr, IfSome};
ghost use Rattle.std.specs.List.{prefix_len};
ghost use Rattle.rc_syntax.specs.Bytes.{is_octal, is_hexadecimal};
ghost use Rattle.rc_syntax.specs.Literals.{simple_escape};
ghost use Rattle.rc_syntax.specs.reader.Look.{octal_at, hexadecimal_at, escape_at, value_next, body_at};
ghost use Rattle.rc_lexer.specs.Pieces.{body_in};
ghost use Rattle.rc_lexer.specs.declared.fault.LexFault.TheVariants.{Memory};

use crate::byte_set::{ByteSet, first_three, run_len};
use crate::fault::LexFault;
use crate::number::value_at;
use std::alloc::Global;

/// What stands before the closing quote of a string literal.
#[derive(Drop)]
pub struct Body {
    /// How many bytes it is.
    pub length: usize,
    /// What they write.
    pub values: Vec<u8>,
}

fn simple_escape(b: u8) -> Option<u8>
    ensures { result ≡ simple_escape b }
{
    match b {
        b'a' => Some(7),
        b'b' => Some(8),
        b'f' => Some(12),
        b'n' => Some(10),
        b'r' => Some(13),
        b't' => Some(9),
        b'v' => Some(11),
        b'\\' => Some(b'\\'),
        b'\'' => Some(b'\''),
        b'"' => Some(b'"'),
        b'?' => Some(b'?'),
        _ => None,
    }
}

/// One to three octal digits behind a `\`.
fn octal_at(bytes: &[u8]) -> Option<(usize, u8)>
    ensures { result ≡ octal_at (prefix_len is_octal (take 3 bytes.now)) bytes.now }
{
    let n = run_len(ByteSet::Octal, first_three(bytes));
    match value_at(8, &bytes[..n]) {
        Some(value) => {
            if value <= 255 {
                Some((n + 1, value as u8))
            } else {
                None
            }
        }
        None => None,
    }
}

/// One or two hexadecimal digits behind a `\x`, and no third.
fn hexadecimal_at(bytes: &[u8]) -> Option<(usize, u8)>
    ensures { result ≡ hexadecimal_at (prefix_len is_hexadecimal (take 3 bytes.now)) bytes.now }
{
    let n = run_len(ByteSet::Hexadecimal, first_three(bytes));
    if n == 0 {
        return None;
    }
    if n == 3 {
        return None;
    }
    match value_at(16, &bytes[..n]) {
        Some(value) => Some((n + 2, value as u8)),
        None => None,
    }
}

/// An escape, by what stands behind its `\`, which is counted with its bytes.
fn escape_at(rest: &[u8]) -> Option<(usize, u8)>
    ensures { result ≡ escape_at rest.now }
{
    match rest {
        [b'x', digits @ ..] => hexadecimal_at(digits),
        [b'0'..=b'7', ..] => octal_at(rest),
        [b, ..] => {
            match simple_escape(*b) {
                Some(value) => Some((2, value)),
                None => None,
            }
        }
        [] => None,
    }
}

/// The next value of a literal between these quotes, and how many bytes write it.
pub fn value_next(quote: u8, text: &[u8]) -> Option<(usize, u8)>
    ensures { result ≡ value_next quote text.now }
{
    match text {
        [b'\\', rest @ ..] => escape_at(rest),
        [b'\n', ..] => None,
        [b, ..] => { if *b == quote { None } else { Some((1, *b)) } }
        [] => None,
    }
}

/// The bytes of a string literal behind its opening quote, or None where it is not well formed.
#[tactic(auto, using(crate::proofs::Bodies::body_here, crate::proofs::Bodies::body_stops, crate::proofs::Bodies::body_more, crate::proofs::Bodies::body_past, crate::proofs::Bodies::next_within))]
pub fn body_at(alloc: Global, text: &[u8]) -> Result<Option<Body>, LexFault>
    ensures ok { IfOk result (λ body. body_in body ≡ body_at 34 0 text.now) }
    ensures low { IfOk result (λ body. IfSome body (λ x. x.length < length text.now)) }
    ensures err { IfErr result (λ e. e ≡ Memory) }
{
    let mut values = Vec::new(alloc);
    let mut at: usize = 0;
    while at < text.len() {
        if text[at] == b'"' {
            return Ok(Some(Body { length: at, values }));
        }
        match value_next(b'"', &text[at..]) {
            Some((n, value)) => {
                values.push(value)?;
                at += n;
            }
            None => return Ok(None),
        }
    }
    Ok(None)
}
