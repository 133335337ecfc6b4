// Numbers: their digits, values and types (ISO C 6.4.4.1).
ghost use Rattle.std.specs.Prelude.{◌≡◌, ◌<◌, ◌≤◌, length};
ghost use Rattle.rc_syntax.specs.Bytes.{is_decimal};
ghost use Rattle.rc_syntax.specs.Numerals.{digit_value};
ghost use Rattle.rc_syntax.specs.reader.Look.{base_of, is_digit_in, value_at, number_in, numeral_word, number_word};
ghost use Rattle.rc_lexer.specs.Shapes.{word_in};

use rc_syntax::word::Word;

fn is_digit_in(base: u32, b: u8) -> bool
    ensures { result ≡ is_digit_in base b }
{
    match base {
        16 => b.is_ascii_digit() || (b'a' <= b && b <= b'f') || (b'A' <= b && b <= b'F'),
        8 => b'0' <= b && b <= b'7',
        _ => b.is_ascii_digit(),
    }
}

fn digit_value(b: u8) -> u8
    ensures { result ≡ digit_value b }
{
    if b.is_ascii_digit() {
        b - b'0'
    } else if b'a' <= b {
        b - 87
    } else {
        b.saturating_sub(55)
    }
}

/// The value of the digits, or None where one is no digit in the base or the value is over 4294967295.
#[tactic(auto, using(crate::proofs::Values::value_more, crate::proofs::Values::digits_more, crate::proofs::Values::no_digit, crate::proofs::Values::too_large, crate::proofs::Values::value_whole))]
pub fn value_at(base: u32, digits: &[u8]) -> Option<u32>
    requires least { 0 < base }
    requires most { base ≤ 16 }
    ensures { result ≡ value_at base digits.now }
{
    let mut value: u64 = 0;
    for b in digits {
        if !is_digit_in(base, *b) {
            return None;
        }
        value = value * (base as u64) + (digit_value(*b) as u64);
        if value > 4294967295 {
            return None;
        }
    }
    Some(value as u32)
}

/// The base of a numeral, and how many bytes stand before its digits.
fn base_of(bytes: &[u8]) -> (u32, usize)
    ensures value { result ≡ base_of bytes.now }
    ensures least { 0 < result.0 }
    ensures most { result.0 ≤ 16 }
    ensures within { result.1 ≤ length bytes.now }
{
    match bytes {
        [b'0', b'x' | b'X', ..] => (16, 2),
        [b'0', ..] => (8, 1),
        _ => (10, 0),
    }
}

/// A number of this value, or None where no type holds it.
fn number_in(base: u32, suffixed: bool, value: u32) -> Option<Word>
    ensures { word_in result ≡ number_in base suffixed (Some value) }
{
    if suffixed {
        return Some(Word::Number(value, true));
    }
    if value <= 2147483647 {
        return Some(Word::Number(value, false));
    }
    if base == 10 {
        None
    } else {
        Some(Word::Number(value, true))
    }
}

/// The number that these bytes, without the suffix, write.
fn numeral_word(suffixed: bool, bytes: &[u8]) -> Option<Word>
    ensures { word_in result ≡ numeral_word suffixed bytes.now }
{
    let (base, start) = base_of(bytes);
    if base == 16 && bytes.len() <= 2 {
        return None;
    }
    match value_at(base, &bytes[start..]) {
        Some(value) => number_in(base, suffixed, value),
        None => None,
    }
}

/// The number that these bytes write, or None where they write none.
pub fn number_word(bytes: &[u8]) -> Option<Word>
    requires { 0 < length bytes.now }
    ensures { word_in result ≡ number_word bytes.now }
{
    let last = bytes.len() - 1;
    match bytes[last] {
        b'u' | b'U' => numeral_word(true, &bytes[..last]),
        _ => numeral_word(false, bytes),
    }
}
