// The piece at the front of a text.
ghost use Rattle.std.specs.Prelude.{◌≡◌, ◌<◌, ◌≤◌, ◌+◌, ◌==◌, ◌&&◌, length, drop, slice_index, option_map, IfOk, IfErr, IfSome};
ghost use Rattle.std.specs.List.{prefix_len};
ghost use Rattle.rc_syntax.specs.Bytes.{in_name, begins};
ghost use Rattle.rc_syntax.specs.reader.Look.{name_word, number_at, comment_end, slash_at, mark_at, is_in_margin, include_at, hash_at, closed, string_of, body_at, value_next, look};
ghost use Rattle.rc_syntax.specs.WordShapes.{word_of};
ghost use Rattle.rc_lexer.specs.Pieces.{piece_in};
ghost use Rattle.rc_lexer.specs.declared.fault.LexFault.TheVariants.{Memory};

use crate::byte_set::{ByteSet, contains, run_len};
use crate::class::{Class, class_of};
use crate::fault::LexFault;
use crate::literal::{body_at, value_next};
use crate::number::number_word;
use rc_syntax::word::{Key, Mark, Text, Word};
use std::alloc::Global;

/// A word, or a blank, a comment or a skipped line.
#[derive(Drop)]
pub struct Piece {
    /// How many bytes it is.
    pub length: usize,
    /// None for a blank, a comment or a skipped line.
    pub word: Option<Word>,
}

fn name_word(alloc: Global, bytes: &[u8]) -> Result<Word, LexFault>
    ensures ok { IfOk result (λ w. word_of w ≡ name_word bytes.now) }
    ensures err { IfErr result (λ e. e ≡ Memory) }
{
    match Key::named(bytes) {
        Some(key) => Ok(Word::Key(key)),
        None => Ok(Word::Name(Text::new(Vec::from_slice(alloc, bytes)?)?)),
    }
}

/// Whether this byte stands at the place.
fn stands_at(text: &[u8], at: usize, b: u8) -> bool
    ensures { result ≡ begins (λ c. c == b) (drop at text.now) }
{
    if at < text.len() {
        text[at] == b
    } else {
        false
    }
}

/// A number whose first byte stands before the rest.
fn number_at(text: &[u8]) -> Option<Piece>
    requires { 0 < length text.now }
    ensures { piece_in result ≡ number_at (prefix_len in_name (drop 1 text.now)) (slice_index text.now 0) (drop 1 text.now) }
{
    let length = 1 + run_len(ByteSet::Name, &text[1..]);
    if stands_at(text, length, b'.') {
        return None;
    }
    match number_word(&text[..length]) {
        Some(word) => Some(Piece {
            length,
            word: Some(word),
        }),
        None => None,
    }
}

/// A character constant behind its opening quote.
fn character_at(rest: &[u8]) -> Option<Piece>
    ensures { piece_in result ≡ closed 39 (value_next 39 rest.now) rest.now }
{
    let (n, value) = value_next(b'\'', rest)?;
    if stands_at(rest, n, b'\'') {
        Some(Piece {
            length: n + 2,
            word: Some(Word::Character(value)),
        })
    } else {
        None
    }
}

/// A string literal behind its opening quote.
fn string_at(alloc: Global, rest: &[u8]) -> Result<Option<Piece>, LexFault>
    ensures ok { IfOk result (λ p. piece_in p ≡ string_of (body_at 34 0 rest.now)) }
    ensures err { IfErr result (λ e. e ≡ Memory) }
{
    match body_at(alloc, rest)? {
        Some(body) => Ok(Some(Piece {
            length: body.length + 2,
            word: Some(Word::Str(Text::new(body.values)?)),
        })),
        None => Ok(None),
    }
}

/// Whether a comment ends with the byte at the place and the next.
fn ends_at(bytes: &[u8], i: usize) -> bool
    requires { i < length bytes.now }
    ensures { result ≡ (slice_index bytes.now i == 42 && begins (λ c. c == 47) (drop (i + 1) bytes.now)) }
{
    if bytes[i] == b'*' {
        stands_at(bytes, i + 1, b'/')
    } else {
        false
    }
}

/// How many bytes there are through the first end of a comment.
#[tactic(auto, using(crate::proofs::Places::end_step, crate::proofs::Places::end_there, crate::proofs::Places::from_start, crate::proofs::Bodies::drop_past))]
fn comment_end(bytes: &[u8]) -> Option<usize>
    ensures value { result ≡ comment_end bytes.now }
    ensures low { IfSome result (λ n. n ≤ length bytes.now) }
{
    for i in 0..bytes.len() {
        if ends_at(bytes, i) {
            return Some(i + 2);
        }
    }
    None
}

fn mark_at(text: &[u8]) -> Option<Piece>
    ensures { piece_in result ≡ mark_at text.now }
{
    let mark = Mark::at_front(text)?;
    Some(Piece {
        length: mark.spelling().len(),
        word: Some(Word::Mark(mark)),
    })
}

/// A comment or a mark, by what stands behind its `/`.
fn slash_at(text: &[u8]) -> Option<Piece>
    requires { 0 < length text.now }
    ensures { piece_in result ≡ slash_at (slice_index text.now 0) (drop 1 text.now) }
{
    match &text[1..] {
        [b'/', line @ ..] => Some(Piece {
            length: 2 + run_len(ByteSet::Line, line),
            word: None,
        }),
        [b'*', comment @ ..] => {
            match comment_end(comment) {
                Some(n) => Some(Piece {
                    length: 2 + n,
                    word: None,
                }),
                None => None,
            }
        }
        _ => mark_at(text),
    }
}

/// Whether only spaces and tabs stand at the end of these bytes, on its line.
#[tactic(auto, using(crate::proofs::Places::margin_feed, crate::proofs::Places::margin_space, crate::proofs::Places::margin_tab, crate::proofs::Places::margin_ends))]
fn is_in_margin(before: &[u8]) -> bool
    ensures { result ≡ is_in_margin before.now }
{
    let mut at = before.len();
    while at > 0 {
        at -= 1;
        match before[at] {
            b'\n' => return true,
            b' ' | b'\t' => {}
            _ => return false,
        }
    }
    true
}

/// How many bytes there are from `include` to the end of its line.
fn include_at(rest: &[u8]) -> Option<usize>
    ensures value { result ≡ include_at rest.now }
    ensures low { IfSome result (λ n. n ≤ length rest.now) }
{
    if !rest.starts_with(b"include") {
        return None;
    }
    let line = &rest[7..];
    if begins_name(line) {
        return None;
    }
    Some(7 + run_len(ByteSet::Line, line))
}

fn begins_name(text: &[u8]) -> bool
    ensures { result ≡ begins in_name text.now }
{
    match text {
        [b, ..] => contains(ByteSet::Name, *b),
        [] => false,
    }
}

/// A skipped line behind its `#`.
fn hash_at(before: &[u8], rest: &[u8]) -> Option<Piece>
    ensures { piece_in result ≡ hash_at before.now rest.now }
{
    if !is_in_margin(before) {
        return None;
    }
    let margin = run_len(ByteSet::Margin, rest);
    match include_at(&rest[margin..]) {
        Some(n) => Some(Piece {
            length: 1 + margin + n,
            word: None,
        }),
        None => None,
    }
}

/// The piece at the front of the text, behind the bytes before it, or None where there is none.
pub fn look(alloc: Global, before: &[u8], text: &[u8]) -> Result<Option<Piece>, LexFault>
    ensures ok { IfOk result (λ p. piece_in p ≡ look before.now text.now) }
    ensures err { IfErr result (λ e. e ≡ Memory) }
{
    match text {
        [] => Ok(None),
        [first, rest @ ..] => {
            match class_of(*first) {
                Class::Blank => Ok(Some(Piece {
                    length: 1,
                    word: None,
                })),
                Class::Letter => {
                    let length = 1 + run_len(ByteSet::Name, rest);
                    Ok(Some(Piece {
                        length,
                        word: Some(name_word(alloc, &text[..length])?),
                    }))
                }
                Class::Digit => Ok(number_at(text)),
                Class::Quote => Ok(character_at(rest)),
                Class::DoubleQuote => string_at(alloc, rest),
                Class::Slash => Ok(slash_at(text)),
                Class::Hash => Ok(hash_at(before, rest)),
                Class::Other => Ok(mark_at(text)),
            }
        }
    }
}
