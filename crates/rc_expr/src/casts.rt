// The types of casts (ISO C 6.5.4).
ghost use Rattle.std.specs.Prelude.{◌≡◌, ◌<◌, ◌≤◌, ◌+◌, IfOk, MatchOption, length};
ghost use Rattle.rc_base.specs.Limits.{most_depth, most_words};
ghost use Rattle.rc_syntax.specs.Tokens.{key};
ghost use Rattle.rc_syntax.specs.reader.Todo.{read, sees};
ghost use Rattle.rc_syntax.specs.reader.Reading as r;
ghost use Rattle.rc_words.specs.Words.{spot_of, word_at, Stands};
ghost use Rattle.rc_expr.specs.Goes.{ReadsCast, cast_of, key_of, unsigned_rest};

use rc_syntax::fault::ParseFault;
use rc_syntax::tree::CastType;
use rc_syntax::word::{Key, Mark, Token};
use rc_words::{expect_mark, is_key, key_at, taken};

/// The type of a cast whose first word stands at a place.
pub fn cast_at(tokens: &[Token], at: u32) -> Option<CastType>
    ensures value { result ≡ cast_of (word_at tokens.now at) }
    ensures stands { MatchOption result (Unit {0}) (λ to. Stands tokens.now at (key (key_of to))) }
{
    match key_at(tokens, at) {
        Some(Key::Int) => Some(CastType::Int),
        Some(Key::Unsigned) => Some(CastType::Unsigned),
        Some(Key::Char) => Some(CastType::Char),
        _ => None,
    }
}

// "(" ("int" | "unsigned" ["int"] | "char") ")"
/// Reads the type of a cast that begins at `at`, and the parenthesis after it.
pub fn cast_type(
    tokens: &[Token],
    first: CastType,
    at: u32,
    depth: u32,
    far: u32,
) -> Result<(CastType, u32), ParseFault>
    requires few { length tokens.now ≤ most_words }
    requires here { Stands tokens.now (at + 1) (key (key_of first)) }
    requires shallow { depth < most_depth }
    ensures reads { ReadsCast depth far tokens.now at (at + 1) (r.parenthesized (spot_of tokens.now at)) result }
    ensures place { IfOk result (λ r. (at < r.1) × (r.1 ≤ length tokens.now)) }
{
    let place = taken(tokens, at + 1, far)?;
    match first {
        CastType::Unsigned => unsigned_end(tokens, at, place, depth, far),
        CastType::Int => cast_end(tokens, CastType::Int, at, place, depth, far),
        CastType::Char => cast_end(tokens, CastType::Char, at, place, depth, far),
    }
}

/// Reads the rest of the type of a cast to `unsigned`, after that word.
fn unsigned_end(
    tokens: &[Token],
    at: u32,
    place: u32,
    depth: u32,
    far: u32,
) -> Result<(CastType, u32), ParseFault>
    requires few { length tokens.now ≤ most_words }
    requires within { place ≤ length tokens.now }
    requires behind { at < place }
    requires shallow { depth < most_depth }
    ensures reads { ReadsCast depth far tokens.now at place (unsigned_rest (spot_of tokens.now at)) result }
    ensures place { IfOk result (λ r. (at < r.1) × (r.1 ≤ length tokens.now)) }
{
    if !is_key(tokens, place, Key::Int) {
        return cast_end(tokens, CastType::Unsigned, at, place, depth, far);
    }
    let behind = taken(tokens, place, far)?;
    cast_end(tokens, CastType::Unsigned, at, behind, depth, far)
}

/// Reads the parenthesis after the type of a cast that begins at `at`.
fn cast_end(
    tokens: &[Token],
    to: CastType,
    at: u32,
    place: u32,
    depth: u32,
    far: u32,
) -> Result<(CastType, u32), ParseFault>
    requires few { length tokens.now ≤ most_words }
    requires within { place ≤ length tokens.now }
    requires behind { at < place }
    requires shallow { depth < most_depth }
    ensures reads { ReadsCast depth far tokens.now at place (read (sees r.is_close (r.cast_to (spot_of tokens.now at) to))) result }
    ensures place { IfOk result (λ r. (at < r.1) × (r.1 ≤ length tokens.now)) }
{
    let end = expect_mark(tokens, place, far, Mark::CloseParenthesis)?;
    Ok((to, end))
}
