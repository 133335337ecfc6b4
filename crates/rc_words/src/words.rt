// The words of a list, one at a time. A place is the number of a word, from 0.
ghost use Rattle.std.specs.Prelude.{◌≡◌, ◌<◌, ◌≤◌, ◌+◌, IfOk, IfErr, MatchOption, MatchResult, length, None, true, false, []};
ghost use Rattle.rc_base.specs.Limits.{most_words};
ghost use Rattle.rc_syntax.specs.declared.fault.ParseFault.TheVariants.{Deep, Memory, Syntax};
ghost use Rattle.rc_syntax.specs.Tokens.{mark, key};
ghost use Rattle.rc_syntax.specs.WordShapes.{word_of};
ghost use Rattle.rc_words.specs.Words.{from, line_of, spot_of, word_at, mark_in, key_in, Stands, Misses, Takes, TakesName};

use rc_syntax::fault::ParseFault;
use rc_syntax::tree::{Name, Spot};
use rc_syntax::word::{Key, Mark, Text, Token, Word};

/// The word at a place, where one stands there.
#[tactic(auto, using(crate::proofs::Standing::from_past, crate::proofs::Standing::stands_here))]
pub fn word_here(tokens: &[Token], at: u32) -> Option<&Word>
    ensures { MatchOption result (from tokens.now at ≡ []) (λ w. Stands tokens.now at (word_of w.now)) }
{
    if at as usize >= tokens.len() {
        return None;
    }
    Some(&tokens[at as usize].word)
}

/// The mark at a place, where one stands there.
#[tactic(auto, using(crate::proofs::Standing::word_stands))]
pub fn mark_at(tokens: &[Token], at: u32) -> Option<Mark>
    ensures value { result ≡ mark_in (word_at tokens.now at) }
    ensures stands { MatchOption result (Unit {0}) (λ m. Stands tokens.now at (mark m)) }
{
    match word_here(tokens, at) {
        Some(Word::Mark(mark)) => Some(*mark),
        _ => None,
    }
}

/// The reserved word at a place, where one stands there.
#[tactic(auto, using(crate::proofs::Standing::word_stands))]
pub fn key_at(tokens: &[Token], at: u32) -> Option<Key>
    ensures value { result ≡ key_in (word_at tokens.now at) }
    ensures stands { MatchOption result (Unit {0}) (λ k. Stands tokens.now at (key k)) }
{
    match word_here(tokens, at) {
        Some(Word::Key(key)) => Some(*key),
        _ => None,
    }
}

/// Whether this mark stands at a place.
#[tactic(auto, using(crate::proofs::Standing::no_mark))]
pub fn is_mark(tokens: &[Token], at: u32, wanted: Mark) -> bool
    ensures yes { result ≡ true → Stands tokens.now at (mark wanted) }
    ensures no { result ≡ false → Misses tokens.now at (mark wanted) }
{
    match mark_at(tokens, at) {
        Some(here) => here == wanted,
        None => false,
    }
}

/// Whether this reserved word stands at a place.
#[tactic(auto, using(crate::proofs::Standing::no_key))]
pub fn is_key(tokens: &[Token], at: u32, wanted: Key) -> bool
    ensures yes { result ≡ true → Stands tokens.now at (key wanted) }
    ensures no { result ≡ false → Misses tokens.now at (key wanted) }
{
    match key_at(tokens, at) {
        Some(here) => here == wanted,
        None => false,
    }
}

/// Where a node that begins at a place begins.
pub fn spot_at(tokens: &[Token], at: u32) -> Spot
    ensures { result ≡ spot_of tokens.now at }
{
    Spot {
        place: at,
        line: line_at(tokens, at),
    }
}

/// The line of the word at a place, of the last word where none stands there, 1 where there is no
/// word.
#[tactic(auto, using(crate::proofs::Standing::line_here, crate::proofs::Standing::line_past, crate::proofs::Standing::last_is))]
pub fn line_at(tokens: &[Token], at: u32) -> u32
    ensures { result ≡ line_of tokens.now at }
{
    if (at as usize) < tokens.len() {
        return tokens[at as usize].line;
    }
    match tokens.last() {
        Some(token) => token.line,
        None => 1,
    }
}

/// The refusal of what stands at a place.
pub fn refused_at(tokens: &[Token], at: u32) -> ParseFault
    ensures { result ≡ Syntax (line_of tokens.now at) }
{
    ParseFault::Syntax(line_at(tokens, at))
}

/// The refusal of a word that is nested too deep, or too far from the beginning.
pub fn deep_at(tokens: &[Token], at: u32) -> ParseFault
    ensures { result ≡ Deep (line_of tokens.now at) }
{
    ParseFault::Deep(line_at(tokens, at))
}

/// Takes the word at a place, unless it stands at `far` or after, and answers the place after it.
pub fn taken(tokens: &[Token], at: u32, far: u32) -> Result<u32, ParseFault>
    requires { at < length tokens.now }
    ensures { MatchResult result (λ e. (at < far) × (e ≡ at + 1)) (λ f. (far ≤ at) × (f ≡ Deep (line_of tokens.now at))) }
{
    if at >= far {
        Err(deep_at(tokens, at))
    } else {
        Ok(at + 1)
    }
}

/// Takes this mark, and answers the place after it.
pub fn expect_mark(tokens: &[Token], at: u32, far: u32, wanted: Mark) -> Result<u32, ParseFault>
    requires { length tokens.now ≤ most_words }
    ensures { Takes tokens.now at far (mark wanted) result }
{
    if !is_mark(tokens, at, wanted) {
        return Err(refused_at(tokens, at));
    }
    taken(tokens, at, far)
}

/// A text that shares its bytes with this one.
pub fn shared(text: &Text) -> Result<Text, ParseFault>
    ensures ok { IfOk result (λ t. t ≡ text.now) }
    ensures err { IfErr result (λ f. f ≡ Memory) }
{
    Ok(text.share()?)
}

/// Takes a name, and answers the place after it.
#[tactic(auto, using(crate::proofs::Standing::no_word, crate::proofs::Standing::word_stands))]
pub fn name(tokens: &[Token], at: u32, far: u32) -> Result<(Name, u32), ParseFault>
    requires { length tokens.now ≤ most_words }
    ensures { TakesName tokens.now at far result }
{
    match word_here(tokens, at) {
        Some(Word::Name(text)) => {
            let end = taken(tokens, at, far)?;
            let text = shared(text)?;
            let spot = spot_at(tokens, at);
            Ok((Name { spot, text }, end))
        }
        _ => Err(refused_at(tokens, at)),
    }
}
