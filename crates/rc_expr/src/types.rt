// Types as they are written (ISO C 6.7.2, 6.7.6, and RC's annotations).
ghost use Rattle.std.specs.Prelude.{◌≡◌, ◌<◌, ◌≤◌, ◌+◌, ◌++◌, ◌∷◌, [], List, IfOk, length};
ghost use Rattle.rc_base.specs.Limits.{most_depth, most_words};
ghost use Rattle.rc_syntax.specs.declared.word.Mark.TheVariants as m;
ghost use Rattle.rc_syntax.specs.Tokens.{mark};
ghost use Rattle.rc_syntax.specs.Grammar as g;
ghost use Rattle.rc_syntax.specs.reader.Todo.{build};
ghost use Rattle.rc_syntax.specs.reader.Reading as r;
ghost use Rattle.rc_syntax.specs.Shape.{type_of};
ghost use Rattle.rc_words.specs.Words.{word_at, Stands, Misses};
ghost use Rattle.rc_expr.specs.Goes.{ReadsAnywhere, ContinuesAnywhere, begins_base};

use crate::nodes::add;
use rc_base::MOST_DEPTH;
use rc_syntax::fault::ParseFault;
use rc_syntax::tree::{Base, Note, TypeName};
use rc_syntax::word::{Key, Mark, Token};
use rc_words::{deep_at, is_key, is_mark, key_at, name, refused_at, spot_at, taken};
use std::alloc::Global;

/// Whether a base type begins at a place.
pub fn base_begins(tokens: &[Token], at: u32) -> bool
    ensures { result ≡ begins_base (word_at tokens.now at) }
{
    match key_at(tokens, at) {
        Some(Key::Int) => true,
        Some(Key::Unsigned) => true,
        Some(Key::Char) => true,
        Some(Key::Region) => true,
        Some(Key::Struct) => true,
        _ => false,
    }
}

/// Reads a base type. Words from `far` on are too far.
pub fn base(tokens: &[Token], at: u32, depth: u32, far: u32) -> Result<(Base, u32), ParseFault>
    requires few { length tokens.now ≤ most_words }
    requires within { at ≤ length tokens.now }
    requires shallow { depth ≤ most_depth }
    ensures reads { ReadsAnywhere g.Base depth far tokens.now at (λ b. b) result }
    ensures place { IfOk result (λ r. (at < r.1) × (r.1 ≤ length tokens.now)) }
{
    match key_at(tokens, at) {
        Some(Key::Int) => {
            let end = taken(tokens, at, far)?;
            Ok((Base::Int(spot_at(tokens, at)), end))
        }
        Some(Key::Unsigned) => {
            let place = taken(tokens, at, far)?;
            if !is_key(tokens, place, Key::Int) {
                return Ok((Base::Unsigned(spot_at(tokens, at)), place));
            }
            let end = taken(tokens, place, far)?;
            Ok((Base::Unsigned(spot_at(tokens, at)), end))
        }
        Some(Key::Char) => {
            let end = taken(tokens, at, far)?;
            Ok((Base::Char(spot_at(tokens, at)), end))
        }
        Some(Key::Region) => {
            let end = taken(tokens, at, far)?;
            Ok((Base::Region(spot_at(tokens, at)), end))
        }
        Some(Key::Struct) => {
            let place = taken(tokens, at, far)?;
            let (name, end) = name(tokens, place, far)?;
            Ok((Base::Struct(spot_at(tokens, at), name), end))
        }
        _ => Err(refused_at(tokens, at)),
    }
}

/// Reads stars and their annotations, as many as follow. The words around are nested `depth` deep,
/// the first star deeper by one, the second by two, and so on.
pub fn stars(
    alloc: Global,
    tokens: &[Token],
    at: u32,
    depth: u32,
    far: u32,
) -> Result<(Vec<Note>, u32), ParseFault>
    requires few { length tokens.now ≤ most_words }
    requires within { at ≤ length tokens.now }
    requires shallow { depth ≤ most_depth }
    ensures reads { ContinuesAnywhere g.Stars depth far tokens.now at at (build []) (λ v. v.items) result }
    ensures place { IfOk result (λ r. (at ≤ r.1) × (r.1 ≤ length tokens.now)) }
    ensures quiet { IfOk result (λ r. Misses tokens.now r.1 (mark m.Star)) }
{
    let mut notes = Vec::new(alloc);
    let mut place = at;
    while is_mark(tokens, place, Mark::Star) {
        let (note, end) = star(tokens, at, place, notes.len(), depth, far)?;
        add(&mut notes, note)?;
        place = end;
    }
    Ok((notes, place))
}

/// Reads a star and its annotation, after `count` stars that begin at `at`.
fn star(
    tokens: &[Token],
    at: u32,
    place: u32,
    count: usize,
    depth: u32,
    far: u32,
) -> Result<(Note, u32), ParseFault>
    requires few { length tokens.now ≤ most_words }
    requires here { Stands tokens.now place (mark m.Star) }
    requires behind { at ≤ place }
    requires shallow { depth ≤ most_depth }
    ensures reads { (ns : List Note) → length ns ≡ count → ContinuesAnywhere g.Stars depth far tokens.now at place (build ns) (λ n. ns ++ n ∷ []) result }
    ensures place { IfOk result (λ r. (place < r.1) × (r.1 ≤ length tokens.now)) }
{
    if count >= (MOST_DEPTH - depth) as usize {
        return Err(deep_at(tokens, place));
    }
    let behind = taken(tokens, place, far)?;
    note(tokens, at, behind, depth, far)
}

/// Reads the annotation of a star, where one follows, in stars that begin at `at`.
fn note(
    tokens: &[Token],
    at: u32,
    place: u32,
    depth: u32,
    far: u32,
) -> Result<(Note, u32), ParseFault>
    requires few { length tokens.now ≤ most_words }
    requires within { place ≤ length tokens.now }
    requires behind { at < place }
    requires shallow { depth ≤ most_depth }
    ensures reads { (ns : List Note) → ContinuesAnywhere g.Stars depth far tokens.now at place (r.starred ns tt) (λ n. ns ++ n ∷ []) result }
    ensures place { IfOk result (λ r. (place ≤ r.1) × (r.1 ≤ length tokens.now)) }
{
    match key_at(tokens, place) {
        Some(Key::SameRegion) => {
            let end = taken(tokens, place, far)?;
            Ok((Note::SameRegion, end))
        }
        Some(Key::ParentPtr) => {
            let end = taken(tokens, place, far)?;
            Ok((Note::ParentPtr, end))
        }
        Some(Key::Traditional) => {
            let end = taken(tokens, place, far)?;
            Ok((Note::Traditional, end))
        }
        _ => Ok((Note::Plain, place)),
    }
}

/// Reads a type: a base and stars.
pub fn type_name(
    alloc: Global,
    tokens: &[Token],
    at: u32,
    depth: u32,
    far: u32,
) -> Result<(TypeName, u32), ParseFault>
    requires few { length tokens.now ≤ most_words }
    requires within { at ≤ length tokens.now }
    requires shallow { depth ≤ most_depth }
    ensures reads { ReadsAnywhere g.TypeName depth far tokens.now at type_of result }
    ensures place { IfOk result (λ r. (at < r.1) × (r.1 ≤ length tokens.now)) }
{
    let (base, place) = base(tokens, at, depth, far)?;
    let (stars, end) = stars(alloc, tokens, place, depth, far)?;
    Ok((TypeName { base, stars }, end))
}
