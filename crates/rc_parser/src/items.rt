// Items and whole texts (ISO C 6.9).
ghost use Rattle.std.specs.Prelude.{◌≡◌, ◌<◌, ◌≤◌, ◌-◌, IfOk, length, map};
ghost use Rattle.rc_base.specs.Limits.{most_words};
ghost use Rattle.rc_syntax.specs.declared.word.Key.TheVariants.{Deletes, Struct, Void};
ghost use Rattle.rc_syntax.specs.Tokens.{key};
ghost use Rattle.rc_syntax.specs.WordShapes.{tokens_of};
ghost use Rattle.rc_syntax.specs.Place.{AnswersAll, last_line};
ghost use Rattle.rc_syntax.specs.Grammar as g;
ghost use Rattle.rc_syntax.specs.reader.Reading as r;
ghost use Rattle.rc_syntax.specs.Shape as shape;
ghost use Rattle.rc_words.specs.Words.{spot_of, word_at, Stands, Misses};
ghost use Rattle.rc_stmt.specs.Along.{Parses, Proceeds};
ghost use Rattle.rc_parser.specs.Items.{begins_item};

use crate::fields::{DeclaratorHead, fields};
use crate::functions::{deleting, function_params, resultless};
use crate::globals::{decs_named, globals_of};
use crate::parts::{append, only};
use rc_stmt::{base, expect_mark, name, stars};
use rc_syntax::fault::ParseFault;
use rc_syntax::tree::{Base, Item, Name, Tree, TypeName};
use rc_syntax::word::{Key, Mark, Token};
use rc_words::{is_key, is_mark, key_at, line_at, refused_at, spot_at};
use std::alloc::Global;

// unit = { item } .
/// The tree of a whole text, with the line of its last word.
///
/// # Errors
/// `Syntax` with the line of the first word that can't follow those before it, or of the last word
/// where each can; 1 where there is no word. `Deep` with the line of the first word that is too
/// deep, where those before it can be followed. `Memory` when out of memory.
pub fn parse(alloc: Global, tokens: &[Token]) -> Result<Tree, ParseFault>
    requires { length tokens.now ≤ most_words }
    ensures answers { AnswersAll (tokens_of tokens.now) result }
    ensures last { IfOk result (λ tree. tree.last ≡ last_line (tokens_of tokens.now)) }
{
    let mut items = Vec::new(alloc);
    let mut place = 0;
    while item_begins(tokens, place) {
        let (more, end) = item(alloc, tokens, place)?;
        append(&mut items, more)?;
        place = end;
    }
    if (place as usize) < tokens.len() {
        return Err(refused_at(tokens, place));
    }
    let last = line_at(tokens, place);
    Ok(Tree { items, last })
}

/// Whether an item begins at a place.
fn item_begins(tokens: &[Token], at: u32) -> bool
    ensures { result ≡ begins_item (word_at tokens.now at) }
{
    match key_at(tokens, at) {
        Some(Key::Struct) => true,
        Some(Key::Deletes) => true,
        Some(Key::Void) => true,
        Some(Key::Int) => true,
        Some(Key::Unsigned) => true,
        Some(Key::Char) => true,
        Some(Key::Region) => true,
        _ => false,
    }
}

// item = "struct" NAME "{" field { field } "}" ";"
//      | base dec { "," dec } ";"
//      | ["deletes"] result NAME "(" [params] ")" ["deletes"] (block | ";") .
/// Reads an item: a struct, globals that share a base, or a function.
fn item(alloc: Global, tokens: &[Token], at: u32) -> Result<(Vec<Item>, u32), ParseFault>
    requires few { length tokens.now ≤ most_words }
    requires within { at ≤ length tokens.now }
    ensures reads { Parses g.Item 0 tokens.now at (λ v. map shape.item_of v.items) result }
    ensures place { IfOk result (λ r. (at < r.1) × (r.1 ≤ length tokens.now)) }
{
    if is_key(tokens, at, Key::Struct) {
        return struct_item(alloc, tokens, at);
    }
    if is_key(tokens, at, Key::Deletes) {
        return deleting(alloc, tokens, at);
    }
    if is_key(tokens, at, Key::Void) {
        return resultless(alloc, tokens, at);
    }
    typed_item(alloc, tokens, at)
}

// "struct" NAME "{" field { field } "}" ";"
/// Reads the definition of a struct, or an item whose base is one, after the `struct` at `at`.
fn struct_item(alloc: Global, tokens: &[Token], at: u32) -> Result<(Vec<Item>, u32), ParseFault>
    requires few { length tokens.now ≤ most_words }
    requires here { Stands tokens.now at (key Struct) }
    ensures reads { Parses g.Item 0 tokens.now at (λ v. map shape.item_of v.items) result }
    ensures place { IfOk result (λ r. (at < r.1) × (r.1 ≤ length tokens.now)) }
{
    let (name, place) = name(tokens, at + 1)?;
    struct_named(alloc, tokens, name, at, place)
}

/// Reads the definition of a struct, or an item whose base is one, after the name of the struct.
fn struct_named(
    alloc: Global,
    tokens: &[Token],
    name: Name,
    at: u32,
    place: u32,
) -> Result<(Vec<Item>, u32), ParseFault>
    requires few { length tokens.now ≤ most_words }
    requires within { place ≤ length tokens.now }
    requires behind { at < place }
    ensures reads { Proceeds g.Item 0 tokens.now at place (r.struct_named (spot_of tokens.now at) name) (λ v. map shape.item_of v.items) result }
    ensures place { IfOk result (λ r. (place < r.1) × (r.1 ≤ length tokens.now)) }
{
    if is_mark(tokens, place, Mark::OpenBrace) {
        return struct_fields(alloc, tokens, name, at, place + 1);
    }
    let base = Base::Struct(spot_at(tokens, at), name);
    item_based(alloc, tokens, base, at, place)
}

/// Reads the rest of the definition of a struct that begins at `at`, after the brace that opens it.
fn struct_fields(
    alloc: Global,
    tokens: &[Token],
    name: Name,
    at: u32,
    place: u32,
) -> Result<(Vec<Item>, u32), ParseFault>
    requires few { length tokens.now ≤ most_words }
    requires within { place ≤ length tokens.now }
    requires behind { at < place }
    ensures reads { Proceeds g.Item 0 tokens.now at place (r.struct_fields (spot_of tokens.now at) name) (λ v. map shape.item_of v.items) result }
    ensures place { IfOk result (λ r. (place < r.1) × (r.1 ≤ length tokens.now)) }
{
    let (fields, closing) = fields(alloc, tokens, place, 0)?;
    let semicolon = expect_mark(tokens, closing, Mark::CloseBrace)?;
    let end = expect_mark(tokens, semicolon, Mark::Semicolon)?;
    let definition = Item::Struct(spot_at(tokens, at), name, fields);
    let items = only(alloc, definition)?;
    Ok((items, end))
}

/// Reads an item that begins with a base.
fn typed_item(alloc: Global, tokens: &[Token], at: u32) -> Result<(Vec<Item>, u32), ParseFault>
    requires few { length tokens.now ≤ most_words }
    requires within { at ≤ length tokens.now }
    requires no_struct { Misses tokens.now at (key Struct) }
    requires not_deleting { Misses tokens.now at (key Deletes) }
    requires with_result { Misses tokens.now at (key Void) }
    ensures reads { Parses g.Item 0 tokens.now at (λ v. map shape.item_of v.items) result }
    ensures place { IfOk result (λ r. (at < r.1) × (r.1 ≤ length tokens.now)) }
{
    let (base, place) = base(tokens, at, 0)?;
    item_based(alloc, tokens, base, at, place)
}

/// Reads the rest of an item that begins at `at`, after its base.
fn item_based(
    alloc: Global,
    tokens: &[Token],
    base: Base,
    at: u32,
    place: u32,
) -> Result<(Vec<Item>, u32), ParseFault>
    requires few { length tokens.now ≤ most_words }
    requires within { place ≤ length tokens.now }
    requires behind { at < place }
    ensures reads { Proceeds g.Item 0 tokens.now at place (r.item_based (spot_of tokens.now at) base) (λ v. map shape.item_of v.items) result }
    ensures place { IfOk result (λ r. (place < r.1) × (r.1 ≤ length tokens.now)) }
{
    let (stars, behind) = stars(alloc, tokens, place, 0)?;
    let (name, end) = name(tokens, behind)?;
    let head = DeclaratorHead {
        at: place,
        stars,
        name,
    };
    item_named(alloc, tokens, base, head, at, end)
}

/// Reads the rest of a function or of globals, in an item that begins at `at`, after its base and
/// the head of its first declarator.
fn item_named(
    alloc: Global,
    tokens: &[Token],
    base: Base,
    head: DeclaratorHead,
    at: u32,
    place: u32,
) -> Result<(Vec<Item>, u32), ParseFault>
    requires few { length tokens.now ≤ most_words }
    requires within { place ≤ length tokens.now }
    requires later { at < head.at }
    requires behind { head.at < place }
    ensures reads { Proceeds g.Item 0 tokens.now at place (r.item_named (spot_of tokens.now at) base (head.at - at) (spot_of tokens.now head.at) head.stars.items head.name) (λ v. map shape.item_of v.items) result }
    ensures place { IfOk result (λ r. (place < r.1) × (r.1 ≤ length tokens.now)) }
{
    if !is_mark(tokens, place, Mark::OpenParenthesis) {
        return globals(alloc, tokens, base, head, at, place);
    }
    let returned = TypeName {
        base,
        stars: head.stars,
    };
    function_params(
        alloc,
        tokens,
        false,
        Some(returned),
        head.name,
        at,
        place + 1,
    )
}

// base dec { "," dec } ";"
/// Reads the rest of globals that share a base, in an item that begins at `at`, after the head of
/// the first of their declarators.
fn globals(
    alloc: Global,
    tokens: &[Token],
    base: Base,
    head: DeclaratorHead,
    at: u32,
    place: u32,
) -> Result<(Vec<Item>, u32), ParseFault>
    requires few { length tokens.now ≤ most_words }
    requires within { place ≤ length tokens.now }
    requires later { at < head.at }
    requires behind { head.at < place }
    ensures reads { Proceeds g.Item 0 tokens.now at place (r.global_named base (spot_of tokens.now head.at) (head.at - at) head.stars.items head.name) (λ v. map shape.item_of v.items) result }
    ensures place { IfOk result (λ r. (place < r.1) × (r.1 ≤ length tokens.now)) }
{
    let (declarators, semicolon) = decs_named(alloc, tokens, head, place, 0)?;
    let end = expect_mark(tokens, semicolon, Mark::Semicolon)?;
    let items = globals_of(alloc, &base, declarators)?;
    Ok((items, end))
}
