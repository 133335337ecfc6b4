// Declarators of fields and globals, and the fields of structs (ISO C 6.7.2.1, 6.7.6).
ghost use Rattle.std.specs.Prelude.{◌≡◌, ◌<◌, ◌≤◌, IfOk, IfErr, length, map};
ghost use Rattle.rc_base.specs.Limits.{most_depth, most_words};
ghost use Rattle.rc_syntax.specs.declared.fault.ParseFault.TheVariants.{Memory};
ghost use Rattle.rc_syntax.specs.Grammar as g;
ghost use Rattle.rc_syntax.specs.reader.Reading as r;
ghost use Rattle.rc_syntax.specs.Shape as shape;
ghost use Rattle.rc_words.specs.Words.{spot_of};
ghost use Rattle.rc_stmt.specs.Along.{Parses, Proceeds};
ghost use Rattle.rc_parser.specs.Shapes.{declarator_of};

use crate::parts::{append, number};
use rc_expr::{add, base_begins};
use rc_stmt::{base, expect_mark, name, shared_base, stars};
use rc_syntax::fault::ParseFault;
use rc_syntax::tree::{Base, Field, Name, Note, Spot, TypeName};
use rc_syntax::word::{Mark, Token};
use rc_words::{is_mark, spot_at};
use std::alloc::Global;

/// What every declarator begins with: stars and a name.
#[derive(Drop)]
pub struct DeclaratorHead {
    /// The place of its first word.
    pub at: u32,
    pub stars: Vec<Note>,
    pub name: Name,
}

/// What a declarator of a field or of a global says: stars, a name, and perhaps a length.
#[derive(Drop)]
pub struct Declarator {
    pub spot: Spot,
    pub stars: Vec<Note>,
    pub name: Name,
    /// Of an array, the number between the brackets.
    pub length: Option<u32>,
}

/// Reads the fields of a struct, at least one.
pub fn fields(
    alloc: Global,
    tokens: &[Token],
    at: u32,
    depth: u32,
) -> Result<(Vec<Field>, u32), ParseFault>
    requires few { length tokens.now ≤ most_words }
    requires within { at ≤ length tokens.now }
    requires shallow { depth ≤ most_depth }
    ensures reads { Parses g.Fields depth tokens.now at (λ v. map shape.field_of v.items) result }
    ensures place { IfOk result (λ r. (at < r.1) × (r.1 ≤ length tokens.now)) }
{
    let (first, after) = field_group(alloc, tokens, at, depth)?;
    let mut fields = first;
    let mut place = after;
    while base_begins(tokens, place) {
        let (more, end) = field_group(alloc, tokens, place, depth)?;
        append(&mut fields, more)?;
        place = end;
    }
    Ok((fields, place))
}

// field = base fdec { "," fdec } ";" .
/// Reads fields that share a base type, and the semicolon after them.
fn field_group(
    alloc: Global,
    tokens: &[Token],
    at: u32,
    depth: u32,
) -> Result<(Vec<Field>, u32), ParseFault>
    requires few { length tokens.now ≤ most_words }
    requires within { at ≤ length tokens.now }
    requires shallow { depth ≤ most_depth }
    ensures reads { Parses g.Field depth tokens.now at (λ v. map shape.field_of v.items) result }
    ensures place { IfOk result (λ r. (at < r.1) × (r.1 ≤ length tokens.now)) }
{
    let (base, place) = base(tokens, at, depth)?;
    let (declarators, behind) = field_decs(alloc, tokens, place, depth)?;
    let end = expect_mark(tokens, behind, Mark::Semicolon)?;
    let fields = fields_of(alloc, &base, declarators)?;
    Ok((fields, end))
}

/// Reads declarators of fields with commas between them.
fn field_decs(
    alloc: Global,
    tokens: &[Token],
    at: u32,
    depth: u32,
) -> Result<(Vec<Declarator>, u32), ParseFault>
    requires few { length tokens.now ≤ most_words }
    requires within { at ≤ length tokens.now }
    requires shallow { depth ≤ most_depth }
    ensures reads { Parses g.FieldDecs depth tokens.now at (λ v. map declarator_of v.items) result }
    ensures place { IfOk result (λ r. (at < r.1) × (r.1 ≤ length tokens.now)) }
{
    let (first, after) = field_dec(alloc, tokens, at, depth)?;
    let mut declarators = Vec::new(alloc);
    add(&mut declarators, first)?;
    let mut place = after;
    while is_mark(tokens, place, Mark::Comma) {
        let (declarator, end) = field_dec(alloc, tokens, place + 1, depth)?;
        add(&mut declarators, declarator)?;
        place = end;
    }
    Ok((declarators, place))
}

// fdec = stars NAME ["[" NUMBER "]"] .
/// Reads a declarator that may have a length.
pub fn field_dec(
    alloc: Global,
    tokens: &[Token],
    at: u32,
    depth: u32,
) -> Result<(Declarator, u32), ParseFault>
    requires few { length tokens.now ≤ most_words }
    requires within { at ≤ length tokens.now }
    requires shallow { depth ≤ most_depth }
    ensures reads { Parses g.FieldDec depth tokens.now at declarator_of result }
    ensures place { IfOk result (λ r. (at < r.1) × (r.1 ≤ length tokens.now)) }
{
    let (stars, place) = stars(alloc, tokens, at, depth)?;
    let (name, behind) = name(tokens, place)?;
    let head = DeclaratorHead { at, stars, name };
    field_named(tokens, head, behind, depth)
}

/// Reads the length of an array, where one follows the head of a declarator.
pub fn field_named(
    tokens: &[Token],
    head: DeclaratorHead,
    place: u32,
    depth: u32,
) -> Result<(Declarator, u32), ParseFault>
    requires few { length tokens.now ≤ most_words }
    requires within { place ≤ length tokens.now }
    requires behind { head.at < place }
    requires shallow { depth ≤ most_depth }
    ensures reads { Proceeds g.FieldDec depth tokens.now head.at place (r.field_named (spot_of tokens.now head.at) head.stars.items head.name) declarator_of result }
    ensures place { IfOk result (λ r. (place ≤ r.1) × (r.1 ≤ length tokens.now)) }
{
    let spot = spot_at(tokens, head.at);
    if !is_mark(tokens, place, Mark::OpenBracket) {
        let plain = Declarator {
            spot,
            stars: head.stars,
            name: head.name,
            length: None,
        };
        return Ok((plain, place));
    }
    let (number, behind) = number(tokens, place + 1)?;
    let end = expect_mark(tokens, behind, Mark::CloseBracket)?;
    let array = Declarator {
        spot,
        stars: head.stars,
        name: head.name,
        length: Some(number.value),
    };
    Ok((array, end))
}

/// The fields that declarators make of the base before them.
fn fields_of(
    alloc: Global,
    base: &Base,
    declarators: Vec<Declarator>,
) -> Result<Vec<Field>, ParseFault>
    ensures ok { IfOk result (λ v. map shape.field_of v.items ≡ map (g.field base.now) (map declarator_of declarators.items)) }
    ensures err { IfErr result (λ f. f ≡ Memory) }
{
    let mut fields = Vec::new(alloc);
    for declarator in declarators {
        add(&mut fields, field(base, declarator)?)?;
    }
    Ok(fields)
}

/// The field that a declarator makes of the base before it.
fn field(base: &Base, declarator: Declarator) -> Result<Field, ParseFault>
    ensures ok { IfOk result (λ f. shape.field_of f ≡ g.field base.now (declarator_of declarator)) }
    ensures err { IfErr result (λ f. f ≡ Memory) }
{
    let base = shared_base(base)?;
    let type_name = TypeName {
        base,
        stars: declarator.stars,
    };
    Ok(Field {
        spot: declarator.spot,
        type_name,
        name: declarator.name,
        length: declarator.length,
    })
}
