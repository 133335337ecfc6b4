// Declarators of globals, and the constants that globals begin with (ISO C 6.7.6, 6.7.9).
ghost use Rattle.std.specs.Prelude.{◌≡◌, ◌<◌, ◌≤◌, ◌∷◌, [], IfOk, IfErr, length, map};
ghost use Rattle.rc_base.specs.Limits.{most_depth, most_words};
ghost use Rattle.rc_syntax.specs.declared.fault.ParseFault.TheVariants.{Memory};
ghost use Rattle.rc_syntax.specs.declared.word.Mark.TheVariants as m;
ghost use Rattle.rc_syntax.specs.Tokens.{mark};
ghost use Rattle.rc_syntax.specs.WordShapes.{word_of};
ghost use Rattle.rc_syntax.specs.Grammar as g;
ghost use Rattle.rc_syntax.specs.reader.Todo.{build};
ghost use Rattle.rc_syntax.specs.reader.Reading as r;
ghost use Rattle.rc_syntax.specs.Shape as shape;
ghost use Rattle.rc_words.specs.Words.{spot_of, Stands};
ghost use Rattle.rc_stmt.specs.Along.{Parses, Proceeds};
ghost use Rattle.rc_parser.specs.Shapes.{declarator_of, global_of};
ghost use Rattle.rc_parser.specs.Items as items;
ghost use Rattle.rc_parser.specs.Items.{declarator_rest, dec_rest};

use crate::fields::{Declarator, DeclaratorHead, field_dec, field_named};
use crate::parts::number;
use rc_expr::add;
use rc_stmt::shared_base;
use rc_syntax::fault::ParseFault;
use rc_syntax::tree::{Base, Constant, Item, Spot, TypeName};
use rc_syntax::word::{Key, Mark, Token, Word};
use rc_words::{is_mark, refused_at, spot_at, word_here};
use std::alloc::Global;

/// A declarator of a global, and what the global begins with.
#[derive(Drop)]
pub struct GlobalDeclarator {
    pub declarator: Declarator,
    pub constant: Option<Constant>,
}

/// Reads the rest of declarators of globals, after the head of the first of them.
pub fn decs_named(
    alloc: Global,
    tokens: &[Token],
    head: DeclaratorHead,
    place: u32,
    depth: u32,
) -> Result<(Vec<GlobalDeclarator>, u32), ParseFault>
    requires few { length tokens.now ≤ most_words }
    requires within { place ≤ length tokens.now }
    requires behind { head.at < place }
    requires shallow { depth ≤ most_depth }
    ensures reads { Proceeds g.Decs depth tokens.now head.at place (dec_rest (spot_of tokens.now head.at) head.stars.items head.name) (λ v. map global_of v.items) result }
    ensures place { IfOk result (λ r. (place ≤ r.1) × (r.1 ≤ length tokens.now)) }
{
    let at = head.at;
    let (first, behind) = dec_named(tokens, head, place, depth)?;
    more_decs(alloc, tokens, first, at, behind, depth)
}

/// Reads commas and declarators of globals, as many as follow the first, which begins at `at`.
fn more_decs(
    alloc: Global,
    tokens: &[Token],
    first: GlobalDeclarator,
    at: u32,
    after: u32,
    depth: u32,
) -> Result<(Vec<GlobalDeclarator>, u32), ParseFault>
    requires few { length tokens.now ≤ most_words }
    requires within { after ≤ length tokens.now }
    requires behind { at < after }
    requires shallow { depth ≤ most_depth }
    ensures reads { Proceeds g.Decs depth tokens.now at after (build (global_of first ∷ [])) (λ v. map global_of v.items) result }
    ensures place { IfOk result (λ r. (after ≤ r.1) × (r.1 ≤ length tokens.now)) }
{
    let mut declarators = Vec::new(alloc);
    add(&mut declarators, first)?;
    let mut place = after;
    while is_mark(tokens, place, Mark::Comma) {
        let (declarator, end) = dec(alloc, tokens, place + 1, depth)?;
        add(&mut declarators, declarator)?;
        place = end;
    }
    Ok((declarators, place))
}

// dec = fdec ["=" constant] .
/// Reads a declarator of a global.
fn dec(
    alloc: Global,
    tokens: &[Token],
    at: u32,
    depth: u32,
) -> Result<(GlobalDeclarator, u32), ParseFault>
    requires few { length tokens.now ≤ most_words }
    requires within { at ≤ length tokens.now }
    requires shallow { depth ≤ most_depth }
    ensures reads { Parses g.Dec depth tokens.now at global_of result }
    ensures place { IfOk result (λ r. (at < r.1) × (r.1 ≤ length tokens.now)) }
{
    let (declarator, place) = field_dec(alloc, tokens, at, depth)?;
    initialised(tokens, declarator, at, place, depth)
}

/// Reads the rest of a declarator of a global, after its head.
fn dec_named(
    tokens: &[Token],
    head: DeclaratorHead,
    place: u32,
    depth: u32,
) -> Result<(GlobalDeclarator, u32), ParseFault>
    requires few { length tokens.now ≤ most_words }
    requires within { place ≤ length tokens.now }
    requires behind { head.at < place }
    requires shallow { depth ≤ most_depth }
    ensures reads { Proceeds g.Dec depth tokens.now head.at place (declarator_rest (spot_of tokens.now head.at) head.stars.items head.name) global_of result }
    ensures place { IfOk result (λ r. (place ≤ r.1) × (r.1 ≤ length tokens.now)) }
{
    let at = head.at;
    let (declarator, behind) = field_named(tokens, head, place, depth)?;
    initialised(tokens, declarator, at, behind, depth)
}

/// Reads what a global begins with, where that follows its declarator, which begins at `at`.
fn initialised(
    tokens: &[Token],
    declarator: Declarator,
    at: u32,
    place: u32,
    depth: u32,
) -> Result<(GlobalDeclarator, u32), ParseFault>
    requires few { length tokens.now ≤ most_words }
    requires within { place ≤ length tokens.now }
    requires behind { at < place }
    requires shallow { depth ≤ most_depth }
    ensures reads { Proceeds g.Dec depth tokens.now at place (r.initialised (declarator_of declarator)) global_of result }
    ensures place { IfOk result (λ r. (place ≤ r.1) × (r.1 ≤ length tokens.now)) }
{
    if !is_mark(tokens, place, Mark::Equal) {
        let plain = GlobalDeclarator {
            declarator,
            constant: None,
        };
        return Ok((plain, place));
    }
    let (constant, end) = constant(tokens, place + 1, depth)?;
    let with_constant = GlobalDeclarator {
        declarator,
        constant: Some(constant),
    };
    Ok((with_constant, end))
}

// constant = ["-"] NUMBER | CHARACTER | "NULL" | "EOF" .
/// Reads what a global may begin with.
fn constant(tokens: &[Token], at: u32, depth: u32) -> Result<(Constant, u32), ParseFault>
    requires few { length tokens.now ≤ most_words }
    requires within { at ≤ length tokens.now }
    requires shallow { depth ≤ most_depth }
    ensures reads { Parses g.Constant depth tokens.now at (λ i. i) result }
    ensures place { IfOk result (λ r. (at < r.1) × (r.1 ≤ length tokens.now)) }
{
    if is_mark(tokens, at, Mark::Minus) {
        return negative(tokens, at, depth);
    }
    let Some(word) = word_here(tokens, at) else {
        return Err(refused_at(tokens, at));
    };
    let Some(constant) = constant_of(spot_at(tokens, at), word) else {
        return Err(refused_at(tokens, at));
    };
    Ok((constant, at + 1))
}

/// The constant that this word is by itself.
fn constant_of(spot: Spot, word: &Word) -> Option<Constant>
    ensures { result ≡ items.constant_of spot (word_of word.now) }
{
    match word {
        Word::Number(value, unsigned) => Some(Constant::Number(spot, *value, *unsigned)),
        Word::Character(code) => Some(Constant::Character(spot, *code)),
        Word::Key(Key::Null) => Some(Constant::Null(spot)),
        Word::Key(Key::Eof) => Some(Constant::Eof(spot)),
        _ => None,
    }
}

/// Reads a number after the `-` at `at`.
fn negative(tokens: &[Token], at: u32, depth: u32) -> Result<(Constant, u32), ParseFault>
    requires few { length tokens.now ≤ most_words }
    requires here { Stands tokens.now at (mark m.Minus) }
    requires shallow { depth ≤ most_depth }
    ensures reads { Parses g.Constant depth tokens.now at (λ i. i) result }
    ensures place { IfOk result (λ r. (at < r.1) × (r.1 ≤ length tokens.now)) }
{
    let (number, end) = number(tokens, at + 1)?;
    let constant = Constant::Negative(spot_at(tokens, at), number.value, number.unsigned);
    Ok((constant, end))
}

/// The globals that declarators make of the base before them.
pub fn globals_of(
    alloc: Global,
    base: &Base,
    declarators: Vec<GlobalDeclarator>,
) -> Result<Vec<Item>, ParseFault>
    ensures ok { IfOk result (λ v. map shape.item_of v.items ≡ map (g.global base.now) (map global_of declarators.items)) }
    ensures err { IfErr result (λ f. f ≡ Memory) }
{
    let mut globals = Vec::new(alloc);
    for declarator in declarators {
        add(&mut globals, global(base, declarator)?)?;
    }
    Ok(globals)
}

/// The global that a declarator makes of the base before it.
fn global(base: &Base, global: GlobalDeclarator) -> Result<Item, ParseFault>
    ensures ok { IfOk result (λ i. shape.item_of i ≡ g.global base.now (global_of global)) }
    ensures err { IfErr result (λ f. f ≡ Memory) }
{
    let declarator = global.declarator;
    let base = shared_base(base)?;
    let type_name = TypeName {
        base,
        stars: declarator.stars,
    };
    Ok(Item::Global(
        declarator.spot,
        type_name,
        declarator.name,
        declarator.length,
        global.constant,
    ))
}
