// Declarations of locals (ISO C 6.7, 6.7.6, 6.7.9).
ghost use Rattle.std.specs.Prelude.{◌≡◌, ◌<◌, ◌≤◌, IfOk, IfErr, length, map};
ghost use Rattle.rc_base.specs.Limits.{most_depth, most_words};
ghost use Rattle.rc_syntax.specs.declared.fault.ParseFault.TheVariants.{Memory};
ghost use Rattle.rc_syntax.specs.Grammar as g;
ghost use Rattle.rc_syntax.specs.reader.Reading as r;
ghost use Rattle.rc_syntax.specs.Shape as shape;
ghost use Rattle.rc_words.specs.Words.{spot_of};
ghost use Rattle.rc_stmt.specs.Shapes.{local_declarator_of};
ghost use Rattle.rc_stmt.specs.Along.{Parses, Proceeds};

use crate::nodes::unboxed;
use crate::parts::{base, expect_mark, expression, name, shared_base, stars};
use rc_expr::add;
use rc_syntax::fault::ParseFault;
use rc_syntax::tree::{Base, Expr, Local, Name, Note, Spot, TypeName};
use rc_syntax::word::{Mark, Token};
use rc_words::{is_mark, spot_at};
use std::alloc::Global;

/// A declarator of a local, and what the local begins with.
#[derive(Drop)]
pub struct LocalDeclarator {
    pub spot: Spot,
    pub stars: Vec<Note>,
    pub name: Name,
    pub initial: Option<Box<Expr>>,
}

// local = base ldec { "," ldec } ";" .
/// Reads locals that share a base type, and the semicolon after them.
pub fn locals(
    alloc: Global,
    tokens: &[Token],
    at: u32,
    depth: u32,
) -> Result<(Vec<Local>, u32), ParseFault>
    requires few { length tokens.now ≤ most_words }
    requires within { at ≤ length tokens.now }
    requires shallow { depth ≤ most_depth }
    ensures reads { Parses g.Locals depth tokens.now at (λ v. map shape.local_of v.items) result }
    ensures place { IfOk result (λ r. (at < r.1) × (r.1 ≤ length tokens.now)) }
{
    let (base, place) = base(tokens, at, depth)?;
    let (declarators, behind) = local_decs(alloc, tokens, place, depth)?;
    let end = expect_mark(tokens, behind, Mark::Semicolon)?;
    let locals = locals_of(alloc, &base, declarators)?;
    Ok((locals, end))
}

/// Reads declarators of locals with commas between them.
fn local_decs(
    alloc: Global,
    tokens: &[Token],
    at: u32,
    depth: u32,
) -> Result<(Vec<LocalDeclarator>, u32), ParseFault>
    requires few { length tokens.now ≤ most_words }
    requires within { at ≤ length tokens.now }
    requires shallow { depth ≤ most_depth }
    ensures reads { Parses g.LocalDecs depth tokens.now at (λ v. map local_declarator_of v.items) result }
    ensures place { IfOk result (λ r. (at < r.1) × (r.1 ≤ length tokens.now)) }
{
    let (first, after) = local_dec(alloc, tokens, at, depth)?;
    let mut declarators = Vec::new(alloc);
    add(&mut declarators, first)?;
    let mut place = after;
    while is_mark(tokens, place, Mark::Comma) {
        let (declarator, end) = local_dec(alloc, tokens, place + 1, depth)?;
        add(&mut declarators, declarator)?;
        place = end;
    }
    Ok((declarators, place))
}

// ldec = stars NAME ["=" expr] .
/// Reads a declarator of a local.
fn local_dec(
    alloc: Global,
    tokens: &[Token],
    at: u32,
    depth: u32,
) -> Result<(LocalDeclarator, u32), ParseFault>
    requires few { length tokens.now ≤ most_words }
    requires within { at ≤ length tokens.now }
    requires shallow { depth ≤ most_depth }
    ensures reads { Parses g.LocalDec depth tokens.now at local_declarator_of result }
    ensures place { IfOk result (λ r. (at < r.1) × (r.1 ≤ length tokens.now)) }
{
    let (stars, place) = stars(alloc, tokens, at, depth)?;
    let (name, behind) = name(tokens, place)?;
    local_named(alloc, tokens, stars, name, at, behind, depth)
}

/// Reads what a local begins with, where that follows the stars and the name of its declarator,
/// which begins at `at`.
fn local_named(
    alloc: Global,
    tokens: &[Token],
    stars: Vec<Note>,
    name: Name,
    at: u32,
    place: u32,
    depth: u32,
) -> Result<(LocalDeclarator, u32), ParseFault>
    requires few { length tokens.now ≤ most_words }
    requires within { place ≤ length tokens.now }
    requires behind { at < place }
    requires shallow { depth ≤ most_depth }
    ensures reads { Proceeds g.LocalDec depth tokens.now at place (r.local_named (spot_of tokens.now at) stars.items name) local_declarator_of result }
    ensures place { IfOk result (λ r. (place ≤ r.1) × (r.1 ≤ length tokens.now)) }
{
    let spot = spot_at(tokens, at);
    if !is_mark(tokens, place, Mark::Equal) {
        let plain = LocalDeclarator {
            spot,
            stars,
            name,
            initial: None,
        };
        return Ok((plain, place));
    }
    let (initial, end) = expression(alloc, tokens, place + 1, depth)?;
    let with_initial = LocalDeclarator {
        spot,
        stars,
        name,
        initial: Some(initial),
    };
    Ok((with_initial, end))
}

/// The locals that declarators make of the base before them.
fn locals_of(
    alloc: Global,
    base: &Base,
    declarators: Vec<LocalDeclarator>,
) -> Result<Vec<Local>, ParseFault>
    ensures ok { IfOk result (λ v. map shape.local_of v.items ≡ map (g.local base.now) (map local_declarator_of declarators.items)) }
    ensures err { IfErr result (λ f. f ≡ Memory) }
{
    let mut locals = Vec::new(alloc);
    for declarator in declarators {
        add(&mut locals, local(base, declarator)?)?;
    }
    Ok(locals)
}

/// The local that a declarator makes of the base before it.
fn local(base: &Base, declarator: LocalDeclarator) -> Result<Local, ParseFault>
    ensures ok { IfOk result (λ l. shape.local_of l ≡ g.local base.now (local_declarator_of declarator)) }
    ensures err { IfErr result (λ f. f ≡ Memory) }
{
    let base = shared_base(base)?;
    let type_name = TypeName {
        base,
        stars: declarator.stars,
    };
    Ok(Local {
        spot: declarator.spot,
        type_name,
        name: declarator.name,
        initial: unboxed(declarator.initial),
    })
}
