// Blocks: statements and declarations of locals (ISO C 6.8.2).
ghost use Rattle.std.specs.Prelude.{◌≡◌, ◌<◌, ◌≤◌, IfOk, IfErr, length, map, true, false};
ghost use Rattle.rc_base.specs.Limits.{most_depth, most_words};
ghost use Rattle.rc_syntax.specs.declared.fault.ParseFault.TheVariants.{Memory};
ghost use Rattle.rc_syntax.specs.declared.word.Mark.TheVariants as m;
ghost use Rattle.rc_syntax.specs.Tokens.{mark};
ghost use Rattle.rc_syntax.specs.Tree as t;
ghost use Rattle.rc_syntax.specs.Grammar as g;
ghost use Rattle.rc_syntax.specs.reader.Reading as r;
ghost use Rattle.rc_syntax.specs.Shape as shape;
ghost use Rattle.rc_words.specs.Words.{word_at, Stands, Misses};
ghost use Rattle.rc_expr.specs.Goes.{begins_base};
ghost use Rattle.rc_stmt.specs.Shapes.{boxed_stmt};
ghost use Rattle.rc_stmt.specs.Along.{Parses, Proceeds, Starts, Grows};

use crate::locals::locals;
use crate::parts::expect_mark;
use crate::statements::statement;
use rc_expr::{add, base_begins, boxed};
use rc_syntax::fault::ParseFault;
use rc_syntax::tree::{Local, Stmt};
use rc_syntax::word::{Mark, Token};
use rc_words::{is_mark, spot_at};
use std::alloc::Global;

/// Reads a block that is a statement.
#[cycle(statement)]
pub fn block_statement(
    alloc: Global,
    tokens: &[Token],
    at: u32,
    depth: u32,
) -> Result<(Box<Stmt>, u32), ParseFault>
    requires few { length tokens.now ≤ most_words }
    requires here { Stands tokens.now at (mark m.OpenBrace) }
    requires shallow { depth ≤ most_depth }
    ensures reads { Starts g.Stmt depth tokens.now at boxed_stmt result }
    ensures place { IfOk result (λ r. (at < r.1) × (r.1 ≤ length tokens.now)) }
{
    let (body, end) = block(alloc, tokens, at, depth)?;
    let whole = boxed(alloc, Stmt::Block(spot_at(tokens, at), body))?;
    Ok((whole, end))
}

// block = "{" { local | stmt } "}" .
/// Reads a block: statements and declarators of locals in braces.
#[cycle(statement)]
pub fn block(
    alloc: Global,
    tokens: &[Token],
    at: u32,
    depth: u32,
) -> Result<(Vec<Stmt>, u32), ParseFault>
    requires few { length tokens.now ≤ most_words }
    requires within { at ≤ length tokens.now }
    requires shallow { depth ≤ most_depth }
    ensures reads { Parses g.Block depth tokens.now at (λ v. shape.stmts_of v.items) result }
    ensures place { IfOk result (λ r. (at < r.1) × (r.1 ≤ length tokens.now)) }
{
    let inside = expect_mark(tokens, at, Mark::OpenBrace)?;
    body(alloc, tokens, at, inside, depth)
}

/// Reads what is in a block that begins at `at`, and the brace that closes it.
#[cycle(statement)]
fn body(
    alloc: Global,
    tokens: &[Token],
    at: u32,
    inside: u32,
    depth: u32,
) -> Result<(Vec<Stmt>, u32), ParseFault>
    requires few { length tokens.now ≤ most_words }
    requires within { inside ≤ length tokens.now }
    requires behind { at < inside }
    requires shallow { depth ≤ most_depth }
    ensures reads { Proceeds g.Block depth tokens.now at inside r.block_body (λ v. shape.stmts_of v.items) result }
    ensures place { IfOk result (λ r. (inside < r.1) × (r.1 ≤ length tokens.now)) }
{
    let mut statements = Vec::new(alloc);
    let mut place = inside;
    while !is_mark(tokens, place, Mark::CloseBrace) {
        let (longer, end) = next(alloc, tokens, statements, at, inside, place, depth)?;
        statements = longer;
        place = end;
    }
    Ok((statements, place + 1))
}

/// Reads locals or a statement after the statements before, in a block that begins at `at` and
/// whose first statement begins at `inside`.
#[cycle(statement)]
fn next(
    alloc: Global,
    tokens: &[Token],
    before: Vec<Stmt>,
    at: u32,
    inside: u32,
    place: u32,
    depth: u32,
) -> Result<(Vec<Stmt>, u32), ParseFault>
    requires few { length tokens.now ≤ most_words }
    requires within { place ≤ length tokens.now }
    requires behind { at < inside }
    requires later { inside ≤ place }
    requires shallow { depth ≤ most_depth }
    requires open { Misses tokens.now place (mark m.CloseBrace) }
    ensures reads { Grows depth tokens.now at inside place (shape.stmts_of before.items) result }
    ensures place { IfOk result (λ r. (place < r.1) × (r.1 ≤ length tokens.now)) }
{
    if base_begins(tokens, place) {
        return next_locals(alloc, tokens, before, at, inside, place, depth);
    }
    next_statement(alloc, tokens, before, at, inside, place, depth)
}

/// Reads locals after the statements before.
fn next_locals(
    alloc: Global,
    tokens: &[Token],
    before: Vec<Stmt>,
    at: u32,
    inside: u32,
    place: u32,
    depth: u32,
) -> Result<(Vec<Stmt>, u32), ParseFault>
    requires few { length tokens.now ≤ most_words }
    requires within { place ≤ length tokens.now }
    requires behind { at < inside }
    requires later { inside ≤ place }
    requires shallow { depth ≤ most_depth }
    requires open { Misses tokens.now place (mark m.CloseBrace) }
    requires typed { begins_base (word_at tokens.now place) ≡ true }
    ensures reads { Grows depth tokens.now at inside place (shape.stmts_of before.items) result }
    ensures place { IfOk result (λ r. (place < r.1) × (r.1 ≤ length tokens.now)) }
{
    let (locals, end) = locals(alloc, tokens, place, depth)?;
    let longer = with_locals(before, locals)?;
    Ok((longer, end))
}

/// The statements and the declarators of locals after them.
fn with_locals(before: Vec<Stmt>, locals: Vec<Local>) -> Result<Vec<Stmt>, ParseFault>
    ensures ok { IfOk result (λ v. shape.stmts_of v.items ≡ g.joined (shape.stmts_of before.items) (g.stmts_of (map shape.local_of locals.items))) }
    ensures err { IfErr result (λ f. f ≡ Memory) }
{
    let mut statements = before;
    for local in locals {
        add(&mut statements, Stmt::Local(local))?;
    }
    Ok(statements)
}

/// Reads a statement after the statements before.
#[cycle(statement)]
fn next_statement(
    alloc: Global,
    tokens: &[Token],
    before: Vec<Stmt>,
    at: u32,
    inside: u32,
    place: u32,
    depth: u32,
) -> Result<(Vec<Stmt>, u32), ParseFault>
    requires few { length tokens.now ≤ most_words }
    requires within { place ≤ length tokens.now }
    requires behind { at < inside }
    requires later { inside ≤ place }
    requires shallow { depth ≤ most_depth }
    requires open { Misses tokens.now place (mark m.CloseBrace) }
    requires untyped { begins_base (word_at tokens.now place) ≡ false }
    ensures reads { Grows depth tokens.now at inside place (shape.stmts_of before.items) result }
    ensures place { IfOk result (λ r. (place < r.1) × (r.1 ≤ length tokens.now)) }
{
    let (statement, end) = statement(alloc, tokens, place, depth)?;
    let longer = with_statement(before, statement)?;
    Ok((longer, end))
}

/// The statements and one after them.
fn with_statement(before: Vec<Stmt>, statement: Box<Stmt>) -> Result<Vec<Stmt>, ParseFault>
    ensures ok { IfOk result (λ v. shape.stmts_of v.items ≡ g.joined (shape.stmts_of before.items) (t.next (boxed_stmt statement) t.done)) }
    ensures err { IfErr result (λ f. f ≡ Memory) }
{
    let mut statements = before;
    add(&mut statements, Box::into_inner(statement))?;
    Ok(statements)
}
