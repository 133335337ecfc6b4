// The heads of `for` statements (ISO C 6.8.5.3), and the expression of a `return`.
ghost use Rattle.std.specs.Prelude.{◌≡◌, ◌<◌, ◌≤◌, IfOk, length, true, false};
ghost use Rattle.rc_base.specs.Limits.{most_depth, most_words};
ghost use Rattle.rc_syntax.specs.declared.word.Mark.TheVariants as m;
ghost use Rattle.rc_syntax.specs.Tokens.{mark};
ghost use Rattle.rc_syntax.specs.Grammar as g;
ghost use Rattle.rc_syntax.specs.Shape as shape;
ghost use Rattle.rc_words.specs.Words.{word_at, Misses};
ghost use Rattle.rc_expr.specs.Goes.{boxed_of, begins_base};
ghost use Rattle.rc_stmt.specs.Shapes.{boxed_simple, boxed_start};
ghost use Rattle.rc_stmt.specs.Along.{Parses};

use crate::locals::locals;
use crate::parts::{expect_mark, expression};
use crate::simples::simple;
use rc_expr::{base_begins, boxed};
use rc_syntax::fault::ParseFault;
use rc_syntax::tree::{Expr, ForStart, Simple};
use rc_syntax::word::{Mark, Token};
use rc_words::is_mark;
use std::alloc::Global;

// local | [simple] ";"
/// Reads the first part of the head of a `for`, with the semicolon after.
pub fn for_start(
    alloc: Global,
    tokens: &[Token],
    at: u32,
    depth: u32,
) -> Result<(Box<ForStart>, u32), ParseFault>
    requires few { length tokens.now ≤ most_words }
    requires within { at ≤ length tokens.now }
    requires shallow { depth ≤ most_depth }
    ensures reads { Parses g.ForStart depth tokens.now at boxed_start result }
    ensures place { IfOk result (λ r. (at < r.1) × (r.1 ≤ length tokens.now)) }
{
    if is_mark(tokens, at, Mark::Semicolon) {
        let start = boxed(alloc, ForStart::Nothing)?;
        return Ok((start, at + 1));
    }
    if base_begins(tokens, at) {
        return for_locals(alloc, tokens, at, depth);
    }
    for_simple(alloc, tokens, at, depth)
}

/// Reads locals with which a `for` begins.
fn for_locals(
    alloc: Global,
    tokens: &[Token],
    at: u32,
    depth: u32,
) -> Result<(Box<ForStart>, u32), ParseFault>
    requires few { length tokens.now ≤ most_words }
    requires within { at ≤ length tokens.now }
    requires shallow { depth ≤ most_depth }
    requires typed { begins_base (word_at tokens.now at) ≡ true }
    ensures reads { Parses g.ForStart depth tokens.now at boxed_start result }
    ensures place { IfOk result (λ r. (at < r.1) × (r.1 ≤ length tokens.now)) }
{
    let (locals, end) = locals(alloc, tokens, at, depth)?;
    let start = boxed(alloc, ForStart::Locals(locals))?;
    Ok((start, end))
}

/// Reads what a `for` begins with by itself.
fn for_simple(
    alloc: Global,
    tokens: &[Token],
    at: u32,
    depth: u32,
) -> Result<(Box<ForStart>, u32), ParseFault>
    requires few { length tokens.now ≤ most_words }
    requires within { at ≤ length tokens.now }
    requires shallow { depth ≤ most_depth }
    requires some { Misses tokens.now at (mark m.Semicolon) }
    requires untyped { begins_base (word_at tokens.now at) ≡ false }
    ensures reads { Parses g.ForStart depth tokens.now at boxed_start result }
    ensures place { IfOk result (λ r. (at < r.1) × (r.1 ≤ length tokens.now)) }
{
    let (value, behind) = simple(alloc, tokens, at, depth)?;
    let end = expect_mark(tokens, behind, Mark::Semicolon)?;
    let start = boxed(alloc, ForStart::Simple(Box::into_inner(value)))?;
    Ok((start, end))
}

// [expr] ";"
/// Reads an expression or none, and the semicolon after.
pub fn expr_end(
    alloc: Global,
    tokens: &[Token],
    at: u32,
    depth: u32,
) -> Result<(Option<Box<Expr>>, u32), ParseFault>
    requires few { length tokens.now ≤ most_words }
    requires within { at ≤ length tokens.now }
    requires shallow { depth ≤ most_depth }
    ensures reads { Parses g.ExprEnd depth tokens.now at (λ e. shape.mapped boxed_of e) result }
    ensures place { IfOk result (λ r. (at < r.1) × (r.1 ≤ length tokens.now)) }
{
    if is_mark(tokens, at, Mark::Semicolon) {
        return Ok((None, at + 1));
    }
    let (value, behind) = expression(alloc, tokens, at, depth)?;
    let end = expect_mark(tokens, behind, Mark::Semicolon)?;
    Ok((Some(value), end))
}

// [simple] ")"
/// Reads what is done after each turn of a `for`, or nothing, and the parenthesis after.
pub fn simple_end(
    alloc: Global,
    tokens: &[Token],
    at: u32,
    depth: u32,
) -> Result<(Option<Box<Simple>>, u32), ParseFault>
    requires few { length tokens.now ≤ most_words }
    requires within { at ≤ length tokens.now }
    requires shallow { depth ≤ most_depth }
    ensures reads { Parses g.SimpleEnd depth tokens.now at (λ e. shape.mapped boxed_simple e) result }
    ensures place { IfOk result (λ r. (at < r.1) × (r.1 ≤ length tokens.now)) }
{
    if is_mark(tokens, at, Mark::CloseParenthesis) {
        return Ok((None, at + 1));
    }
    let (value, behind) = simple(alloc, tokens, at, depth)?;
    let end = expect_mark(tokens, behind, Mark::CloseParenthesis)?;
    Ok((Some(value), end))
}
