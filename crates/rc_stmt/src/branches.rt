// `if` statements (ISO C 6.8.4.1), and the conditions of statements.
ghost use Rattle.std.specs.Prelude.{◌<◌, ◌≤◌, IfOk, length};
ghost use Rattle.rc_base.specs.Limits.{most_depth, most_words};
ghost use Rattle.rc_syntax.specs.declared.word.Key.TheVariants.{If};
ghost use Rattle.rc_syntax.specs.Tokens.{key};
ghost use Rattle.rc_syntax.specs.Grammar as g;
ghost use Rattle.rc_syntax.specs.reader.Reading as r;
ghost use Rattle.rc_words.specs.Words.{spot_of, Stands};
ghost use Rattle.rc_expr.specs.Goes.{boxed_of};
ghost use Rattle.rc_stmt.specs.Shapes.{boxed_stmt};
ghost use Rattle.rc_stmt.specs.Along.{Proceeds, Starts, ReadsCondition};

use crate::nodes::{if_else_node, if_node};
use crate::parts::{expect_mark, expression};
use crate::statements::statement;
use rc_syntax::fault::ParseFault;
use rc_syntax::tree::{Expr, Stmt};
use rc_syntax::word::{Key, Mark, Token};
use rc_words::{is_key, spot_at};
use std::alloc::Global;

// "(" expr ")"
/// Reads a condition in parentheses, after a word that begins a statement at `at`.
pub fn condition(
    alloc: Global,
    tokens: &[Token],
    at: u32,
    place: u32,
    depth: u32,
) -> Result<(Box<Expr>, u32), ParseFault>
    requires few { length tokens.now ≤ most_words }
    requires within { place ≤ length tokens.now }
    requires behind { at < place }
    requires shallow { depth ≤ most_depth }
    ensures reads { ReadsCondition depth tokens.now at place result }
    ensures place { IfOk result (λ r. (place < r.1) × (r.1 ≤ length tokens.now)) }
{
    let inside = expect_mark(tokens, place, Mark::OpenParenthesis)?;
    let (value, behind) = expression(alloc, tokens, inside, depth)?;
    let end = expect_mark(tokens, behind, Mark::CloseParenthesis)?;
    Ok((value, end))
}

// "if" "(" expr ")" stmt ["else" stmt]
/// Reads what belongs to the `if` at `at`, with the nearest `else`.
#[cycle(statement)]
pub fn if_statement(
    alloc: Global,
    tokens: &[Token],
    at: u32,
    depth: u32,
) -> Result<(Box<Stmt>, u32), ParseFault>
    requires few { length tokens.now ≤ most_words }
    requires here { Stands tokens.now at (key If) }
    requires shallow { depth ≤ most_depth }
    ensures reads { Starts g.Stmt depth tokens.now at boxed_stmt result }
    ensures place { IfOk result (λ r. (at < r.1) × (r.1 ≤ length tokens.now)) }
{
    let (test, place) = condition(alloc, tokens, at, at + 1, depth)?;
    let (then, behind) = statement(alloc, tokens, place, depth)?;
    if_done(alloc, tokens, test, then, at, behind, depth)
}

/// Reads an `else` and its statement, where they follow an `if` that begins at `at`.
#[cycle(statement)]
fn if_done(
    alloc: Global,
    tokens: &[Token],
    test: Box<Expr>,
    then: Box<Stmt>,
    at: u32,
    place: u32,
    depth: u32,
) -> Result<(Box<Stmt>, u32), ParseFault>
    requires few { length tokens.now ≤ most_words }
    requires within { place ≤ length tokens.now }
    requires behind { at < place }
    requires shallow { depth ≤ most_depth }
    ensures reads { Proceeds g.Stmt depth tokens.now at place (r.if_done (spot_of tokens.now at) (boxed_of test) (boxed_stmt then)) boxed_stmt result }
    ensures place { IfOk result (λ r. (place ≤ r.1) × (r.1 ≤ length tokens.now)) }
{
    if !is_key(tokens, place, Key::Else) {
        let whole = if_node(alloc, spot_at(tokens, at), test, then)?;
        return Ok((whole, place));
    }
    let (other, end) = statement(alloc, tokens, place + 1, depth)?;
    let whole = if_else_node(alloc, spot_at(tokens, at), test, then, other)?;
    Ok((whole, end))
}
