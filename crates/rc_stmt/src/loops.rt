// Loops (ISO C 6.8.5).
ghost use Rattle.std.specs.Prelude.{◌<◌, ◌≤◌, IfOk, length};
ghost use Rattle.rc_base.specs.Limits.{most_depth, most_words};
ghost use Rattle.rc_syntax.specs.declared.word.Key.TheVariants.{While, Do, For};
ghost use Rattle.rc_syntax.specs.Tokens.{key};
ghost use Rattle.rc_syntax.specs.Grammar as g;
ghost use Rattle.rc_syntax.specs.reader.Reading as r;
ghost use Rattle.rc_words.specs.Words.{spot_of, Stands};
ghost use Rattle.rc_stmt.specs.Shapes.{boxed_start, boxed_stmt};
ghost use Rattle.rc_stmt.specs.Along as along;
ghost use Rattle.rc_stmt.specs.Along.{Proceeds, Starts};

use crate::branches::condition;
use crate::heads::{expr_end, for_start, simple_end};
use crate::nodes::{do_node, for_node, while_node};
use crate::parts::{expect_key, expect_mark};
use crate::statements::statement;
use rc_syntax::fault::ParseFault;
use rc_syntax::tree::{ForStart, Stmt};
use rc_syntax::word::{Key, Mark, Token};
use rc_words::spot_at;
use std::alloc::Global;

// "while" "(" expr ")" stmt
/// Reads what belongs to the `while` at `at`.
#[cycle(statement)]
pub fn while_statement(
    alloc: Global,
    tokens: &[Token],
    at: u32,
    depth: u32,
) -> Result<(Box<Stmt>, u32), ParseFault>
    requires few { length tokens.now ≤ most_words }
    requires here { Stands tokens.now at (key While) }
    requires shallow { depth ≤ most_depth }
    ensures reads { Starts g.Stmt depth tokens.now at boxed_stmt result }
    ensures place { IfOk result (λ r. (at < r.1) × (r.1 ≤ length tokens.now)) }
{
    let (test, place) = condition(alloc, tokens, at, at + 1, depth)?;
    let (body, end) = statement(alloc, tokens, place, depth)?;
    let whole = while_node(alloc, spot_at(tokens, at), test, body)?;
    Ok((whole, end))
}

// "do" stmt "while" "(" expr ")" ";"
/// Reads what belongs to the `do` at `at`.
#[cycle(statement)]
pub fn do_statement(
    alloc: Global,
    tokens: &[Token],
    at: u32,
    depth: u32,
) -> Result<(Box<Stmt>, u32), ParseFault>
    requires few { length tokens.now ≤ most_words }
    requires here { Stands tokens.now at (key Do) }
    requires shallow { depth ≤ most_depth }
    ensures reads { Starts g.Stmt depth tokens.now at boxed_stmt result }
    ensures place { IfOk result (λ r. (at < r.1) × (r.1 ≤ length tokens.now)) }
{
    let (body, place) = statement(alloc, tokens, at + 1, depth)?;
    until(alloc, tokens, body, at, place, depth)
}

/// Reads `while`, a condition and a semicolon, after the body of a `do` that begins at `at`.
fn until(
    alloc: Global,
    tokens: &[Token],
    body: Box<Stmt>,
    at: u32,
    place: u32,
    depth: u32,
) -> Result<(Box<Stmt>, u32), ParseFault>
    requires few { length tokens.now ≤ most_words }
    requires within { place ≤ length tokens.now }
    requires behind { at < place }
    requires shallow { depth ≤ most_depth }
    ensures reads { Proceeds g.Stmt depth tokens.now at place (r.until (spot_of tokens.now at) (boxed_stmt body)) boxed_stmt result }
    ensures place { IfOk result (λ r. (place < r.1) × (r.1 ≤ length tokens.now)) }
{
    let behind = expect_key(tokens, place, Key::While)?;
    let (test, semicolon) = condition(alloc, tokens, at, behind, depth)?;
    let end = expect_mark(tokens, semicolon, Mark::Semicolon)?;
    let whole = do_node(alloc, spot_at(tokens, at), body, test)?;
    Ok((whole, end))
}

// "for" "(" (local | [simple] ";") [expr] ";" [simple] ")" stmt
/// Reads what belongs to the `for` at `at`.
#[cycle(statement)]
pub fn for_statement(
    alloc: Global,
    tokens: &[Token],
    at: u32,
    depth: u32,
) -> Result<(Box<Stmt>, u32), ParseFault>
    requires few { length tokens.now ≤ most_words }
    requires here { Stands tokens.now at (key For) }
    requires shallow { depth ≤ most_depth }
    ensures reads { Starts g.Stmt depth tokens.now at boxed_stmt result }
    ensures place { IfOk result (λ r. (at < r.1) × (r.1 ≤ length tokens.now)) }
{
    let inside = expect_mark(tokens, at + 1, Mark::OpenParenthesis)?;
    let (start, place) = for_start(alloc, tokens, inside, depth)?;
    for_started(alloc, tokens, start, at, place, depth)
}

/// Reads the rest of a `for` that begins at `at`, after the first part of its head.
#[cycle(statement)]
fn for_started(
    alloc: Global,
    tokens: &[Token],
    start: Box<ForStart>,
    at: u32,
    place: u32,
    depth: u32,
) -> Result<(Box<Stmt>, u32), ParseFault>
    requires few { length tokens.now ≤ most_words }
    requires within { place ≤ length tokens.now }
    requires behind { at < place }
    requires shallow { depth ≤ most_depth }
    ensures reads { Proceeds g.Stmt depth tokens.now at place (along.for_rest (spot_of tokens.now at) (boxed_start start)) boxed_stmt result }
    ensures place { IfOk result (λ r. (place < r.1) × (r.1 ≤ length tokens.now)) }
{
    let (test, next) = expr_end(alloc, tokens, place, depth)?;
    let (then, inside) = simple_end(alloc, tokens, next, depth)?;
    let (body, end) = statement(alloc, tokens, inside, depth)?;
    let whole = for_node(alloc, spot_at(tokens, at), start, test, then, body)?;
    Ok((whole, end))
}
