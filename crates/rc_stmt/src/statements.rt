// Statements (ISO C 6.8).
ghost use Rattle.std.specs.Prelude.{◌≡◌, ◌<◌, ◌≤◌, IfOk, length, None};
ghost use Rattle.rc_base.specs.Limits.{most_depth, most_words};
ghost use Rattle.rc_syntax.specs.declared.word.Key.TheVariants.{Break, Continue, Return};
ghost use Rattle.rc_syntax.specs.declared.word.Mark.TheVariants as m;
ghost use Rattle.rc_syntax.specs.Tokens.{mark, key};
ghost use Rattle.rc_syntax.specs.Grammar as g;
ghost use Rattle.rc_words.specs.Words.{word_at, Stands};
ghost use Rattle.rc_stmt.specs.Shapes.{boxed_stmt};
ghost use Rattle.rc_words.specs.Begins.{first_word, head_in};
ghost use Rattle.rc_stmt.specs.Along.{Parses, Starts};

use crate::blocks::block_statement;
use crate::branches::if_statement;
use crate::heads::expr_end;
use crate::loops::{do_statement, for_statement, while_statement};
use crate::nodes::unboxed;
use crate::parts::expect_mark;
use crate::simples::simple;
use rc_base::MOST_DEPTH;
use rc_expr::boxed;
use rc_syntax::fault::ParseFault;
use rc_syntax::tree::Stmt;
use rc_syntax::word::{Mark, Token};
use rc_words::{Head, head_at, spot_at, too_deep};
use std::alloc::Global;

// stmt = block | ";" | simple ";"
//      | "if" "(" expr ")" stmt ["else" stmt]
//      | "while" "(" expr ")" stmt
//      | "do" stmt "while" "(" expr ")" ";"
//      | "for" "(" (local | [simple] ";") [expr] ";" [simple] ")" stmt
//      | "break" ";" | "continue" ";" | "return" [expr] ";" .
/// Reads a statement. The words around it are nested `depth` deep, its own deeper by one.
#[cycle(statement)]
pub fn statement(
    alloc: Global,
    tokens: &[Token],
    at: u32,
    depth: u32,
) -> Result<(Box<Stmt>, u32), ParseFault>
    requires few { length tokens.now ≤ most_words }
    requires within { at ≤ length tokens.now }
    requires shallow { depth ≤ most_depth }
    ensures reads { Parses g.Stmt depth tokens.now at boxed_stmt result }
    ensures place { IfOk result (λ r. (at < r.1) × (r.1 ≤ length tokens.now)) }
{
    if depth >= MOST_DEPTH {
        return Err(too_deep(tokens, at));
    }
    nested(alloc, tokens, at, depth + 1)
}

/// Reads a statement whose words are nested `depth` deep.
#[cycle(statement)]
fn nested(
    alloc: Global,
    tokens: &[Token],
    at: u32,
    depth: u32,
) -> Result<(Box<Stmt>, u32), ParseFault>
    requires few { length tokens.now ≤ most_words }
    requires within { at ≤ length tokens.now }
    requires shallow { depth ≤ most_depth }
    ensures reads { Starts g.Stmt depth tokens.now at boxed_stmt result }
    ensures place { IfOk result (λ r. (at < r.1) × (r.1 ≤ length tokens.now)) }
{
    let Some(head) = head_at(tokens, at) else {
        return simple_statement(alloc, tokens, at, depth);
    };
    headed(alloc, tokens, head, at, depth)
}

/// Reads a statement that begins so at `at`.
#[cycle(statement)]
fn headed(
    alloc: Global,
    tokens: &[Token],
    head: Head,
    at: u32,
    depth: u32,
) -> Result<(Box<Stmt>, u32), ParseFault>
    requires few { length tokens.now ≤ most_words }
    requires here { Stands tokens.now at (first_word head) }
    requires shallow { depth ≤ most_depth }
    ensures reads { Starts g.Stmt depth tokens.now at boxed_stmt result }
    ensures place { IfOk result (λ r. (at < r.1) × (r.1 ≤ length tokens.now)) }
{
    match head {
        Head::Empty => empty_statement(alloc, tokens, at, depth),
        Head::Block => block_statement(alloc, tokens, at, depth),
        Head::If => if_statement(alloc, tokens, at, depth),
        Head::While => while_statement(alloc, tokens, at, depth),
        Head::Do => do_statement(alloc, tokens, at, depth),
        Head::For => for_statement(alloc, tokens, at, depth),
        Head::Break => break_statement(alloc, tokens, at, depth),
        Head::Continue => continue_statement(alloc, tokens, at, depth),
        Head::Return => return_statement(alloc, tokens, at, depth),
    }
}

// ";"
/// The statement that the `;` at `at` is.
fn empty_statement(
    alloc: Global,
    tokens: &[Token],
    at: u32,
    depth: u32,
) -> Result<(Box<Stmt>, u32), ParseFault>
    requires few { length tokens.now ≤ most_words }
    requires here { Stands tokens.now at (mark m.Semicolon) }
    requires shallow { depth ≤ most_depth }
    ensures reads { Starts g.Stmt depth tokens.now at boxed_stmt result }
    ensures place { IfOk result (λ r. (at < r.1) × (r.1 ≤ length tokens.now)) }
{
    let whole = boxed(alloc, Stmt::Empty(spot_at(tokens, at)))?;
    Ok((whole, at + 1))
}

// simple ";"
/// Reads what a statement does by itself, and the semicolon after.
fn simple_statement(
    alloc: Global,
    tokens: &[Token],
    at: u32,
    depth: u32,
) -> Result<(Box<Stmt>, u32), ParseFault>
    requires few { length tokens.now ≤ most_words }
    requires within { at ≤ length tokens.now }
    requires shallow { depth ≤ most_depth }
    requires other { head_in (word_at tokens.now at) ≡ None }
    ensures reads { Starts g.Stmt depth tokens.now at boxed_stmt result }
    ensures place { IfOk result (λ r. (at < r.1) × (r.1 ≤ length tokens.now)) }
{
    let (value, behind) = simple(alloc, tokens, at, depth)?;
    let end = expect_mark(tokens, behind, Mark::Semicolon)?;
    let whole = boxed(
        alloc,
        Stmt::Simple(spot_at(tokens, at), Box::into_inner(value)),
    )?;
    Ok((whole, end))
}

// "break" ";"
/// Reads the semicolon after the `break` at `at`.
fn break_statement(
    alloc: Global,
    tokens: &[Token],
    at: u32,
    depth: u32,
) -> Result<(Box<Stmt>, u32), ParseFault>
    requires few { length tokens.now ≤ most_words }
    requires here { Stands tokens.now at (key Break) }
    requires shallow { depth ≤ most_depth }
    ensures reads { Starts g.Stmt depth tokens.now at boxed_stmt result }
    ensures place { IfOk result (λ r. (at < r.1) × (r.1 ≤ length tokens.now)) }
{
    let end = expect_mark(tokens, at + 1, Mark::Semicolon)?;
    let whole = boxed(alloc, Stmt::Break(spot_at(tokens, at)))?;
    Ok((whole, end))
}

// "continue" ";"
/// Reads the semicolon after the `continue` at `at`.
fn continue_statement(
    alloc: Global,
    tokens: &[Token],
    at: u32,
    depth: u32,
) -> Result<(Box<Stmt>, u32), ParseFault>
    requires few { length tokens.now ≤ most_words }
    requires here { Stands tokens.now at (key Continue) }
    requires shallow { depth ≤ most_depth }
    ensures reads { Starts g.Stmt depth tokens.now at boxed_stmt result }
    ensures place { IfOk result (λ r. (at < r.1) × (r.1 ≤ length tokens.now)) }
{
    let end = expect_mark(tokens, at + 1, Mark::Semicolon)?;
    let whole = boxed(alloc, Stmt::Continue(spot_at(tokens, at)))?;
    Ok((whole, end))
}

// "return" [expr] ";"
/// Reads what belongs to the `return` at `at`.
fn return_statement(
    alloc: Global,
    tokens: &[Token],
    at: u32,
    depth: u32,
) -> Result<(Box<Stmt>, u32), ParseFault>
    requires few { length tokens.now ≤ most_words }
    requires here { Stands tokens.now at (key Return) }
    requires shallow { depth ≤ most_depth }
    ensures reads { Starts g.Stmt depth tokens.now at boxed_stmt result }
    ensures place { IfOk result (λ r. (at < r.1) × (r.1 ≤ length tokens.now)) }
{
    let (value, end) = expr_end(alloc, tokens, at + 1, depth)?;
    let whole = boxed(alloc, Stmt::Return(spot_at(tokens, at), unboxed(value)))?;
    Ok((whole, end))
}
