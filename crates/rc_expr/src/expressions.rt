// Expressions: conditionals, and operands with the operators between them (ISO C 6.5.5 to 6.5.15).
ghost use Rattle.std.specs.Prelude.{◌≡◌, ◌<◌, ◌≤◌, ◌+◌, IfOk, length, None, true};
ghost use Rattle.rc_base.specs.Limits.{most_depth, most_reach, most_words};
ghost use Rattle.rc_syntax.specs.declared.word.Mark.TheVariants as m;
ghost use Rattle.rc_syntax.specs.Tokens.{mark};
ghost use Rattle.rc_syntax.specs.WordShapes.{tokens_of};
ghost use Rattle.rc_syntax.specs.Place.{Answers};
ghost use Rattle.rc_syntax.specs.Grammar as g;
ghost use Rattle.rc_syntax.specs.Grammar.{level_of};
ghost use Rattle.rc_syntax.specs.reader.Todo.{build};
ghost use Rattle.rc_syntax.specs.Shape.{expr_of};
ghost use Rattle.rc_words.specs.Words.{word_at, Stands, Misses};
ghost use Rattle.rc_expr.specs.Goes.{boxed_of, unboxed, ReaderAnswers, Reads, Continues, operator_from, no_postfix};

use crate::nodes::{binary_node, conditional_node};
use crate::operands::operand;
use crate::operators::{operator_at, tightness};
use rc_base::MOST_REACH;
use rc_syntax::fault::ParseFault;
use rc_syntax::tree::{BinaryOp, Expr};
use rc_syntax::word::{Mark, Token};
use rc_words::{expect_mark, is_mark, spot_at, taken};
use std::alloc::Global;

/// The left side of an operator, and the operator.
#[derive(Drop)]
struct LeftSide {
    /// The place of its first word.
    at: u32,
    operand: Box<Expr>,
    op: BinaryOp,
}

// expr = cond .
/// The longest expression from a place, and the place after it. The words around it are nested
/// `depth` deep.
pub fn expression(
    alloc: Global,
    tokens: &[Token],
    at: u32,
    depth: u32,
) -> Result<(Box<Expr>, u32), ParseFault>
    requires few { length tokens.now ≤ most_words }
    requires within { at ≤ length tokens.now }
    requires shallow { depth ≤ most_depth }
    ensures grammar { Answers depth (g.Level 0) expr_of (tokens_of tokens.now) at (unboxed result) }
    ensures answers { ReaderAnswers (g.Level 0) depth tokens.now at boxed_of result }
    ensures reads { Reads (g.Level 0) depth (at + most_reach) tokens.now at boxed_of result }
    ensures place { IfOk result (λ r. (at < r.1) × (r.1 ≤ length tokens.now)) }
    ensures quiet { IfOk result (λ r. (operator_from 0 (word_at tokens.now r.1) ≡ None) × Misses tokens.now r.1 (mark m.Question)) }
{
    conditional(alloc, tokens, at, depth, at + MOST_REACH)
}

/// The longest operand from a place, with its prefixes and postfixes, and the place after it. The
/// words around it are nested `depth` deep.
pub fn unary(
    alloc: Global,
    tokens: &[Token],
    at: u32,
    depth: u32,
) -> Result<(Box<Expr>, u32), ParseFault>
    requires few { length tokens.now ≤ most_words }
    requires within { at ≤ length tokens.now }
    requires shallow { depth ≤ most_depth }
    ensures grammar { Answers depth g.Unary expr_of (tokens_of tokens.now) at (unboxed result) }
    ensures answers { ReaderAnswers g.Unary depth tokens.now at boxed_of result }
    ensures reads { Reads g.Unary depth (at + most_reach) tokens.now at boxed_of result }
    ensures place { IfOk result (λ r. (at < r.1) × (r.1 ≤ length tokens.now)) }
    ensures quiet { IfOk result (λ r. no_postfix (word_at tokens.now r.1) ≡ true) }
{
    operand(alloc, tokens, at, depth, at + MOST_REACH)
}

// cond = lor ["?" expr ":" cond] .
/// Reads a conditional. Words from `far` on are too far.
#[cycle(expr)]
pub fn conditional(
    alloc: Global,
    tokens: &[Token],
    at: u32,
    depth: u32,
    far: u32,
) -> Result<(Box<Expr>, u32), ParseFault>
    requires few { length tokens.now ≤ most_words }
    requires within { at ≤ length tokens.now }
    requires shallow { depth ≤ most_depth }
    ensures reads { Reads (g.Level 0) depth far tokens.now at boxed_of result }
    ensures place { IfOk result (λ r. (at < r.1) × (r.1 ≤ length tokens.now) × (depth < most_depth)) }
    ensures quiet { IfOk result (λ r. (operator_from 0 (word_at tokens.now r.1) ≡ None) × Misses tokens.now r.1 (mark m.Question)) }
{
    let (test, place) = binary(alloc, tokens, at, 0, depth, far)?;
    if !is_mark(tokens, place, Mark::Question) {
        return Ok((test, place));
    }
    choice(alloc, tokens, test, at, place, depth, far)
}

/// Reads `?` and what belongs to it, after the test of a conditional that begins at `at`.
#[cycle(expr)]
fn choice(
    alloc: Global,
    tokens: &[Token],
    test: Box<Expr>,
    at: u32,
    place: u32,
    depth: u32,
    far: u32,
) -> Result<(Box<Expr>, u32), ParseFault>
    requires few { length tokens.now ≤ most_words }
    requires here { Stands tokens.now place (mark m.Question) }
    requires behind { at < place }
    requires shallow { depth < most_depth }
    ensures reads { Continues (g.Level 0) depth far tokens.now at place (build (boxed_of test)) boxed_of result }
    ensures place { IfOk result (λ r. (place < r.1) × (r.1 ≤ length tokens.now)) }
    ensures quiet { IfOk result (λ r. (operator_from 0 (word_at tokens.now r.1) ≡ None) × Misses tokens.now r.1 (mark m.Question)) }
{
    let inside = taken(tokens, place, far)?;
    let (yes, colon) = conditional(alloc, tokens, inside, depth, far)?;
    let behind = expect_mark(tokens, colon, far, Mark::Colon)?;
    let (no, end) = conditional(alloc, tokens, behind, depth + 1, far)?;
    let chosen = conditional_node(alloc, spot_at(tokens, at), test, yes, no)?;
    Ok((chosen, end))
}

// lor, land, .., mul: a chain of operands, with operators of one level between them.
/// Reads operands with the operators between them that bind at least as tightly as `level`.
#[cycle(expr)]
fn binary(
    alloc: Global,
    tokens: &[Token],
    at: u32,
    level: u8,
    depth: u32,
    far: u32,
) -> Result<(Box<Expr>, u32), ParseFault>
    requires few { length tokens.now ≤ most_words }
    requires within { at ≤ length tokens.now }
    requires shallow { depth ≤ most_depth }
    requires tight { level ≤ 11 }
    ensures reads { Reads (g.Level level) depth far tokens.now at boxed_of result }
    ensures place { IfOk result (λ r. (at < r.1) × (r.1 ≤ length tokens.now) × (depth < most_depth)) }
    ensures quiet { IfOk result (λ r. operator_from level (word_at tokens.now r.1) ≡ None) }
{
    let (first, after) = operand(alloc, tokens, at, depth, far)?;
    let mut left = first;
    let mut place = after;
    while let Some(op) = operator_at(tokens, place, level) {
        let side = LeftSide {
            at,
            operand: left,
            op,
        };
        let (both, end) = beside(alloc, tokens, side, place, level, depth, far)?;
        left = both;
        place = end;
    }
    Ok((left, place))
}

/// Reads an operator and its right side, after its left side.
#[cycle(expr)]
fn beside(
    alloc: Global,
    tokens: &[Token],
    left: LeftSide,
    place: u32,
    level: u8,
    depth: u32,
    far: u32,
) -> Result<(Box<Expr>, u32), ParseFault>
    requires few { length tokens.now ≤ most_words }
    requires here { Stands tokens.now place (mark (g.mark_of left.op)) }
    requires behind { left.at < place }
    requires shallow { depth < most_depth }
    requires tight { level ≤ level_of left.op }
    ensures reads { Continues (g.Level level) depth far tokens.now left.at place (build (boxed_of left.operand)) boxed_of result }
    ensures place { IfOk result (λ r. (place < r.1) × (r.1 ≤ length tokens.now)) }
{
    let inside = taken(tokens, place, far)?;
    let (right, end) = binary(alloc, tokens, inside, tightness(left.op) + 1, depth, far)?;
    let both = binary_node(
        alloc,
        spot_at(tokens, left.at),
        left.op,
        left.operand,
        right,
    )?;
    Ok((both, end))
}
