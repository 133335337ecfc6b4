// Simple statements: assignments, steps, and expressions (ISO C 6.5.16, 6.8.3).
ghost use Rattle.std.specs.Prelude.{◌≡◌, ◌<◌, ◌≤◌, IfOk, MatchOption, length};
ghost use Rattle.rc_base.specs.Limits.{most_depth, most_words};
ghost use Rattle.rc_syntax.specs.declared.word.Mark.TheVariants as m;
ghost use Rattle.rc_syntax.specs.Tokens.{mark};
ghost use Rattle.rc_syntax.specs.Grammar as g;
ghost use Rattle.rc_syntax.specs.reader.Reading as r;
ghost use Rattle.rc_words.specs.Words.{spot_of, word_at, Stands, Misses};
ghost use Rattle.rc_expr.specs.Goes.{boxed_of};
ghost use Rattle.rc_stmt.specs.Shapes.{boxed_simple};
ghost use Rattle.rc_stmt.specs.Along as along;
ghost use Rattle.rc_stmt.specs.Along.{Parses, Proceeds, AssignmentStands, assignment_in};

use crate::nodes::{assign_node, update_node};
use crate::parts::{expression, operand};
use rc_expr::boxed;
use rc_syntax::fault::ParseFault;
use rc_syntax::tree::{BinaryOp, Expr, Simple, StepOp};
use rc_syntax::word::{Mark, Token};
use rc_words::{is_mark, mark_at, spot_at};
use std::alloc::Global;

/// What a mark after a left side does with it.
#[derive(Clone, Copy)]
pub enum Assignment {
    /// `=`
    Plain,
    /// An operator with `=`, as `+=`.
    Update(BinaryOp),
    /// `++` or `--`
    Step(StepOp),
}

/// What this mark does with a left side before it.
fn assignment_of(mark: Mark) -> Option<Assignment>
    ensures { result ≡ assignment_in mark }
{
    match mark {
        Mark::Equal => Some(Assignment::Plain),
        Mark::BarEqual => Some(Assignment::Update(BinaryOp::BitOr)),
        Mark::CaretEqual => Some(Assignment::Update(BinaryOp::BitXor)),
        Mark::AmpersandEqual => Some(Assignment::Update(BinaryOp::BitAnd)),
        Mark::ShiftLeftEqual => Some(Assignment::Update(BinaryOp::ShiftLeft)),
        Mark::ShiftRightEqual => Some(Assignment::Update(BinaryOp::ShiftRight)),
        Mark::PlusEqual => Some(Assignment::Update(BinaryOp::Add)),
        Mark::MinusEqual => Some(Assignment::Update(BinaryOp::Subtract)),
        Mark::StarEqual => Some(Assignment::Update(BinaryOp::Multiply)),
        Mark::SlashEqual => Some(Assignment::Update(BinaryOp::Divide)),
        Mark::PercentEqual => Some(Assignment::Update(BinaryOp::Remainder)),
        Mark::PlusPlus => Some(Assignment::Step(StepOp::Increment)),
        Mark::MinusMinus => Some(Assignment::Step(StepOp::Decrement)),
        _ => None,
    }
}

/// What the mark at a place, where one stands there, does with a left side before it.
fn assignment_at(tokens: &[Token], at: u32) -> Option<Assignment>
    ensures value { result ≡ along.assignment_at (word_at tokens.now at) }
    ensures stands { MatchOption result (Unit {0}) (λ a. AssignmentStands tokens.now at a) }
{
    match mark_at(tokens, at) {
        Some(mark) => assignment_of(mark),
        None => None,
    }
}

// simple = expr | unary ("=" | op"=") expr
//        | unary ("++" | "--") | ("++" | "--") unary .
/// Reads what a statement or the head of a `for` does by itself.
pub fn simple(
    alloc: Global,
    tokens: &[Token],
    at: u32,
    depth: u32,
) -> Result<(Box<Simple>, u32), ParseFault>
    requires few { length tokens.now ≤ most_words }
    requires within { at ≤ length tokens.now }
    requires shallow { depth ≤ most_depth }
    ensures reads { Parses g.Simple depth tokens.now at boxed_simple result }
    ensures place { IfOk result (λ r. (at < r.1) × (r.1 ≤ length tokens.now)) }
{
    if is_mark(tokens, at, Mark::PlusPlus) {
        return stepped(alloc, tokens, StepOp::Increment, at, depth);
    }
    if is_mark(tokens, at, Mark::MinusMinus) {
        return stepped(alloc, tokens, StepOp::Decrement, at, depth);
    }
    unstepped(alloc, tokens, at, depth)
}

/// Reads the left side after the `++` or `--` at `at`.
fn stepped(
    alloc: Global,
    tokens: &[Token],
    op: StepOp,
    at: u32,
    depth: u32,
) -> Result<(Box<Simple>, u32), ParseFault>
    requires few { length tokens.now ≤ most_words }
    requires here { Stands tokens.now at (mark (g.step_of op)) }
    requires shallow { depth ≤ most_depth }
    ensures reads { Parses g.Simple depth tokens.now at boxed_simple result }
    ensures place { IfOk result (λ r. (at < r.1) × (r.1 ≤ length tokens.now)) }
{
    let (left, end) = operand(alloc, tokens, at + 1, depth)?;
    let step = Simple::StepBefore(spot_at(tokens, at), op, Box::into_inner(left));
    let step = boxed(alloc, step)?;
    Ok((step, end))
}

/// Reads an assignment, or an expression, which is then read again from its first word on.
fn unstepped(
    alloc: Global,
    tokens: &[Token],
    at: u32,
    depth: u32,
) -> Result<(Box<Simple>, u32), ParseFault>
    requires few { length tokens.now ≤ most_words }
    requires within { at ≤ length tokens.now }
    requires shallow { depth ≤ most_depth }
    requires not_up { Misses tokens.now at (mark m.PlusPlus) }
    requires not_down { Misses tokens.now at (mark m.MinusMinus) }
    ensures reads { Parses g.Simple depth tokens.now at boxed_simple result }
    ensures place { IfOk result (λ r. (at < r.1) × (r.1 ≤ length tokens.now)) }
{
    let (left, place) = rc_expr::unary(alloc, tokens, at, depth)?;
    let Some(assignment) = assignment_at(tokens, place) else {
        let (value, end) = expression(alloc, tokens, at, depth)?;
        let alone = boxed(alloc, Simple::Expr(Box::into_inner(value)))?;
        return Ok((alone, end));
    };
    assigned(alloc, tokens, assignment, left, at, place, depth)
}

/// Reads an assignment, after its left side, which begins at `at`.
fn assigned(
    alloc: Global,
    tokens: &[Token],
    assignment: Assignment,
    left: Box<Expr>,
    at: u32,
    place: u32,
    depth: u32,
) -> Result<(Box<Simple>, u32), ParseFault>
    requires few { length tokens.now ≤ most_words }
    requires here { AssignmentStands tokens.now place assignment }
    requires behind { at < place }
    requires shallow { depth ≤ most_depth }
    ensures reads { Proceeds g.Simple depth tokens.now at place (r.left_side (spot_of tokens.now at) (boxed_of left)) boxed_simple result }
    ensures place { IfOk result (λ r. (place < r.1) × (r.1 ≤ length tokens.now)) }
{
    let spot = spot_at(tokens, at);
    match assignment {
        Assignment::Plain => {
            let (right, end) = expression(alloc, tokens, place + 1, depth)?;
            let whole = assign_node(alloc, spot, left, right)?;
            Ok((whole, end))
        }
        Assignment::Update(op) => {
            let (right, end) = expression(alloc, tokens, place + 1, depth)?;
            let whole = update_node(alloc, spot, op, left, right)?;
            Ok((whole, end))
        }
        Assignment::Step(op) => {
            let whole = boxed(alloc, Simple::StepAfter(spot, op, Box::into_inner(left)))?;
            Ok((whole, place + 1))
        }
    }
}
