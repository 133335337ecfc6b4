// Operators: their marks, and how tightly they bind.
ghost use Rattle.std.specs.Prelude.{◌≡◌, ◌≤◌, Some};
ghost use Rattle.rc_syntax.specs.Tokens as w;
ghost use Rattle.rc_syntax.specs.Tokens.{mark};
ghost use Rattle.rc_syntax.specs.Grammar as g;
ghost use Rattle.rc_syntax.specs.Grammar.{level_of};
ghost use Rattle.rc_syntax.specs.reader.Reading as r;
ghost use Rattle.rc_expr.specs.Goes as Goes;
ghost use Rattle.rc_words.specs.Words.{word_at, Stands};
ghost use Rattle.rc_expr.specs.Goes.{prefix_in, operator_from};

use rc_syntax::tree::{BinaryOp, UnaryOp};
use rc_syntax::word::{Mark, Token};
use rc_words::mark_at;

/// The operator of this mark.
fn operator_of(mark: Mark) -> Option<BinaryOp>
    ensures { result ≡ r.binary_of (w.mark mark) }
{
    match mark {
        Mark::BarBar => Some(BinaryOp::LogicalOr),
        Mark::AmpersandAmpersand => Some(BinaryOp::LogicalAnd),
        Mark::Bar => Some(BinaryOp::BitOr),
        Mark::Caret => Some(BinaryOp::BitXor),
        Mark::Ampersand => Some(BinaryOp::BitAnd),
        Mark::EqualEqual => Some(BinaryOp::Equal),
        Mark::ExclamationEqual => Some(BinaryOp::NotEqual),
        Mark::Less => Some(BinaryOp::Less),
        Mark::Greater => Some(BinaryOp::Greater),
        Mark::LessEqual => Some(BinaryOp::LessEqual),
        Mark::GreaterEqual => Some(BinaryOp::GreaterEqual),
        Mark::ShiftLeft => Some(BinaryOp::ShiftLeft),
        Mark::ShiftRight => Some(BinaryOp::ShiftRight),
        Mark::Plus => Some(BinaryOp::Add),
        Mark::Minus => Some(BinaryOp::Subtract),
        Mark::Star => Some(BinaryOp::Multiply),
        Mark::Slash => Some(BinaryOp::Divide),
        Mark::Percent => Some(BinaryOp::Remainder),
        _ => None,
    }
}

/// How tightly an operator binds, from 1 for `||` to 10 for `*`.
pub fn tightness(op: BinaryOp) -> u8
    ensures value { result ≡ level_of op }
    ensures least { 1 ≤ result }
    ensures most { result ≤ 10 }
{
    match op {
        BinaryOp::LogicalOr => 1,
        BinaryOp::LogicalAnd => 2,
        BinaryOp::BitOr => 3,
        BinaryOp::BitXor => 4,
        BinaryOp::BitAnd => 5,
        BinaryOp::Equal => 6,
        BinaryOp::NotEqual => 6,
        BinaryOp::Less => 7,
        BinaryOp::Greater => 7,
        BinaryOp::LessEqual => 7,
        BinaryOp::GreaterEqual => 7,
        BinaryOp::ShiftLeft => 8,
        BinaryOp::ShiftRight => 8,
        BinaryOp::Add => 9,
        BinaryOp::Subtract => 9,
        BinaryOp::Multiply => 10,
        BinaryOp::Divide => 10,
        BinaryOp::Remainder => 10,
    }
}

/// The operator at a place that binds at least as tightly as `level`, and its tightness.
pub fn operator_at(tokens: &[Token], at: u32, level: u8) -> Option<BinaryOp>
    ensures value { result ≡ operator_from level (word_at tokens.now at) }
    ensures stands { (op : _) → result ≡ Some op → Stands tokens.now at (mark (g.mark_of op)) × (level ≤ level_of op) }
{
    match mark_at(tokens, at) {
        Some(mark) => at_least(operator_of(mark), level),
        None => None,
    }
}

/// The operator, where it binds at least as tightly as `level`.
fn at_least(op: Option<BinaryOp>, level: u8) -> Option<BinaryOp>
    ensures { result ≡ Goes.at_least level op }
{
    let Some(op) = op else { return None };
    if level <= tightness(op) {
        Some(op)
    } else {
        None
    }
}

/// The prefix of this mark.
pub fn prefix_of(mark: Mark) -> Option<UnaryOp>
    ensures { result ≡ prefix_in mark }
{
    match mark {
        Mark::Minus => Some(UnaryOp::Minus),
        Mark::Plus => Some(UnaryOp::Plus),
        Mark::Exclamation => Some(UnaryOp::Not),
        Mark::Tilde => Some(UnaryOp::Complement),
        Mark::Star => Some(UnaryOp::Dereference),
        Mark::Ampersand => Some(UnaryOp::Address),
        _ => None,
    }
}
