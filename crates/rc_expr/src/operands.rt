// Operands: unaries, and what they begin with (ISO C 6.5.1 to 6.5.4).
ghost use Rattle.std.specs.Prelude.{◌≡◌, ◌<◌, ◌≤◌, ◌+◌, IfOk, MatchResult, OnOk, ◌⊎◌, length, true};
ghost use Rattle.rc_base.specs.Limits.{most_depth, most_words};
ghost use Rattle.rc_syntax.specs.declared.fault.ParseFault.TheVariants.{Deep};
ghost use Rattle.rc_syntax.specs.Tokens as w;
ghost use Rattle.rc_syntax.specs.Tokens.{key};
ghost use Rattle.rc_syntax.specs.WordShapes.{word_of};
ghost use Rattle.rc_syntax.specs.Grammar as g;
ghost use Rattle.rc_syntax.specs.reader.Todo.{build, enter, read, sees};
ghost use Rattle.rc_syntax.specs.reader.Reading as r;
ghost use Rattle.rc_words.specs.Words.{line_of, spot_of, word_at, Stands};
ghost use Rattle.rc_expr.specs.Goes.{boxed_of, Reads, Continues, starts, key_of, no_postfix};

use crate::calls::{named, ralloc, rarrayalloc};
use crate::casts::{cast_at, cast_type};
use crate::expressions::conditional;
use crate::nodes::{cast_node, leaf, unary_node};
use crate::operators::prefix_of;
use crate::postfixes::postfixes;
use rc_base::MOST_DEPTH;
use rc_syntax::fault::ParseFault;
use rc_syntax::tree::{CastType, Expr, UnaryOp};
use rc_syntax::word::{Key, Mark, Token, Word};
use rc_words::{deep_at, expect_mark, refused_at, shared, spot_at, word_here};
use std::alloc::Global;

/// Whether an expression begins with this word.
fn begins(word: &Word) -> bool
    ensures { result ≡ starts (word_of word.now) }
{
    match word {
        Word::Name(_) => true,
        Word::Number(_, _) => true,
        Word::Character(_) => true,
        Word::Str(_) => true,
        Word::Key(Key::Null) => true,
        Word::Key(Key::Eof) => true,
        Word::Key(Key::Ralloc) => true,
        Word::Key(Key::RarrayAlloc) => true,
        Word::Mark(Mark::Minus) => true,
        Word::Mark(Mark::Plus) => true,
        Word::Mark(Mark::Exclamation) => true,
        Word::Mark(Mark::Tilde) => true,
        Word::Mark(Mark::Star) => true,
        Word::Mark(Mark::Ampersand) => true,
        Word::Mark(Mark::OpenParenthesis) => true,
        _ => false,
    }
}

/// Takes the first word of an operand, unless it is nested too deep or too far.
fn enter(tokens: &[Token], at: u32, depth: u32, far: u32) -> Result<(), ParseFault>
    requires { at < length tokens.now }
    ensures ok { OnOk result ((depth < most_depth) × (at < far)) }
    ensures err { MatchResult result (λ e. Unit {0}) (λ f. ((most_depth ≤ depth) ⊎ (far ≤ at)) × (f ≡ Deep (line_of tokens.now at))) }
{
    if depth >= MOST_DEPTH {
        return Err(deep_at(tokens, at));
    }
    if at >= far {
        return Err(deep_at(tokens, at));
    }
    Ok(())
}

// unary = postfix | ("-" | "+" | "!" | "~" | "*" | "&") unary
//       | "(" ("int" | "unsigned" ["int"] | "char") ")" unary .
/// Reads an operand with its prefixes and postfixes.
#[cycle(expr)]
pub fn operand(
    alloc: Global,
    tokens: &[Token],
    at: u32,
    depth: u32,
    far: u32,
) -> Result<(Box<Expr>, u32), ParseFault>
    requires few { length tokens.now ≤ most_words }
    requires within { at ≤ length tokens.now }
    requires shallow { depth ≤ most_depth }
    ensures reads { Reads g.Unary depth far tokens.now at boxed_of result }
    ensures place { IfOk result (λ r. (at < r.1) × (r.1 ≤ length tokens.now) × (depth < most_depth)) }
    ensures quiet { IfOk result (λ r. no_postfix (word_at tokens.now r.1) ≡ true) }
{
    let Some(word) = word_here(tokens, at) else {
        return Err(refused_at(tokens, at));
    };
    if !begins(word) {
        return Err(refused_at(tokens, at));
    }
    enter(tokens, at, depth, far)?;
    let (value, place) = core(alloc, tokens, word, at, depth, far)?;
    postfixes(alloc, tokens, value, at, place, depth, far)
}

// primary = NUMBER | CHARACTER | STRING | "NULL" | "EOF" | NAME
//         | NAME "(" [expr { "," expr }] ")"
//         | "ralloc" "(" expr "," type ")"
//         | "rarrayalloc" "(" expr "," expr "," type ")" | "(" expr ")" .
/// Reads an operand without its postfixes, after its first word.
#[cycle(expr)]
fn core(
    alloc: Global,
    tokens: &[Token],
    word: &Word,
    at: u32,
    depth: u32,
    far: u32,
) -> Result<(Box<Expr>, u32), ParseFault>
    requires few { length tokens.now ≤ most_words }
    requires within { at < length tokens.now }
    requires shallow { depth < most_depth }
    requires begun { starts (word_of word.now) ≡ true }
    ensures reads { Continues g.Unary depth far tokens.now at (at + 1) (r.unary_in (spot_of tokens.now at) (word_of word.now)) boxed_of result }
    ensures place { IfOk result (λ r. (at < r.1) × (r.1 ≤ length tokens.now)) }
{
    match word {
        Word::Number(value, unsigned) => {
            leaf(
                alloc,
                Expr::Number(spot_at(tokens, at), *value, *unsigned),
                at + 1,
            )
        }
        Word::Character(byte) => leaf(alloc, Expr::Character(spot_at(tokens, at), *byte), at + 1),
        Word::Str(text) => {
            let text = shared(text)?;
            leaf(alloc, Expr::Str(spot_at(tokens, at), text), at + 1)
        }
        Word::Name(text) => named(alloc, tokens, text, at, depth, far),
        Word::Key(key) => keyed(alloc, tokens, *key, at, depth, far),
        Word::Mark(mark) => marked(alloc, tokens, *mark, at, depth, far),
    }
}

/// Reads an operand that begins with a reserved word at `at`, after that word.
#[cycle(expr)]
fn keyed(
    alloc: Global,
    tokens: &[Token],
    key: Key,
    at: u32,
    depth: u32,
    far: u32,
) -> Result<(Box<Expr>, u32), ParseFault>
    requires few { length tokens.now ≤ most_words }
    requires within { at < length tokens.now }
    requires shallow { depth < most_depth }
    requires begun { starts (w.key key) ≡ true }
    ensures reads { Continues g.Unary depth far tokens.now at (at + 1) (r.unary_in (spot_of tokens.now at) (w.key key)) boxed_of result }
    ensures place { IfOk result (λ r. (at < r.1) × (r.1 ≤ length tokens.now)) }
{
    match key {
        Key::Null => leaf(alloc, Expr::Null(spot_at(tokens, at)), at + 1),
        Key::Eof => leaf(alloc, Expr::Eof(spot_at(tokens, at)), at + 1),
        Key::Ralloc => ralloc(alloc, tokens, at, depth, far),
        Key::RarrayAlloc => rarrayalloc(alloc, tokens, at, depth, far),
        _ => unreachable!(),
    }
}

/// Reads an operand that begins with a mark at `at`, after that mark.
#[cycle(expr)]
fn marked(
    alloc: Global,
    tokens: &[Token],
    first: Mark,
    at: u32,
    depth: u32,
    far: u32,
) -> Result<(Box<Expr>, u32), ParseFault>
    requires few { length tokens.now ≤ most_words }
    requires within { at < length tokens.now }
    requires shallow { depth < most_depth }
    requires begun { starts (w.mark first) ≡ true }
    ensures reads { Continues g.Unary depth far tokens.now at (at + 1) (r.unary_in (spot_of tokens.now at) (w.mark first)) boxed_of result }
    ensures place { IfOk result (λ r. (at < r.1) × (r.1 ≤ length tokens.now)) }
{
    match prefix_of(first) {
        Some(op) => prefixed(alloc, tokens, op, at, depth, far),
        // No other mark begins an expression.
        None => parenthesis(alloc, tokens, at, depth, far),
    }
}

/// Reads what belongs to a prefix at `at`.
#[cycle(expr)]
fn prefixed(
    alloc: Global,
    tokens: &[Token],
    op: UnaryOp,
    at: u32,
    depth: u32,
    far: u32,
) -> Result<(Box<Expr>, u32), ParseFault>
    requires few { length tokens.now ≤ most_words }
    requires within { at < length tokens.now }
    requires shallow { depth < most_depth }
    ensures reads { Continues g.Unary depth far tokens.now at (at + 1) (r.prefixed (spot_of tokens.now at) op) boxed_of result }
    ensures place { IfOk result (λ r. (at < r.1) × (r.1 ≤ length tokens.now)) }
{
    let (value, end) = operand(alloc, tokens, at + 1, depth + 1, far)?;
    let whole = unary_node(alloc, spot_at(tokens, at), op, value)?;
    Ok((whole, end))
}

/// Reads a cast or an expression in parentheses, after the parenthesis that opens it at `at`.
#[cycle(expr)]
fn parenthesis(
    alloc: Global,
    tokens: &[Token],
    at: u32,
    depth: u32,
    far: u32,
) -> Result<(Box<Expr>, u32), ParseFault>
    requires few { length tokens.now ≤ most_words }
    requires within { at < length tokens.now }
    requires shallow { depth < most_depth }
    ensures reads { Continues g.Unary depth far tokens.now at (at + 1) (r.parenthesized (spot_of tokens.now at)) boxed_of result }
    ensures place { IfOk result (λ r. (at < r.1) × (r.1 ≤ length tokens.now)) }
{
    match cast_at(tokens, at + 1) {
        Some(to) => cast(alloc, tokens, to, at, depth, far),
        None => grouped(alloc, tokens, at, depth, far),
    }
}

/// Reads a cast, after the parenthesis that opens it at `at`; the first word of its type follows.
#[cycle(expr)]
fn cast(
    alloc: Global,
    tokens: &[Token],
    first: CastType,
    at: u32,
    depth: u32,
    far: u32,
) -> Result<(Box<Expr>, u32), ParseFault>
    requires few { length tokens.now ≤ most_words }
    requires here { Stands tokens.now (at + 1) (key (key_of first)) }
    requires shallow { depth < most_depth }
    ensures reads { Continues g.Unary depth far tokens.now at (at + 1) (r.parenthesized (spot_of tokens.now at)) boxed_of result }
    ensures place { IfOk result (λ r. (at < r.1) × (r.1 ≤ length tokens.now)) }
{
    let (to, behind) = cast_type(tokens, first, at, depth, far)?;
    let (value, end) = operand(alloc, tokens, behind, depth + 1, far)?;
    let whole = cast_node(alloc, spot_at(tokens, at), to, value)?;
    Ok((whole, end))
}

/// Reads an expression and the parenthesis after it.
#[cycle(expr)]
fn grouped(
    alloc: Global,
    tokens: &[Token],
    at: u32,
    depth: u32,
    far: u32,
) -> Result<(Box<Expr>, u32), ParseFault>
    requires few { length tokens.now ≤ most_words }
    requires within { at < length tokens.now }
    requires shallow { depth < most_depth }
    ensures reads { Continues g.Unary depth far tokens.now at (at + 1) (enter (g.Level 0) (λ e. read (sees r.is_close (build e)))) boxed_of result }
    ensures place { IfOk result (λ r. (at < r.1) × (r.1 ≤ length tokens.now)) }
{
    let (value, place) = conditional(alloc, tokens, at + 1, depth + 1, far)?;
    let end = expect_mark(tokens, place, far, Mark::CloseParenthesis)?;
    Ok((value, end))
}
