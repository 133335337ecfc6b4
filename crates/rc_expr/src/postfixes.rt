// Postfixes: indexes and fields (ISO C 6.5.2.1, 6.5.2.3).
ghost use Rattle.std.specs.Prelude.{◌≡◌, ◌<◌, ◌≤◌, ◌+◌, IfOk, length, true};
ghost use Rattle.rc_base.specs.Limits.{most_depth, most_words};
ghost use Rattle.rc_syntax.specs.declared.word.Mark.TheVariants as m;
ghost use Rattle.rc_syntax.specs.Tokens.{mark};
ghost use Rattle.rc_syntax.specs.Grammar as g;
ghost use Rattle.rc_syntax.specs.reader.Todo.{build};
ghost use Rattle.rc_words.specs.Words.{word_at, Stands};
ghost use Rattle.rc_expr.specs.Goes.{boxed_of, Continues, no_postfix};

use crate::expressions::conditional;
use crate::nodes::{arrow_node, index_node, member_node};
use rc_syntax::fault::ParseFault;
use rc_syntax::tree::Expr;
use rc_syntax::word::{Mark, Token};
use rc_words::{expect_mark, mark_at, name, spot_at, taken};
use std::alloc::Global;

// postfix = primary { "[" expr "]" | "." NAME | "->" NAME } .
/// Reads indexes and fields, as many as follow an operand that begins at `at`.
#[cycle(expr)]
pub fn postfixes(
    alloc: Global,
    tokens: &[Token],
    first: Box<Expr>,
    at: u32,
    after: u32,
    depth: u32,
    far: u32,
) -> Result<(Box<Expr>, u32), ParseFault>
    requires few { length tokens.now ≤ most_words }
    requires within { after ≤ length tokens.now }
    requires behind { at < after }
    requires shallow { depth < most_depth }
    ensures reads { Continues g.Unary depth far tokens.now at after (build (boxed_of first)) boxed_of result }
    ensures place { IfOk result (λ r. (after ≤ r.1) × (r.1 ≤ length tokens.now)) }
    ensures quiet { IfOk result (λ r. no_postfix (word_at tokens.now r.1) ≡ true) }
{
    let mut value = first;
    let mut place = after;
    loop {
        let (longer, end) = match mark_at(tokens, place) {
            Some(Mark::OpenBracket) => index(alloc, tokens, value, at, place, depth, far)?,
            Some(Mark::Dot) => member(alloc, tokens, value, at, place, depth, far)?,
            Some(Mark::Arrow) => arrow(alloc, tokens, value, at, place, depth, far)?,
            _ => return Ok((value, place)),
        };
        value = longer;
        place = end;
    }
}

/// Reads an index, after a value that begins at `at`.
#[cycle(expr)]
fn index(
    alloc: Global,
    tokens: &[Token],
    value: Box<Expr>,
    at: u32,
    place: u32,
    depth: u32,
    far: u32,
) -> Result<(Box<Expr>, u32), ParseFault>
    requires few { length tokens.now ≤ most_words }
    requires here { Stands tokens.now place (mark m.OpenBracket) }
    requires behind { at < place }
    requires shallow { depth < most_depth }
    ensures reads { Continues g.Unary depth far tokens.now at place (build (boxed_of value)) boxed_of result }
    ensures place { IfOk result (λ r. (place < r.1) × (r.1 ≤ length tokens.now)) }
{
    let inside = taken(tokens, place, far)?;
    let (index, behind) = conditional(alloc, tokens, inside, depth + 1, far)?;
    let end = expect_mark(tokens, behind, far, Mark::CloseBracket)?;
    let whole = index_node(alloc, spot_at(tokens, at), value, index)?;
    Ok((whole, end))
}

/// Reads `.` and a field, after a value that begins at `at`.
fn member(
    alloc: Global,
    tokens: &[Token],
    value: Box<Expr>,
    at: u32,
    place: u32,
    depth: u32,
    far: u32,
) -> Result<(Box<Expr>, u32), ParseFault>
    requires few { length tokens.now ≤ most_words }
    requires here { Stands tokens.now place (mark m.Dot) }
    requires behind { at < place }
    requires shallow { depth < most_depth }
    ensures reads { Continues g.Unary depth far tokens.now at place (build (boxed_of value)) boxed_of result }
    ensures place { IfOk result (λ r. (place < r.1) × (r.1 ≤ length tokens.now)) }
{
    let inside = taken(tokens, place, far)?;
    let (field, end) = name(tokens, inside, far)?;
    let whole = member_node(alloc, spot_at(tokens, at), value, field)?;
    Ok((whole, end))
}

/// Reads `->` and a field, after a value that begins at `at`.
fn arrow(
    alloc: Global,
    tokens: &[Token],
    value: Box<Expr>,
    at: u32,
    place: u32,
    depth: u32,
    far: u32,
) -> Result<(Box<Expr>, u32), ParseFault>
    requires few { length tokens.now ≤ most_words }
    requires here { Stands tokens.now place (mark m.Arrow) }
    requires behind { at < place }
    requires shallow { depth < most_depth }
    ensures reads { Continues g.Unary depth far tokens.now at place (build (boxed_of value)) boxed_of result }
    ensures place { IfOk result (λ r. (place < r.1) × (r.1 ≤ length tokens.now)) }
{
    let inside = taken(tokens, place, far)?;
    let (field, end) = name(tokens, inside, far)?;
    let whole = arrow_node(alloc, spot_at(tokens, at), value, field)?;
    Ok((whole, end))
}
