// Names, calls and allocations (ISO C 6.5.1, 6.5.2.2, and RC's allocations).
ghost use Rattle.std.specs.Prelude.{◌<◌, ◌≤◌, ◌+◌, IfOk, length};
ghost use Rattle.rc_base.specs.Limits.{most_depth, most_words};
ghost use Rattle.rc_syntax.specs.declared.word.Key.TheVariants.{Ralloc, RarrayAlloc};
ghost use Rattle.rc_syntax.specs.declared.word.Mark.TheVariants as m;
ghost use Rattle.rc_syntax.specs.Tokens as w;
ghost use Rattle.rc_syntax.specs.Tokens.{mark};
ghost use Rattle.rc_syntax.specs.Tree as t;
ghost use Rattle.rc_syntax.specs.Grammar as g;
ghost use Rattle.rc_syntax.specs.reader.Reading as r;
ghost use Rattle.rc_syntax.specs.Shape.{exprs_of, type_of};
ghost use Rattle.rc_words.specs.Words.{spot_of, Misses};
ghost use Rattle.rc_expr.specs.Goes.{boxed_of, Reads, Continues, typed_rest};

use crate::expressions::conditional;
use crate::nodes::{add, call_node, leaf, ralloc_node, rarrayalloc_node};
use crate::types::type_name;
use rc_syntax::fault::ParseFault;
use rc_syntax::tree::{Expr, Name, TypeName};
use rc_syntax::word::{Mark, Text, Token};
use rc_words::{expect_mark, is_mark, shared, spot_at, taken};
use std::alloc::Global;

// NAME | NAME "(" [expr { "," expr }] ")"
/// Reads a variable or a call, after its name at `at`.
#[cycle(expr)]
pub fn named(
    alloc: Global,
    tokens: &[Token],
    text: &Text,
    at: u32,
    depth: u32,
    far: u32,
) -> Result<(Box<Expr>, u32), ParseFault>
    requires few { length tokens.now ≤ most_words }
    requires within { at < length tokens.now }
    requires shallow { depth < most_depth }
    ensures reads { Continues g.Unary depth far tokens.now at (at + 1) (r.unary_in (spot_of tokens.now at) (w.name text.now)) boxed_of result }
    ensures place { IfOk result (λ r. (at < r.1) × (r.1 ≤ length tokens.now)) }
{
    let text = shared(text)?;
    let spot = spot_at(tokens, at);
    let name = Name { spot, text };
    if !is_mark(tokens, at + 1, Mark::OpenParenthesis) {
        return leaf(alloc, Expr::Variable(name), at + 1);
    }
    let inside = taken(tokens, at + 1, far)?;
    call(alloc, tokens, name, at, inside, depth, far)
}

/// Reads the arguments of a call that begins at `at`, and the parenthesis after them.
#[cycle(expr)]
fn call(
    alloc: Global,
    tokens: &[Token],
    name: Name,
    at: u32,
    place: u32,
    depth: u32,
    far: u32,
) -> Result<(Box<Expr>, u32), ParseFault>
    requires few { length tokens.now ≤ most_words }
    requires within { place ≤ length tokens.now }
    requires behind { at < place }
    requires shallow { depth < most_depth }
    ensures reads { Continues g.Unary depth far tokens.now at place (r.call name) boxed_of result }
    ensures place { IfOk result (λ r. (at < r.1) × (r.1 ≤ length tokens.now)) }
{
    if is_mark(tokens, place, Mark::CloseParenthesis) {
        let end = taken(tokens, place, far)?;
        let whole = call_node(alloc, name, Vec::new(alloc))?;
        return Ok((whole, end));
    }
    let (values, behind) = arguments(alloc, tokens, place, depth + 1, far)?;
    let end = expect_mark(tokens, behind, far, Mark::CloseParenthesis)?;
    let whole = call_node(alloc, name, values)?;
    Ok((whole, end))
}

/// Reads expressions with commas between them.
#[cycle(expr)]
fn arguments(
    alloc: Global,
    tokens: &[Token],
    at: u32,
    depth: u32,
    far: u32,
) -> Result<(Vec<Expr>, u32), ParseFault>
    requires few { length tokens.now ≤ most_words }
    requires within { at ≤ length tokens.now }
    requires shallow { depth ≤ most_depth }
    ensures reads { Reads g.Arguments depth far tokens.now at (λ v. exprs_of v.items) result }
    ensures place { IfOk result (λ r. (at < r.1) × (r.1 ≤ length tokens.now)) }
    ensures quiet { IfOk result (λ r. Misses tokens.now r.1 (mark m.Comma)) }
{
    let (value, after) = conditional(alloc, tokens, at, depth, far)?;
    let mut values = Vec::new(alloc);
    add(&mut values, Box::into_inner(value))?;
    let mut place = after;
    while is_mark(tokens, place, Mark::Comma) {
        let inside = taken(tokens, place, far)?;
        let (value, end) = conditional(alloc, tokens, inside, depth, far)?;
        add(&mut values, Box::into_inner(value))?;
        place = end;
    }
    Ok((values, place))
}

// "ralloc" "(" expr "," type ")"
/// Reads what belongs to `ralloc` at `at`.
#[cycle(expr)]
pub fn ralloc(
    alloc: Global,
    tokens: &[Token],
    at: u32,
    depth: u32,
    far: u32,
) -> Result<(Box<Expr>, u32), ParseFault>
    requires few { length tokens.now ≤ most_words }
    requires within { at < length tokens.now }
    requires shallow { depth < most_depth }
    ensures reads { Continues g.Unary depth far tokens.now at (at + 1) (r.unary_in (spot_of tokens.now at) (w.key Ralloc)) boxed_of result }
    ensures place { IfOk result (λ r. (at < r.1) × (r.1 ≤ length tokens.now)) }
{
    let inside = expect_mark(tokens, at + 1, far, Mark::OpenParenthesis)?;
    let (region, place) = conditional(alloc, tokens, inside, depth + 1, far)?;
    let (type_name, end) = type_argument(alloc, tokens, at, place, depth, far)?;
    let whole = ralloc_node(alloc, spot_at(tokens, at), region, type_name)?;
    Ok((whole, end))
}

// "rarrayalloc" "(" expr "," expr "," type ")"
/// Reads what belongs to `rarrayalloc` at `at`.
#[cycle(expr)]
pub fn rarrayalloc(
    alloc: Global,
    tokens: &[Token],
    at: u32,
    depth: u32,
    far: u32,
) -> Result<(Box<Expr>, u32), ParseFault>
    requires few { length tokens.now ≤ most_words }
    requires within { at < length tokens.now }
    requires shallow { depth < most_depth }
    ensures reads { Continues g.Unary depth far tokens.now at (at + 1) (r.unary_in (spot_of tokens.now at) (w.key RarrayAlloc)) boxed_of result }
    ensures place { IfOk result (λ r. (at < r.1) × (r.1 ≤ length tokens.now)) }
{
    let inside = expect_mark(tokens, at + 1, far, Mark::OpenParenthesis)?;
    let (region, comma) = conditional(alloc, tokens, inside, depth + 1, far)?;
    let behind = expect_mark(tokens, comma, far, Mark::Comma)?;
    let (count, place) = conditional(alloc, tokens, behind, depth + 1, far)?;
    let (type_name, end) = type_argument(alloc, tokens, at, place, depth, far)?;
    let whole = rarrayalloc_node(alloc, spot_at(tokens, at), region, count, type_name)?;
    Ok((whole, end))
}

/// Reads a comma, a type, and the parenthesis after it, inside an operand that begins at `at`.
fn type_argument(
    alloc: Global,
    tokens: &[Token],
    at: u32,
    place: u32,
    depth: u32,
    far: u32,
) -> Result<(TypeName, u32), ParseFault>
    requires few { length tokens.now ≤ most_words }
    requires within { place ≤ length tokens.now }
    requires behind { at < place }
    requires shallow { depth < most_depth }
    ensures reads { (f : t.TypeName → t.Expr) → Continues g.Unary depth far tokens.now at place (typed_rest f) (λ ty. f (type_of ty)) result }
    ensures place { IfOk result (λ r. (place < r.1) × (r.1 ≤ length tokens.now)) }
{
    let inside = expect_mark(tokens, place, far, Mark::Comma)?;
    let (type_name, behind) = type_name(alloc, tokens, inside, depth + 1, far)?;
    let end = expect_mark(tokens, behind, far, Mark::CloseParenthesis)?;
    Ok((type_name, end))
}
