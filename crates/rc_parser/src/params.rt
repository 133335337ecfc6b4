// Parameters (ISO C 6.7.6.3).
ghost use Rattle.std.specs.Prelude.{◌<◌, ◌≤◌, IfOk, length, map};
ghost use Rattle.rc_base.specs.Limits.{most_depth, most_words};
ghost use Rattle.rc_syntax.specs.declared.word.Mark.TheVariants as m;
ghost use Rattle.rc_syntax.specs.declared.word.Key.TheVariants.{Void};
ghost use Rattle.rc_syntax.specs.Tokens.{mark, key};
ghost use Rattle.rc_syntax.specs.Grammar as g;
ghost use Rattle.rc_syntax.specs.reader.Reading as r;
ghost use Rattle.rc_syntax.specs.Shape as shape;
ghost use Rattle.rc_words.specs.Words.{spot_of, Misses};
ghost use Rattle.rc_stmt.specs.Along.{Parses, Proceeds};

use crate::parts::is_name_at;
use rc_expr::add;
use rc_stmt::{expect_mark, name, type_name};
use rc_syntax::fault::ParseFault;
use rc_syntax::tree::{Param, TypeName};
use rc_syntax::word::{Key, Mark, Token};
use rc_words::{is_key, is_mark, spot_at};
use std::alloc::Global;

// [params] ")", where
// params = "void" | param { "," param } .
/// Reads parameters and the parenthesis after them: none, `void`, or some.
pub fn params_end(
    alloc: Global,
    tokens: &[Token],
    at: u32,
    depth: u32,
) -> Result<(Vec<Param>, u32), ParseFault>
    requires few { length tokens.now ≤ most_words }
    requires within { at ≤ length tokens.now }
    requires shallow { depth ≤ most_depth }
    ensures reads { Parses g.ParamsEnd depth tokens.now at (λ v. map shape.param_of v.items) result }
    ensures place { IfOk result (λ r. (at < r.1) × (r.1 ≤ length tokens.now)) }
{
    if is_mark(tokens, at, Mark::CloseParenthesis) {
        return Ok((Vec::new(alloc), at + 1));
    }
    if is_key(tokens, at, Key::Void) {
        let end = expect_mark(tokens, at + 1, Mark::CloseParenthesis)?;
        return Ok((Vec::new(alloc), end));
    }
    some_params(alloc, tokens, at, depth)
}

/// Reads at least one parameter and the parenthesis after.
fn some_params(
    alloc: Global,
    tokens: &[Token],
    at: u32,
    depth: u32,
) -> Result<(Vec<Param>, u32), ParseFault>
    requires few { length tokens.now ≤ most_words }
    requires within { at ≤ length tokens.now }
    requires shallow { depth ≤ most_depth }
    requires some { Misses tokens.now at (mark m.CloseParenthesis) }
    requires typed { Misses tokens.now at (key Void) }
    ensures reads { Parses g.ParamsEnd depth tokens.now at (λ v. map shape.param_of v.items) result }
    ensures place { IfOk result (λ r. (at < r.1) × (r.1 ≤ length tokens.now)) }
{
    let (params, behind) = params(alloc, tokens, at, depth)?;
    let end = expect_mark(tokens, behind, Mark::CloseParenthesis)?;
    Ok((params, end))
}

/// Reads parameters with commas between them.
fn params(
    alloc: Global,
    tokens: &[Token],
    at: u32,
    depth: u32,
) -> Result<(Vec<Param>, u32), ParseFault>
    requires few { length tokens.now ≤ most_words }
    requires within { at ≤ length tokens.now }
    requires shallow { depth ≤ most_depth }
    ensures reads { Parses g.Params depth tokens.now at (λ v. map shape.param_of v.items) result }
    ensures place { IfOk result (λ r. (at < r.1) × (r.1 ≤ length tokens.now)) }
{
    let (first, after) = param(alloc, tokens, at, depth)?;
    let mut params = Vec::new(alloc);
    add(&mut params, first)?;
    let mut place = after;
    while is_mark(tokens, place, Mark::Comma) {
        let (param, end) = param(alloc, tokens, place + 1, depth)?;
        add(&mut params, param)?;
        place = end;
    }
    Ok((params, place))
}

// param = type [NAME] .
/// Reads a parameter: a type, and perhaps a name.
fn param(alloc: Global, tokens: &[Token], at: u32, depth: u32) -> Result<(Param, u32), ParseFault>
    requires few { length tokens.now ≤ most_words }
    requires within { at ≤ length tokens.now }
    requires shallow { depth ≤ most_depth }
    ensures reads { Parses g.Param depth tokens.now at shape.param_of result }
    ensures place { IfOk result (λ r. (at < r.1) × (r.1 ≤ length tokens.now)) }
{
    let (type_name, place) = type_name(alloc, tokens, at, depth)?;
    param_typed(tokens, type_name, at, place, depth)
}

/// Reads the name of a parameter that begins at `at`, where one follows its type.
fn param_typed(
    tokens: &[Token],
    type_name: TypeName,
    at: u32,
    place: u32,
    depth: u32,
) -> Result<(Param, u32), ParseFault>
    requires few { length tokens.now ≤ most_words }
    requires within { place ≤ length tokens.now }
    requires behind { at < place }
    requires shallow { depth ≤ most_depth }
    ensures reads { Proceeds g.Param depth tokens.now at place (r.param_typed (spot_of tokens.now at) (shape.type_of type_name)) shape.param_of result }
    ensures place { IfOk result (λ r. (place ≤ r.1) × (r.1 ≤ length tokens.now)) }
{
    let spot = spot_at(tokens, at);
    if !is_name_at(tokens, place) {
        let nameless = Param {
            spot,
            type_name,
            name: None,
        };
        return Ok((nameless, place));
    }
    let (name, end) = name(tokens, place)?;
    let named = Param {
        spot,
        type_name,
        name: Some(name),
    };
    Ok((named, end))
}
