// Words and parts that several productions have. No expression is open around them, so that no word
// of theirs is too far.
ghost use Rattle.std.specs.Prelude.{◌≡◌, ◌<◌, ◌≤◌, ◌+◌, [], IfOk, IfErr, MatchResult, length};
ghost use Rattle.rc_base.specs.Limits.{most_depth, most_words};
ghost use Rattle.rc_syntax.specs.declared.fault.ParseFault.TheVariants.{Memory, Syntax};
ghost use Rattle.rc_syntax.specs.Tokens.{mark, key};
ghost use Rattle.rc_syntax.specs.Grammar as g;
ghost use Rattle.rc_syntax.specs.reader.Todo.{build};
ghost use Rattle.rc_syntax.specs.Shape.{type_of};
ghost use Rattle.rc_words.specs.Words.{line_of, Stands, Misses};
ghost use Rattle.rc_expr.specs.Goes.{boxed_of};
ghost use Rattle.rc_stmt.specs.Along.{Parses, Proceeds, IsNamed};

use rc_base::MOST_WORDS;
use rc_syntax::fault::ParseFault;
use rc_syntax::tree::{Base, Expr, Name, Note, TypeName};
use rc_syntax::word::{Key, Mark, Token};
use rc_words::{is_key, is_mark, refused_at, shared};
use std::alloc::Global;

/// Takes this mark, and answers the place after it.
pub fn expect_mark(tokens: &[Token], at: u32, wanted: Mark) -> Result<u32, ParseFault>
    requires { length tokens.now ≤ most_words }
    ensures { MatchResult result (λ e. Stands tokens.now at (mark wanted) × (e ≡ at + 1)) (λ f. Misses tokens.now at (mark wanted) × (f ≡ Syntax (line_of tokens.now at))) }
{
    if is_mark(tokens, at, wanted) {
        Ok(at + 1)
    } else {
        Err(refused_at(tokens, at))
    }
}

/// Takes this reserved word, and answers the place after it.
pub fn expect_key(tokens: &[Token], at: u32, wanted: Key) -> Result<u32, ParseFault>
    requires { length tokens.now ≤ most_words }
    ensures { MatchResult result (λ e. Stands tokens.now at (key wanted) × (e ≡ at + 1)) (λ f. Misses tokens.now at (key wanted) × (f ≡ Syntax (line_of tokens.now at))) }
{
    if is_key(tokens, at, wanted) {
        Ok(at + 1)
    } else {
        Err(refused_at(tokens, at))
    }
}

/// Takes a name, and answers the place after it.
pub fn name(tokens: &[Token], at: u32) -> Result<(Name, u32), ParseFault>
    requires { length tokens.now ≤ most_words }
    ensures { IsNamed tokens.now at result }
{
    rc_words::name(tokens, at, MOST_WORDS)
}

// base = "int" | "unsigned" ["int"] | "char" | "region" | "struct" NAME .
/// Reads a base type.
pub fn base(tokens: &[Token], at: u32, depth: u32) -> Result<(Base, u32), ParseFault>
    requires few { length tokens.now ≤ most_words }
    requires within { at ≤ length tokens.now }
    requires shallow { depth ≤ most_depth }
    ensures reads { Parses g.Base depth tokens.now at (λ b. b) result }
    ensures place { IfOk result (λ r. (at < r.1) × (r.1 ≤ length tokens.now)) }
{
    rc_expr::base(tokens, at, depth, MOST_WORDS)
}

// stars = { "*" ["sameregion" | "parentptr" | "traditional"] } .
/// Reads stars and their annotations, as many as follow.
pub fn stars(
    alloc: Global,
    tokens: &[Token],
    at: u32,
    depth: u32,
) -> Result<(Vec<Note>, u32), ParseFault>
    requires few { length tokens.now ≤ most_words }
    requires within { at ≤ length tokens.now }
    requires shallow { depth ≤ most_depth }
    ensures reads { Proceeds g.Stars depth tokens.now at at (build []) (λ v. v.items) result }
    ensures place { IfOk result (λ r. (at ≤ r.1) × (r.1 ≤ length tokens.now)) }
{
    rc_expr::stars(alloc, tokens, at, depth, MOST_WORDS)
}

// type = base stars .
/// Reads a type: a base and stars.
pub fn type_name(
    alloc: Global,
    tokens: &[Token],
    at: u32,
    depth: u32,
) -> Result<(TypeName, u32), ParseFault>
    requires few { length tokens.now ≤ most_words }
    requires within { at ≤ length tokens.now }
    requires shallow { depth ≤ most_depth }
    ensures reads { Parses g.TypeName depth tokens.now at type_of result }
    ensures place { IfOk result (λ r. (at < r.1) × (r.1 ≤ length tokens.now)) }
{
    rc_expr::type_name(alloc, tokens, at, depth, MOST_WORDS)
}

// expr = cond .
/// Reads the longest expression.
pub fn expression(
    alloc: Global,
    tokens: &[Token],
    at: u32,
    depth: u32,
) -> Result<(Box<Expr>, u32), ParseFault>
    requires few { length tokens.now ≤ most_words }
    requires within { at ≤ length tokens.now }
    requires shallow { depth ≤ most_depth }
    ensures reads { Parses (g.Level 0) depth tokens.now at boxed_of result }
    ensures place { IfOk result (λ r. (at < r.1) × (r.1 ≤ length tokens.now)) }
{
    rc_expr::expression(alloc, tokens, at, depth)
}

/// The longest operand.
pub fn operand(
    alloc: Global,
    tokens: &[Token],
    at: u32,
    depth: u32,
) -> Result<(Box<Expr>, u32), ParseFault>
    requires few { length tokens.now ≤ most_words }
    requires within { at ≤ length tokens.now }
    requires shallow { depth ≤ most_depth }
    ensures reads { Parses g.Unary depth tokens.now at boxed_of result }
    ensures place { IfOk result (λ r. (at < r.1) × (r.1 ≤ length tokens.now)) }
{
    rc_expr::unary(alloc, tokens, at, depth)
}

/// A base type that says the same, and shares the bytes of its name.
pub fn shared_base(base: &Base) -> Result<Base, ParseFault>
    ensures ok { IfOk result (λ b. b ≡ base.now) }
    ensures err { IfErr result (λ f. f ≡ Memory) }
{
    match base {
        Base::Int(spot) => Ok(Base::Int(*spot)),
        Base::Unsigned(spot) => Ok(Base::Unsigned(*spot)),
        Base::Char(spot) => Ok(Base::Char(*spot)),
        Base::Region(spot) => Ok(Base::Region(*spot)),
        Base::Struct(spot, name) => {
            let text = shared(&name.text)?;
            let name = Name {
                spot: name.spot,
                text,
            };
            Ok(Base::Struct(*spot, name))
        }
    }
}
