// Expressions. The parts of each node are typed in a function of its own, which stays one, so that
// the walk needs little stack for a level.
ghost use Rattle.std.specs.Prelude.{◌≡◌, ◌++◌, map, IfOk, IfErr, OnOk};
ghost use Rattle.rc_core.specs.Shapes.{bytes_of};
ghost use Rattle.rc_deletes.specs.Expressions as rule;
ghost use Rattle.rc_deletes.specs.Judged.{Holds};
ghost use Rattle.rc_deletes.specs.Values as values;
ghost use Rattle.rc_typed_values.specs.Shapes.{typed_of, meant_of};
ghost use Rattle.rc_typed_values.specs.Stops.{StopsAt};
ghost use Rattle.rc_syntax.specs.Shape as written;
ghost use Rattle.rc_syntax.specs.Tree as t;
ghost use Rattle.rc_defined.specs.Contexts.{context_in, scope_in};

use crate::members::{arrow, member};
use crate::nodes::{
    allocate, allocate_array, call, cast, choose, compute, eof, null, number, string,
};
use rc_core::ty::Signedness;
use rc_defined::{Environment, meaning};
use rc_operators::cast_type;
use rc_rules::{callee_rule, index_rule, indexed_part, name_rule, signedness, unary_meant};
use rc_syntax::tree::{BinaryOp, CastType, Expr, Name, Spot, TypeName, UnaryOp};
use rc_typed_values::{Meant, Stop, Typed, add, as_value};

/// Where an expression begins.
pub fn spot_of(e: &Expr) -> Spot
    ensures { result ≡ values.spot_of (written.expr_of e.now) }
{
    match e {
        Expr::Number(at, _, _) => *at,
        Expr::Character(at, _) => *at,
        Expr::Str(at, _) => *at,
        Expr::Null(at) => *at,
        Expr::Eof(at) => *at,
        Expr::Variable(name) => name.spot,
        Expr::Call(name, _) => name.spot,
        Expr::Ralloc(at, _, _) => *at,
        Expr::RarrayAlloc(at, _, _, _) => *at,
        Expr::Index(at, _, _) => *at,
        Expr::Member(at, _, _) => *at,
        Expr::Arrow(at, _, _) => *at,
        Expr::Unary(at, _, _) => *at,
        Expr::Cast(at, _, _) => *at,
        Expr::Binary(at, _, _, _) => *at,
        Expr::Conditional(at, _, _, _) => *at,
    }
}

/// An expression as a value.
///
/// # Errors
///
/// As those of [`meant`], or it is no value.
#[inline(never)]
#[cycle(expressions)]
#[tactic(auto, using(rc_defined::proofs::Stops::part_stops, rc_defined::proofs::Stops::part_ruled))]
pub fn value(
    e: &Expr,
    environment: &Environment<'_>,
    strings: &mut Vec<Vec<u8>>,
) -> Result<Typed, Stop>
    ensures ok { IfOk result (λ v. rule.value (context_in environment.now) (scope_in environment.now) (map bytes_of strings.old.items) (written.expr_of e.now) ≡ Holds (typed_of v)) }
    ensures strings { OnOk result (map bytes_of strings.new.items ≡ map bytes_of strings.old.items ++ rule.strings_in (written.expr_of e.now)) }
    ensures err { IfErr result (StopsAt (rule.value (context_in environment.now) (scope_in environment.now) (map bytes_of strings.old.items) (written.expr_of e.now))) }
{
    let m = meant(e, environment, strings)?;
    as_value(environment.alloc, spot_of(e), m)
}

/// The values of arguments, in their order.
///
/// # Errors
///
/// As those of [`value`].
#[cycle(expressions)]
#[tactic(auto, using(rc_defined::proofs::Walks::after_nil, rc_defined::proofs::Walks::values_step, rc_defined::proofs::Walks::values_end, rc_defined::proofs::Walks::values_stop, rc_defined::proofs::Walks::strings_step, rc_defined::proofs::Walks::strings_end))]
pub fn arguments(
    es: &[Expr],
    environment: &Environment<'_>,
    strings: &mut Vec<Vec<u8>>,
) -> Result<Vec<Typed>, Stop>
    ensures ok { IfOk result (λ vs. rule.values (context_in environment.now) (scope_in environment.now) (map bytes_of strings.old.items) (written.exprs_of es.now) ≡ Holds (map typed_of vs.items)) }
    ensures strings { OnOk result (map bytes_of strings.new.items ≡ map bytes_of strings.old.items ++ rule.strings_in_all (written.exprs_of es.now)) }
    ensures err { IfErr result (StopsAt (rule.values (context_in environment.now) (scope_in environment.now) (map bytes_of strings.old.items) (written.exprs_of es.now))) }
{
    let mut given = Vec::new(environment.alloc);
    for e in es {
        let v = value(e, environment, strings)?;
        add(&mut given, v)?;
    }
    Ok(given)
}

#[inline(never)]
#[cycle(expressions)]
#[tactic(auto, using(rc_defined::proofs::Stops::left_stops, rc_defined::proofs::Stops::right_stops, rc_defined::proofs::Stops::both_stop, rc_defined::proofs::Stops::both_ruled))]
fn type_call(
    name: &Name,
    given: &[Expr],
    environment: &Environment<'_>,
    strings: &mut Vec<Vec<u8>>,
) -> Result<Meant, Stop>
    ensures ok { IfOk result (λ m. rule.meant (context_in environment.now) (scope_in environment.now) (map bytes_of strings.old.items) (t.call name.now (written.exprs_of given.now)) ≡ Holds (meant_of m)) }
    ensures strings { OnOk result (map bytes_of strings.new.items ≡ map bytes_of strings.old.items ++ rule.strings_in (t.call name.now (written.exprs_of given.now))) }
    ensures err { IfErr result (StopsAt (rule.meant (context_in environment.now) (scope_in environment.now) (map bytes_of strings.old.items) (t.call name.now (written.exprs_of given.now)))) }
{
    let callee = callee_rule(name.spot, meaning(environment.names, name))?;
    let given = arguments(given, environment, strings)?;
    call(environment.alloc, name.spot, callee, given)
}

#[inline(never)]
#[cycle(expressions)]
#[tactic(auto, using(rc_defined::proofs::Stops::left_stops, crate::proofs::Arms::alloc_is))]
fn type_ralloc(
    at: Spot,
    r: &Expr,
    n: &TypeName,
    environment: &Environment<'_>,
    strings: &mut Vec<Vec<u8>>,
) -> Result<Meant, Stop>
    ensures ok { IfOk result (λ m. rule.meant (context_in environment.now) (scope_in environment.now) (map bytes_of strings.old.items) (t.ralloc at (written.expr_of r.now) (written.type_of n.now)) ≡ Holds (meant_of m)) }
    ensures strings { OnOk result (map bytes_of strings.new.items ≡ map bytes_of strings.old.items ++ rule.strings_in (t.ralloc at (written.expr_of r.now) (written.type_of n.now))) }
    ensures err { IfErr result (StopsAt (rule.meant (context_in environment.now) (scope_in environment.now) (map bytes_of strings.old.items) (t.ralloc at (written.expr_of r.now) (written.type_of n.now)))) }
{
    let region = value(r, environment, strings)?;
    allocate(environment.alloc, environment.context, at, n, region)
}

#[inline(never)]
#[cycle(expressions)]
#[tactic(auto, using(rc_defined::proofs::Stops::left_stops, rc_defined::proofs::Stops::second_stops))]
fn type_rarrayalloc(
    at: Spot,
    r: &Expr,
    k: &Expr,
    n: &TypeName,
    environment: &Environment<'_>,
    strings: &mut Vec<Vec<u8>>,
) -> Result<Meant, Stop>
    ensures ok { IfOk result (λ m. rule.meant (context_in environment.now) (scope_in environment.now) (map bytes_of strings.old.items) (t.rarrayalloc at (written.expr_of r.now) (written.expr_of k.now) (written.type_of n.now)) ≡ Holds (meant_of m)) }
    ensures strings { OnOk result (map bytes_of strings.new.items ≡ map bytes_of strings.old.items ++ rule.strings_in (t.rarrayalloc at (written.expr_of r.now) (written.expr_of k.now) (written.type_of n.now))) }
    ensures err { IfErr result (StopsAt (rule.meant (context_in environment.now) (scope_in environment.now) (map bytes_of strings.old.items) (t.rarrayalloc at (written.expr_of r.now) (written.expr_of k.now) (written.type_of n.now)))) }
{
    let region = value(r, environment, strings)?;
    let number = value(k, environment, strings)?;
    let context = environment.context;
    allocate_array(environment.alloc, context, at, n, region, number)
}

#[inline(never)]
#[cycle(expressions)]
#[tactic(auto, using(rc_defined::proofs::Stops::part_stops, rc_defined::proofs::Stops::part_ruled, rc_defined::proofs::Stops::part_held, rc_defined::proofs::Stops::left_stops, rc_defined::proofs::Stops::right_stops, rc_defined::proofs::Stops::both_stop, rc_defined::proofs::Stops::both_ruled))]
fn type_index(
    at: Spot,
    a: &Expr,
    k: &Expr,
    environment: &Environment<'_>,
    strings: &mut Vec<Vec<u8>>,
) -> Result<Meant, Stop>
    ensures ok { IfOk result (λ m. rule.meant (context_in environment.now) (scope_in environment.now) (map bytes_of strings.old.items) (t.index at (written.expr_of a.now) (written.expr_of k.now)) ≡ Holds (meant_of m)) }
    ensures strings { OnOk result (map bytes_of strings.new.items ≡ map bytes_of strings.old.items ++ rule.strings_in (t.index at (written.expr_of a.now) (written.expr_of k.now))) }
    ensures err { IfErr result (StopsAt (rule.meant (context_in environment.now) (scope_in environment.now) (map bytes_of strings.old.items) (t.index at (written.expr_of a.now) (written.expr_of k.now)))) }
{
    let m = meant(a, environment, strings)?;
    let part = indexed_part(environment.alloc, spot_of(a), m)?;
    let index = value(k, environment, strings)?;
    index_rule(environment.alloc, at, part, index)
}

#[inline(never)]
#[cycle(expressions)]
#[tactic(auto, using(rc_defined::proofs::Stops::part_stops, rc_defined::proofs::Stops::part_ruled, rc_defined::proofs::Stops::part_held))]
fn type_member(
    at: Spot,
    a: &Expr,
    name: &Name,
    environment: &Environment<'_>,
    strings: &mut Vec<Vec<u8>>,
) -> Result<Meant, Stop>
    ensures ok { IfOk result (λ m. rule.meant (context_in environment.now) (scope_in environment.now) (map bytes_of strings.old.items) (t.member at (written.expr_of a.now) name.now) ≡ Holds (meant_of m)) }
    ensures strings { OnOk result (map bytes_of strings.new.items ≡ map bytes_of strings.old.items ++ rule.strings_in (t.member at (written.expr_of a.now) name.now)) }
    ensures err { IfErr result (StopsAt (rule.meant (context_in environment.now) (scope_in environment.now) (map bytes_of strings.old.items) (t.member at (written.expr_of a.now) name.now))) }
{
    let m = meant(a, environment, strings)?;
    member(environment.alloc, environment.context, at, name, m)
}

#[inline(never)]
#[cycle(expressions)]
#[tactic(auto, using(rc_defined::proofs::Stops::part_stops, rc_defined::proofs::Stops::part_ruled, rc_defined::proofs::Stops::part_held))]
fn type_arrow(
    at: Spot,
    a: &Expr,
    name: &Name,
    environment: &Environment<'_>,
    strings: &mut Vec<Vec<u8>>,
) -> Result<Meant, Stop>
    ensures ok { IfOk result (λ m. rule.meant (context_in environment.now) (scope_in environment.now) (map bytes_of strings.old.items) (t.arrow at (written.expr_of a.now) name.now) ≡ Holds (meant_of m)) }
    ensures strings { OnOk result (map bytes_of strings.new.items ≡ map bytes_of strings.old.items ++ rule.strings_in (t.arrow at (written.expr_of a.now) name.now)) }
    ensures err { IfErr result (StopsAt (rule.meant (context_in environment.now) (scope_in environment.now) (map bytes_of strings.old.items) (t.arrow at (written.expr_of a.now) name.now))) }
{
    let v = value(a, environment, strings)?;
    arrow(environment.alloc, environment.context, at, name, v)
}

#[inline(never)]
#[cycle(expressions)]
#[tactic(auto, using(rc_defined::proofs::Stops::part_stops, rc_defined::proofs::Stops::part_ruled, rc_defined::proofs::Stops::part_held))]
fn type_unary(
    at: Spot,
    op: UnaryOp,
    a: &Expr,
    environment: &Environment<'_>,
    strings: &mut Vec<Vec<u8>>,
) -> Result<Meant, Stop>
    ensures ok { IfOk result (λ m. rule.meant (context_in environment.now) (scope_in environment.now) (map bytes_of strings.old.items) (t.unary at op (written.expr_of a.now)) ≡ Holds (meant_of m)) }
    ensures strings { OnOk result (map bytes_of strings.new.items ≡ map bytes_of strings.old.items ++ rule.strings_in (t.unary at op (written.expr_of a.now))) }
    ensures err { IfErr result (StopsAt (rule.meant (context_in environment.now) (scope_in environment.now) (map bytes_of strings.old.items) (t.unary at op (written.expr_of a.now)))) }
{
    let m = meant(a, environment, strings)?;
    unary_meant(environment.alloc, at, op, spot_of(a), m)
}

#[inline(never)]
#[cycle(expressions)]
#[tactic(auto, using(rc_defined::proofs::Stops::part_stops, rc_defined::proofs::Stops::part_ruled, rc_defined::proofs::Stops::part_held))]
fn type_cast(
    at: Spot,
    to: CastType,
    a: &Expr,
    environment: &Environment<'_>,
    strings: &mut Vec<Vec<u8>>,
) -> Result<Meant, Stop>
    ensures ok { IfOk result (λ m. rule.meant (context_in environment.now) (scope_in environment.now) (map bytes_of strings.old.items) (t.cast at to (written.expr_of a.now)) ≡ Holds (meant_of m)) }
    ensures strings { OnOk result (map bytes_of strings.new.items ≡ map bytes_of strings.old.items ++ rule.strings_in (t.cast at to (written.expr_of a.now))) }
    ensures err { IfErr result (StopsAt (rule.meant (context_in environment.now) (scope_in environment.now) (map bytes_of strings.old.items) (t.cast at to (written.expr_of a.now)))) }
{
    let v = value(a, environment, strings)?;
    cast(environment.alloc, at, cast_type(to), v)
}

#[inline(never)]
#[cycle(expressions)]
#[tactic(auto, using(rc_defined::proofs::Stops::left_stops, rc_defined::proofs::Stops::right_stops, rc_defined::proofs::Stops::both_stop, rc_defined::proofs::Stops::both_ruled))]
fn type_binary(
    at: Spot,
    op: BinaryOp,
    a: &Expr,
    b: &Expr,
    environment: &Environment<'_>,
    strings: &mut Vec<Vec<u8>>,
) -> Result<Meant, Stop>
    ensures ok { IfOk result (λ m. rule.meant (context_in environment.now) (scope_in environment.now) (map bytes_of strings.old.items) (t.binary at op (written.expr_of a.now) (written.expr_of b.now)) ≡ Holds (meant_of m)) }
    ensures strings { OnOk result (map bytes_of strings.new.items ≡ map bytes_of strings.old.items ++ rule.strings_in (t.binary at op (written.expr_of a.now) (written.expr_of b.now))) }
    ensures err { IfErr result (StopsAt (rule.meant (context_in environment.now) (scope_in environment.now) (map bytes_of strings.old.items) (t.binary at op (written.expr_of a.now) (written.expr_of b.now)))) }
{
    let v = value(a, environment, strings)?;
    let w = value(b, environment, strings)?;
    compute(environment.alloc, at, op, v, w)
}

#[inline(never)]
#[cycle(expressions)]
#[tactic(auto, using(rc_defined::proofs::Stops::left_stops, rc_defined::proofs::Stops::second_stops))]
fn type_conditional(
    at: Spot,
    c: &Expr,
    a: &Expr,
    b: &Expr,
    environment: &Environment<'_>,
    strings: &mut Vec<Vec<u8>>,
) -> Result<Meant, Stop>
    ensures ok { IfOk result (λ m. rule.meant (context_in environment.now) (scope_in environment.now) (map bytes_of strings.old.items) (t.conditional at (written.expr_of c.now) (written.expr_of a.now) (written.expr_of b.now)) ≡ Holds (meant_of m)) }
    ensures strings { OnOk result (map bytes_of strings.new.items ≡ map bytes_of strings.old.items ++ rule.strings_in (t.conditional at (written.expr_of c.now) (written.expr_of a.now) (written.expr_of b.now))) }
    ensures err { IfErr result (StopsAt (rule.meant (context_in environment.now) (scope_in environment.now) (map bytes_of strings.old.items) (t.conditional at (written.expr_of c.now) (written.expr_of a.now) (written.expr_of b.now)))) }
{
    let test = value(c, environment, strings)?;
    let v = value(a, environment, strings)?;
    let w = value(b, environment, strings)?;
    choose(environment.alloc, at, test, v, w)
}

/// What an expression is: a value, a local, a place in memory, or an array field.
///
/// The string literals in it are put after those before it. After an error they are a front of
/// these.
///
/// # Errors
///
/// A rule fails at a node of it, the first in the order of the text. Or out of memory.
#[inline(never)]
#[cycle(expressions)]
pub fn meant(
    e: &Expr,
    environment: &Environment<'_>,
    strings: &mut Vec<Vec<u8>>,
) -> Result<Meant, Stop>
    ensures ok { IfOk result (λ m. rule.meant (context_in environment.now) (scope_in environment.now) (map bytes_of strings.old.items) (written.expr_of e.now) ≡ Holds (meant_of m)) }
    ensures strings { OnOk result (map bytes_of strings.new.items ≡ map bytes_of strings.old.items ++ rule.strings_in (written.expr_of e.now)) }
    ensures err { IfErr result (StopsAt (rule.meant (context_in environment.now) (scope_in environment.now) (map bytes_of strings.old.items) (written.expr_of e.now))) }
{
    match e {
        Expr::Number(at, n, is_unsigned) => {
            let n = *n;
            number(environment.alloc, *at, signedness(*is_unsigned, n), n)
        }
        Expr::Character(at, c) => number(environment.alloc, *at, Signedness::Signed, *c as u32),
        Expr::Str(at, text) => string(environment.alloc, *at, text, strings),
        Expr::Null(at) => null(environment.alloc, *at),
        Expr::Eof(at) => eof(environment.alloc, *at),
        Expr::Variable(name) => {
            let known = meaning(environment.names, name);
            name_rule(environment.alloc, name.spot, known)
        }
        Expr::Call(name, given) => type_call(name, given, environment, strings),
        Expr::Ralloc(at, r, n) => type_ralloc(*at, r, n, environment, strings),
        Expr::RarrayAlloc(at, r, k, n) => type_rarrayalloc(*at, r, k, n, environment, strings),
        Expr::Index(at, a, k) => type_index(*at, a, k, environment, strings),
        Expr::Member(at, a, name) => type_member(*at, a, name, environment, strings),
        Expr::Arrow(at, a, name) => type_arrow(*at, a, name, environment, strings),
        Expr::Unary(at, op, a) => type_unary(*at, *op, a, environment, strings),
        Expr::Cast(at, to, a) => type_cast(*at, *to, a, environment, strings),
        Expr::Binary(at, op, a, b) => type_binary(*at, *op, a, b, environment, strings),
        Expr::Conditional(at, c, a, b) => type_conditional(*at, c, a, b, environment, strings),
    }
}
