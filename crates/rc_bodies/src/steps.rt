// Simple statements and conditions.
ghost use Rattle.std.specs.Prelude.{◌≡◌, ◌++◌, map, option_map, IfOk, IfErr, OnOk};
ghost use Rattle.rc_core.specs.Shapes.{bytes_of, expr_of, stmt_of};
ghost use Rattle.rc_deletes.specs.Judged.{Holds, with_part, fitting as fits};
ghost use Rattle.rc_deletes.specs.Expressions as terms;
ghost use Rattle.rc_deletes.specs.Expressions.{strings_in, strings_in_all};
ghost use Rattle.rc_deletes.specs.Statements as rule;
ghost use Rattle.rc_deletes.specs.Values as values;
ghost use Rattle.rc_typed_values.specs.Shapes.{typed_of, meant_of};
ghost use Rattle.rc_item_rules.specs.Sides.{right_of};
ghost use Rattle.rc_typed_values.specs.Stops.{StopsAt};
ghost use Rattle.rc_syntax.specs.Shape as written;
ghost use Rattle.rc_syntax.specs.Tree.{call, assign, update, step_after};
ghost use Rattle.rc_defined.specs.Contexts.{context_in, scope_in};

use crate::nodes::empty_block;
use rc_core::expr::Expr as Value;
use rc_core::stmt::Stmt as Step;
use rc_defined::{Environment, meaning};
use rc_item_rules::{
    RightSide, alone_rule, assignment, fitting, one, right_side, step_operator, update_of,
};
use rc_rules::{call_statement, callee_rule};
use rc_syntax::tree::{BinaryOp, Expr, Name, Simple, Spot, StepOp};
use rc_terms::{arguments, meant, spot_of, value};
use rc_typed_values::{Meant, Stop, Typed, condition_rule};
use std::alloc::Global;

/// A value that may be absent.
#[tactic(auto, using(rc_defined::proofs::Stops::part_stops, rc_defined::proofs::Stops::part_held, rc_defined::proofs::Lists::no_strings))]
pub(crate) fn value_option(
    e: &Option<Expr>,
    environment: &Environment<'_>,
    strings: &mut Vec<Vec<u8>>,
) -> Result<Option<Typed>, Stop>
    ensures ok { IfOk result (λ v. rule.value_option (context_in environment.now) (scope_in environment.now) (map bytes_of strings.old.items) (written.mapped written.expr_of e.now) ≡ Holds (option_map typed_of v)) }
    ensures strings { OnOk result (map bytes_of strings.new.items ≡ map bytes_of strings.old.items ++ rule.strings_in_option (written.mapped written.expr_of e.now)) }
    ensures err { IfErr result (StopsAt (rule.value_option (context_in environment.now) (scope_in environment.now) (map bytes_of strings.old.items) (written.mapped written.expr_of e.now))) }
{
    match e {
        None => Ok(None),
        Some(e) => {
            let v = value(e, environment, strings)?;
            Ok(Some(v))
        }
    }
}

/// What a loop or a branch looks at.
#[tactic(auto, using(rc_defined::proofs::Stops::part_stops, rc_defined::proofs::Stops::part_ruled, rc_defined::proofs::Stops::part_held))]
pub(crate) fn condition(
    e: &Expr,
    environment: &Environment<'_>,
    strings: &mut Vec<Vec<u8>>,
) -> Result<Box<Value>, Stop>
    ensures ok { IfOk result (λ c. rule.condition (context_in environment.now) (scope_in environment.now) (map bytes_of strings.old.items) (written.expr_of e.now) ≡ Holds (expr_of c.value)) }
    ensures strings { OnOk result (map bytes_of strings.new.items ≡ map bytes_of strings.old.items ++ strings_in (written.expr_of e.now)) }
    ensures err { IfErr result (StopsAt (rule.condition (context_in environment.now) (scope_in environment.now) (map bytes_of strings.old.items) (written.expr_of e.now))) }
{
    let v = value(e, environment, strings)?;
    condition_rule(spot_of(e), v)
}

/// A condition that may be absent.
#[tactic(auto, using(rc_defined::proofs::Stops::part_stops, rc_defined::proofs::Stops::part_held, rc_defined::proofs::Lists::no_strings))]
pub(crate) fn condition_option(
    e: &Option<Expr>,
    environment: &Environment<'_>,
    strings: &mut Vec<Vec<u8>>,
) -> Result<Option<Box<Value>>, Stop>
    ensures ok { IfOk result (λ c. rule.condition_option (context_in environment.now) (scope_in environment.now) (map bytes_of strings.old.items) (written.mapped written.expr_of e.now) ≡ Holds (option_map (λ c. expr_of c.value) c)) }
    ensures strings { OnOk result (map bytes_of strings.new.items ≡ map bytes_of strings.old.items ++ rule.strings_in_option (written.mapped written.expr_of e.now)) }
    ensures err { IfErr result (StopsAt (rule.condition_option (context_in environment.now) (scope_in environment.now) (map bytes_of strings.old.items) (written.mapped written.expr_of e.now))) }
{
    match e {
        None => Ok(None),
        Some(e) => {
            let c = condition(e, environment, strings)?;
            Ok(Some(c))
        }
    }
}

/// A call as a statement.
#[tactic(auto, using(rc_defined::proofs::Stops::left_stops, rc_defined::proofs::Stops::right_stops, rc_defined::proofs::Stops::both_stop, rc_defined::proofs::Stops::both_ruled))]
fn call_alone(
    name: &Name,
    given: &[Expr],
    environment: &Environment<'_>,
    strings: &mut Vec<Vec<u8>>,
) -> Result<Box<Step>, Stop>
    ensures ok { IfOk result (λ s. rule.expression_alone (context_in environment.now) (scope_in environment.now) (map bytes_of strings.old.items) (call name.now (written.exprs_of given.now)) ≡ Holds (stmt_of s.value)) }
    ensures strings { OnOk result (map bytes_of strings.new.items ≡ map bytes_of strings.old.items ++ strings_in_all (written.exprs_of given.now)) }
    ensures err { IfErr result (StopsAt (rule.expression_alone (context_in environment.now) (scope_in environment.now) (map bytes_of strings.old.items) (call name.now (written.exprs_of given.now)))) }
{
    let callee = callee_rule(name.spot, meaning(environment.names, name))?;
    let given = arguments(given, environment, strings)?;
    call_statement(environment.alloc, name.spot, callee, given)
}

/// A value as a statement.
#[tactic(auto, using(rc_defined::proofs::Stops::part_stops, rc_defined::proofs::Stops::part_ruled, rc_defined::proofs::Stops::part_held))]
fn value_alone(
    e: &Expr,
    environment: &Environment<'_>,
    strings: &mut Vec<Vec<u8>>,
) -> Result<Box<Step>, Stop>
    ensures ok { IfOk result (λ s. rule.value_alone (context_in environment.now) (scope_in environment.now) (map bytes_of strings.old.items) (written.expr_of e.now) ≡ Holds (stmt_of s.value)) }
    ensures strings { OnOk result (map bytes_of strings.new.items ≡ map bytes_of strings.old.items ++ strings_in (written.expr_of e.now)) }
    ensures err { IfErr result (StopsAt (rule.value_alone (context_in environment.now) (scope_in environment.now) (map bytes_of strings.old.items) (written.expr_of e.now))) }
{
    let v = value(e, environment, strings)?;
    alone_rule(environment.alloc, spot_of(e), v)
}

/// An expression as a statement.
#[tactic(auto, using(rc_syntax::proofs::Rows::call_is))]
fn expression_alone(
    e: &Expr,
    environment: &Environment<'_>,
    strings: &mut Vec<Vec<u8>>,
) -> Result<Box<Step>, Stop>
    ensures ok { IfOk result (λ s. rule.expression_alone (context_in environment.now) (scope_in environment.now) (map bytes_of strings.old.items) (written.expr_of e.now) ≡ Holds (stmt_of s.value)) }
    ensures strings { OnOk result (map bytes_of strings.new.items ≡ map bytes_of strings.old.items ++ strings_in (written.expr_of e.now)) }
    ensures err { IfErr result (StopsAt (rule.expression_alone (context_in environment.now) (scope_in environment.now) (map bytes_of strings.old.items) (written.expr_of e.now))) }
{
    match e {
        Expr::Call(name, given) => call_alone(name, given, environment, strings),
        _ => value_alone(e, environment, strings),
    }
}

/// The right side of `=`.
#[tactic(auto, using(rc_defined::proofs::Stops::part_stops, rc_defined::proofs::Stops::part_ruled, rc_defined::proofs::Stops::part_held))]
fn right(
    r: &Expr,
    environment: &Environment<'_>,
    strings: &mut Vec<Vec<u8>>,
) -> Result<RightSide, Stop>
    ensures ok { IfOk result (λ w. with_part (terms.meant (context_in environment.now) (scope_in environment.now) (map bytes_of strings.old.items) (written.expr_of r.now)) (rule.right_side (values.spot_of (written.expr_of r.now))) ≡ Holds (right_of w)) }
    ensures strings { OnOk result (map bytes_of strings.new.items ≡ map bytes_of strings.old.items ++ strings_in (written.expr_of r.now)) }
    ensures err { IfErr result (StopsAt (with_part (terms.meant (context_in environment.now) (scope_in environment.now) (map bytes_of strings.old.items) (written.expr_of r.now)) (rule.right_side (values.spot_of (written.expr_of r.now))))) }
{
    let m = meant(r, environment, strings)?;
    right_side(environment.alloc, spot_of(r), m)
}

/// The assignment of a right side to what the left side is.
fn assigning(
    at: Spot,
    environment: &Environment<'_>,
    left: Meant,
    right: RightSide,
) -> Result<Box<Step>, Stop>
    ensures ok { IfOk result (λ s. fits at (rule.assignment (context_in environment.now) at.line (meant_of left) (right_of right)) ≡ Holds (stmt_of s.value)) }
    ensures err { IfErr result (StopsAt (fits at (rule.assignment (context_in environment.now) at.line (meant_of left) (right_of right)))) }
{
    let sizes = environment.context.sizes.as_slice();
    let step = assignment(environment.alloc, at.line, sizes, left, right)?;
    fitting(at, step)
}

/// An assignment: a struct is assigned whole where it is small enough.
#[tactic(auto, using(rc_defined::proofs::Stops::left_stops, rc_defined::proofs::Stops::right_stops, rc_defined::proofs::Stops::both_stop, rc_defined::proofs::Stops::both_ruled))]
fn assigned(
    at: Spot,
    l: &Expr,
    r: &Expr,
    environment: &Environment<'_>,
    strings: &mut Vec<Vec<u8>>,
) -> Result<Box<Step>, Stop>
    ensures ok { IfOk result (λ s. rule.simple (context_in environment.now) (scope_in environment.now) (map bytes_of strings.old.items) (assign at (written.expr_of l.now) (written.expr_of r.now)) ≡ Holds (stmt_of s.value)) }
    ensures strings { OnOk result (map bytes_of strings.new.items ≡ map bytes_of strings.old.items ++ (strings_in (written.expr_of l.now) ++ strings_in (written.expr_of r.now))) }
    ensures err { IfErr result (StopsAt (rule.simple (context_in environment.now) (scope_in environment.now) (map bytes_of strings.old.items) (assign at (written.expr_of l.now) (written.expr_of r.now)))) }
{
    let left = meant(l, environment, strings)?;
    let right = right(r, environment, strings)?;
    assigning(at, environment, left, right)
}

/// The update, by `op`, of what the left side is, which stands in this line.
fn updating(
    alloc: Global,
    at: Spot,
    line: u32,
    op: BinaryOp,
    left: Meant,
    v: Typed,
) -> Result<Box<Step>, Stop>
    ensures ok { IfOk result (λ s. fits at (rule.update_of at.line line op (meant_of left) (typed_of v)) ≡ Holds (stmt_of s.value)) }
    ensures err { IfErr result (StopsAt (fits at (rule.update_of at.line line op (meant_of left) (typed_of v)))) }
{
    let step = update_of(alloc, at.line, line, op, left, v)?;
    fitting(at, step)
}

/// `op=`.
#[tactic(auto, using(rc_defined::proofs::Stops::left_stops, rc_defined::proofs::Stops::right_stops, rc_defined::proofs::Stops::both_stop, rc_defined::proofs::Stops::both_ruled))]
fn updated(
    at: Spot,
    op: BinaryOp,
    l: &Expr,
    r: &Expr,
    environment: &Environment<'_>,
    strings: &mut Vec<Vec<u8>>,
) -> Result<Box<Step>, Stop>
    ensures ok { IfOk result (λ s. rule.simple (context_in environment.now) (scope_in environment.now) (map bytes_of strings.old.items) (update at op (written.expr_of l.now) (written.expr_of r.now)) ≡ Holds (stmt_of s.value)) }
    ensures strings { OnOk result (map bytes_of strings.new.items ≡ map bytes_of strings.old.items ++ (strings_in (written.expr_of l.now) ++ strings_in (written.expr_of r.now))) }
    ensures err { IfErr result (StopsAt (rule.simple (context_in environment.now) (scope_in environment.now) (map bytes_of strings.old.items) (update at op (written.expr_of l.now) (written.expr_of r.now)))) }
{
    let left = meant(l, environment, strings)?;
    let v = value(r, environment, strings)?;
    updating(environment.alloc, at, spot_of(l).line, op, left, v)
}

/// `++` or `--`.
#[tactic(auto, using(rc_defined::proofs::Stops::part_stops, rc_defined::proofs::Stops::part_ruled, rc_defined::proofs::Stops::part_held))]
fn stepped(
    at: Spot,
    op: StepOp,
    l: &Expr,
    environment: &Environment<'_>,
    strings: &mut Vec<Vec<u8>>,
) -> Result<Box<Step>, Stop>
    ensures ok { IfOk result (λ s. rule.simple (context_in environment.now) (scope_in environment.now) (map bytes_of strings.old.items) (step_after at op (written.expr_of l.now)) ≡ Holds (stmt_of s.value)) }
    ensures strings { OnOk result (map bytes_of strings.new.items ≡ map bytes_of strings.old.items ++ strings_in (written.expr_of l.now)) }
    ensures err { IfErr result (StopsAt (rule.simple (context_in environment.now) (scope_in environment.now) (map bytes_of strings.old.items) (step_after at op (written.expr_of l.now)))) }
{
    let left = meant(l, environment, strings)?;
    let added = one(environment.alloc, at.line)?;
    let op = step_operator(op);
    updating(environment.alloc, at, spot_of(l).line, op, left, added)
}

/// What a statement or the head of a `for` does by itself.
pub(crate) fn simple(
    s: &Simple,
    environment: &Environment<'_>,
    strings: &mut Vec<Vec<u8>>,
) -> Result<Box<Step>, Stop>
    ensures ok { IfOk result (λ r. rule.simple (context_in environment.now) (scope_in environment.now) (map bytes_of strings.old.items) (written.simple_of s.now) ≡ Holds (stmt_of r.value)) }
    ensures strings { OnOk result (map bytes_of strings.new.items ≡ map bytes_of strings.old.items ++ rule.strings_in_simple (written.simple_of s.now)) }
    ensures err { IfErr result (StopsAt (rule.simple (context_in environment.now) (scope_in environment.now) (map bytes_of strings.old.items) (written.simple_of s.now))) }
{
    match s {
        Simple::Expr(e) => expression_alone(e, environment, strings),
        Simple::Assign(at, l, r) => assigned(*at, l, r, environment, strings),
        Simple::Update(at, op, l, r) => updated(*at, *op, l, r, environment, strings),
        Simple::StepAfter(at, op, l) => stepped(*at, *op, l, environment, strings),
        Simple::StepBefore(at, op, l) => stepped(*at, *op, l, environment, strings),
    }
}

/// A part of a `for`: where it is absent an empty block.
#[tactic(auto, using(rc_defined::proofs::Lists::no_strings))]
pub(crate) fn simple_option(
    s: &Option<Simple>,
    environment: &Environment<'_>,
    strings: &mut Vec<Vec<u8>>,
) -> Result<Box<Step>, Stop>
    ensures ok { IfOk result (λ r. rule.simple_option (context_in environment.now) (scope_in environment.now) (map bytes_of strings.old.items) (written.mapped written.simple_of s.now) ≡ Holds (stmt_of r.value)) }
    ensures strings { OnOk result (map bytes_of strings.new.items ≡ map bytes_of strings.old.items ++ rule.strings_in_simple_option (written.mapped written.simple_of s.now)) }
    ensures err { IfErr result (StopsAt (rule.simple_option (context_in environment.now) (scope_in environment.now) (map bytes_of strings.old.items) (written.mapped written.simple_of s.now))) }
{
    match s {
        None => empty_block(environment.alloc),
        Some(s) => simple(s, environment, strings),
    }
}
