// The points of expressions, taken from what is left of those that a program may have.
ghost use Rattle.std.specs.Prelude.{◌≡◌, ◌<◌, ◌+◌, MatchOption};
ghost use Rattle.rc_core.specs.Shapes.{expr_of, place_of, path_of, arguments_of};
ghost use Rattle.rc_rlang.specs.Points.{points, arguments_points, place_points, path_points, operator_points};

use crate::budget::spend;
use rc_core::expr::{Expr, PathStep, Place};
use rc_core::operators::UnaryOperator;

fn operator_points(operator: UnaryOperator) -> u32
    ensures { result ≡ operator_points operator }
{
    match operator {
        UnaryOperator::Negate => 1,
        UnaryOperator::Plus => 0,
        UnaryOperator::Complement => 1,
    }
}

#[cycle(points)]
#[tactic(auto, using(rc_core::proofs::ShapeRows::call_is))]
pub(crate) fn expression(e: &Expr, left: u32) -> Option<u32>
    ensures { MatchOption result (left < points (expr_of e.now)) (λ r. r + points (expr_of e.now) ≡ left) }
{
    match e {
        Expr::Constant { .. } => spend(left, 1),
        Expr::Null { .. } => spend(left, 1),
        Expr::Str { .. } => spend(left, 1),
        Expr::Local { .. } => spend(left, 1),
        Expr::Read { place, .. } => spend(self::place(place, left)?, 1),
        Expr::Address { .. } => spend(left, 1),
        Expr::Step {
            pointer,
            number,
            ..
        } => spend(expression(number, expression(pointer, left)?)?, 1),
        Expr::StepFrom {
            number,
            pointer,
            ..
        } => spend(expression(pointer, expression(number, left)?)?, 1),
        Expr::Unary {
            operator,
            operand,
            ..
        } => { spend(expression(operand, left)?, operator_points(*operator)) }
        Expr::Binary {
            left: a,
            right: b,
            ..
        } => spend(expression(b, expression(a, left)?)?, 1),
        Expr::Convert { operand, .. } => spend(expression(operand, left)?, 1),
        Expr::Not { operand, .. } => spend(expression(operand, left)?, 1),
        Expr::And {
            left: a,
            right: b,
            ..
        } => spend(expression(b, expression(a, left)?)?, 3),
        Expr::Or {
            left: a,
            right: b,
            ..
        } => spend(expression(b, expression(a, left)?)?, 3),
        Expr::Choose { test, yes, no, .. } => spend(
            expression(no, expression(yes, expression(test, left)?)?)?,
            1,
        ),
        Expr::IsNull { operand, .. } => spend(expression(operand, left)?, 1),
        Expr::Same {
            left: a,
            right: b,
            ..
        } => spend(expression(b, expression(a, left)?)?, 1),
        Expr::Call { arguments, .. } => spend(self::arguments(arguments, left)?, 1),
        Expr::NewRegion { .. } => spend(left, 1),
        Expr::NewSubregion { parent, .. } => spend(expression(parent, left)?, 1),
        Expr::RegionOf { pointer, .. } => spend(expression(pointer, left)?, 1),
        Expr::Allocate { region, .. } => spend(expression(region, left)?, 1),
        Expr::AllocateArray { region, number, .. } => spend(
            expression(number, expression(region, left)?)?,
            1,
        ),
        Expr::Putchar { byte, .. } => spend(expression(byte, left)?, 1),
        Expr::Getchar { .. } => spend(left, 1),
    }
}

#[cycle(points)]
#[tactic(auto, using(crate::proofs::Totals::arguments_step, crate::proofs::Totals::arguments_end))]
fn arguments(arguments: &[Expr], left: u32) -> Option<u32>
    ensures { MatchOption result (left < arguments_points (arguments_of arguments.now)) (λ r. r + arguments_points (arguments_of arguments.now) ≡ left) }
{
    let mut rest = left;
    for argument in arguments {
        rest = expression(argument, rest)?;
    }
    Some(rest)
}

#[cycle(points)]
#[tactic(auto, using(rc_core::proofs::ShapeRows::global_is, rc_core::proofs::ShapeRows::pointed_is, rc_core::proofs::ShapeRows::indexed_is))]
pub(crate) fn place(place: &Place, left: u32) -> Option<u32>
    ensures { MatchOption result (left < place_points (place_of place.now)) (λ r. r + place_points (place_of place.now) ≡ left) }
{
    match place {
        Place::Global { path, .. } => self::path(path, spend(left, 1)?),
        Place::Pointed { pointer, path } => self::path(path, expression(pointer, left)?),
        Place::Indexed {
            pointer,
            index,
            path,
        } => {
            let behind_pointer = expression(pointer, left)?;
            let behind_index = expression(index, behind_pointer)?;
            self::path(path, behind_index)
        }
    }
}

#[cycle(points)]
#[tactic(auto, using(crate::proofs::Totals::path_step, crate::proofs::Totals::path_end))]
fn path(path: &[PathStep], left: u32) -> Option<u32>
    ensures { MatchOption result (left < path_points (path_of path.now)) (λ r. r + path_points (path_of path.now) ≡ left) }
{
    let mut rest = left;
    for step in path {
        if let PathStep::Element { index, .. } = step {
            rest = expression(index, rest)?;
        }
    }
    Some(rest)
}
