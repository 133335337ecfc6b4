// The points of statements, taken from what is left.
ghost use Rattle.std.specs.Prelude.{◌≡◌, ◌<◌, ◌+◌, List, MatchOption, option_map};
ghost use Rattle.rc_core.specs.Laid.{AreLaidOut};
ghost use Rattle.rc_core.specs.Programs.{Struct};
ghost use Rattle.rc_core.specs.Shapes.{expr_of, stmt_of, stmts_of};
ghost use Rattle.rc_rlang.specs.Points.{points, condition_points, conversion_points, change_points, optional_points, statement_points, body_points};

use crate::budget::{spend, spend_cells};
use crate::points::{expression, place};
use rc_core::expr::Expr;
use rc_core::stmt::{Change, Stmt};
use rc_core::ty::NumberType;
use rc_core::{Layouts, type_of};

/// A condition, with its branch.
fn condition(e: &Expr, left: u32) -> Option<u32>
    ensures { MatchOption result (left < condition_points (expr_of e.now)) (λ r. r + condition_points (expr_of e.now) ≡ left) }
{
    match e {
        Expr::Not { operand, .. } => condition(operand, left),
        Expr::IsNull { operand, .. } => spend(expression(operand, left)?, 1),
        _ => spend(expression(e, left)?, 1),
    }
}

fn optional_condition(test: &Option<Expr>, left: u32) -> Option<u32>
    ensures { MatchOption result (left < optional_points condition_points (option_map expr_of test.now)) (λ r. r + optional_points condition_points (option_map expr_of test.now) ≡ left) }
{
    match test {
        None => Some(left),
        Some(e) => condition(e, left),
    }
}

fn optional_expression(value: &Option<Expr>, left: u32) -> Option<u32>
    ensures { MatchOption result (left < optional_points points (option_map expr_of value.now)) (λ r. r + optional_points points (option_map expr_of value.now) ≡ left) }
{
    match value {
        None => Some(left),
        Some(e) => expression(e, left),
    }
}

fn conversion(from: NumberType, to: NumberType) -> u32
    ensures { result ≡ conversion_points from to }
{
    match (from, to) {
        (NumberType::Int, NumberType::Int) => 0,
        (NumberType::Unsigned, NumberType::Unsigned) => 0,
        (NumberType::Char, NumberType::Char) => 0,
        _ => 1,
    }
}

fn change_of(change: Change) -> u32
    ensures { result ≡ change_points change }
{
    match change {
        Change::Compute {
            from,
            signedness,
            ..
        } => {
            let own = type_of(signedness);
            3 + conversion(from, own) + conversion(own, from)
        }
        Change::Step { .. } => 3,
    }
}

#[cycle(statements)]
#[tactic(auto, using(rc_core::proofs::ShapeRows::block_is))]
pub(crate) fn statement(s: &Stmt, layouts: &Layouts, left: u32) -> Option<u32>
    ensures { (structs : List Struct) → AreLaidOut structs layouts.now → MatchOption result (left < statement_points structs (stmt_of s.now)) (λ r. r + statement_points structs (stmt_of s.now) ≡ left) }
{
    match s {
        Stmt::Block { body } => self::body(body, layouts, left),
        Stmt::Declare { value: None, .. } => spend(left, 1),
        Stmt::Declare { value: Some(e), .. } => spend(expression(e, left)?, 1),
        Stmt::Assign { value, .. } => spend(expression(value, left)?, 1),
        Stmt::Store {
            place: to,
            value,
            ..
        } => spend(expression(value, place(to, left)?)?, 1),
        Stmt::Update {
            place: to,
            change,
            value,
            ..
        } => { spend(expression(value, place(to, left)?)?, change_of(*change)) }
        Stmt::Copy {
            structure,
            left: to,
            right: from,
            ..
        } => {
            let behind_places = place(from, place(to, left)?)?;
            let behind_loads = spend_cells(behind_places, layouts.size_of(*structure))?;
            spend_cells(behind_loads, layouts.size_of(*structure))
        }
        Stmt::Evaluate { value, .. } => expression(value, left),
        Stmt::Delete { region, .. } => spend(expression(region, left)?, 1),
        Stmt::If { test, yes, no, .. } => {
            let behind_test = condition(test, left)?;
            let behind_yes = statement(yes, layouts, behind_test)?;
            statement(no, layouts, behind_yes)
        }
        Stmt::While { test, body, .. } => {
            let behind_test = condition(test, spend(left, 1)?)?;
            statement(body, layouts, behind_test)
        }
        Stmt::Do { body, test, .. } => {
            let behind_body = statement(body, layouts, spend(left, 1)?)?;
            condition(test, behind_body)
        }
        Stmt::For {
            first,
            test,
            third,
            body,
            ..
        } => {
            let behind_first = statement(first, layouts, left)?;
            let behind_test = optional_condition(test, spend(behind_first, 1)?)?;
            let behind_body = statement(body, layouts, behind_test)?;
            statement(third, layouts, behind_body)
        }
        Stmt::Break { .. } => spend(left, 1),
        Stmt::Continue { .. } => spend(left, 1),
        Stmt::Return { value, .. } => spend(optional_expression(value, left)?, 1),
    }
}

#[cycle(statements)]
#[tactic(auto, using(crate::proofs::Totals::body_step, crate::proofs::Totals::body_end))]
fn body(body: &[Stmt], layouts: &Layouts, left: u32) -> Option<u32>
    ensures { (structs : List Struct) → AreLaidOut structs layouts.now → MatchOption result (left < body_points structs (stmts_of body.now)) (λ r. r + body_points structs (stmts_of body.now) ≡ left) }
{
    let mut rest = left;
    for s in body {
        rest = statement(s, layouts, rest)?;
    }
    Some(rest)
}
