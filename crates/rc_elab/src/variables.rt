// The region variables of a function.
ghost use Rattle.std.specs.Prelude.{◌≡◌, ◌<◌, ◌≤◌, ◌+◌, ◌*◌, MatchOption, IfSome, length, Decides, suc, max, ℕ, Option, option_map, count_by, take, drop, map, List};
ghost use Rattle.rc_base.specs.Limits.{most_variables};
ghost use Rattle.rc_core.specs.Shapes.{expr_of, stmt_of, stmts_of, ty_of, function_of};
ghost use Rattle.rc_rlang.specs.Bounds.{IsNarrow};
ghost use Rattle.rc_core.specs.Typing.{is_reference};
ghost use Rattle.rc_rlang.specs.Variables.{temporaries, optional_temporaries, statement_temporaries, body_temporaries, end_temporaries, function_temporaries, region_variables};

use crate::budget::spend;
use crate::temporaries::{expression, place};
use rc_base::MOST_VARIABLES;
use rc_core::expr::Expr;
use rc_core::parts::Function;
use rc_core::stmt::Stmt;
use rc_core::ty::Ty;

fn optional(value: &Option<Expr>) -> Option<u32>
    ensures { MatchOption result (most_variables < optional_temporaries (option_map expr_of value.now)) (λ r. (r ≡ optional_temporaries (option_map expr_of value.now)) × (r ≤ most_variables)) }
{
    match value {
        None => Some(0),
        Some(e) => expression(e, 0),
    }
}

/// One more than a temporary that comes behind others.
fn behind(h: u32) -> Option<u32>
    requires { h ≤ most_variables }
    ensures { MatchOption result (most_variables < suc h) (λ r. (r ≡ suc h) × (r ≤ most_variables)) }
{
    if h < MOST_VARIABLES {
        Some(h + 1)
    } else {
        None
    }
}

#[cycle(variables)]
#[tactic(auto, using(rc_core::proofs::ShapeRows::block_is))]
fn statement(s: &Stmt) -> Option<u32>
    ensures { MatchOption result (most_variables < statement_temporaries (stmt_of s.now)) (λ r. (r ≡ statement_temporaries (stmt_of s.now)) × (r ≤ most_variables)) }
{
    match s {
        Stmt::Block { body } => self::body(body),
        Stmt::Declare { value, .. } => optional(value),
        Stmt::Assign { value, .. } => expression(value, 0),
        Stmt::Store {
            place: to,
            value,
            ..
        } => {
            let of_place = place(to, 0)?;
            let of_value = expression(value, of_place.next)?;
            Some(of_place.most.max(of_value))
        }
        Stmt::Update {
            place: to,
            value,
            ..
        } => {
            let of_place = place(to, 0)?;
            let of_value = expression(value, of_place.next)?;
            let of_old = behind(behind(of_place.next)?)?;
            Some(of_place.most.max(of_value.max(of_old)))
        }
        Stmt::Copy { left, right, .. } => {
            let of_left = place(left, 0)?;
            let of_right = place(right, of_left.next)?;
            let of_cell = behind(of_right.next)?;
            Some(of_left.most.max(of_right.most.max(of_cell)))
        }
        Stmt::Evaluate { value, .. } => expression(value, 0),
        Stmt::Delete { region, .. } => expression(region, 0),
        Stmt::If { test, yes, no, .. } => {
            let of_test = expression(test, 0)?;
            let of_yes = statement(yes)?;
            let of_no = statement(no)?;
            Some(of_test.max(of_yes.max(of_no)))
        }
        Stmt::While { test, body, .. } => {
            let of_test = expression(test, 0)?;
            let of_body = statement(body)?;
            Some(of_test.max(of_body))
        }
        Stmt::Do { body, test, .. } => {
            let of_body = statement(body)?;
            let of_test = expression(test, 0)?;
            Some(of_body.max(of_test))
        }
        Stmt::For {
            first,
            test,
            third,
            body,
            ..
        } => {
            let of_first = statement(first)?;
            let of_test = optional(test)?;
            let of_body = statement(body)?;
            let of_third = statement(third)?;
            Some(of_first.max(of_test.max(of_body.max(of_third))))
        }
        Stmt::Break { .. } => Some(0),
        Stmt::Continue { .. } => Some(0),
        Stmt::Return { value, .. } => optional(value),
    }
}

#[cycle(variables)]
#[tactic(auto, using(crate::proofs::Greatest::body_step, crate::proofs::Greatest::body_end))]
fn body(body: &[Stmt]) -> Option<u32>
    ensures { MatchOption result (most_variables < body_temporaries (stmts_of body.now)) (λ r. (r ≡ body_temporaries (stmts_of body.now)) × (r ≤ most_variables)) }
{
    let mut most = 0;
    for s in body {
        most = most.max(statement(s)?);
    }
    Some(most)
}

fn behind_body(given: &Option<Ty>) -> u32
    ensures value { result ≡ end_temporaries (option_map ty_of given.now) }
    ensures low { result ≤ 1 }
{
    match given {
        None => 0,
        Some(_) => 1,
    }
}

fn references(ty: &Ty) -> bool
    ensures { result ≡ is_reference (ty_of ty.now) }
{
    match ty {
        Ty::Region => true,
        Ty::Pointer(_, _) => true,
        _ => false,
    }
}

/// So many for each region or pointer, taken from what is left.
#[tactic(auto, using(crate::proofs::Totals::reference_more, crate::proofs::Totals::reference_none, crate::proofs::Totals::references_end))]
fn locals(types: &[Ty], each: u32, left: u32) -> Option<u32>
    ensures { MatchOption result (left < each * count_by is_reference (map ty_of types.now)) (λ r. r + each * count_by is_reference (map ty_of types.now) ≡ left) }
{
    let mut rest = left;
    for ty in types {
        if references(ty) {
            rest = spend(rest, each)?;
        }
    }
    Some(rest)
}

/// Whether the function has no more region variables than it may.
pub(crate) fn is_narrow(f: &Function) -> bool
    requires { f.now.parameters ≤ length f.now.locals.items }
    ensures { Decides result (IsNarrow (function_of f.now)) }
{
    variables_left(f).is_some()
}

#[tactic(auto, using(crate::proofs::Totals::first_types, crate::proofs::Totals::other_types))]
fn variables_left(f: &Function) -> Option<u32>
    requires { f.now.parameters ≤ length f.now.locals.items }
    ensures { MatchOption result (most_variables < region_variables (function_of f.now)) (λ r. r + region_variables (function_of f.now) ≡ most_variables) }
{
    let of_body = statement(&f.body)?;
    let most = of_body.max(behind_body(&f.result));
    let behind_temporaries = spend(MOST_VARIABLES, most + 2)?;
    let (parameters, others) = f.locals.as_slice().split_at(f.parameters as usize);
    let behind_parameters = locals(parameters, 2, behind_temporaries)?;
    locals(others, 1, behind_parameters)
}
