// The temporaries of expressions: one more than the greatest that is used, where it is no more than
// a function may have.
ghost use Rattle.std.specs.Prelude.{◌≡◌, ◌<◌, ◌≤◌, ◌+◌, MatchOption, IfSome, suc, max, ℕ, ◌⊎◌};
ghost use Rattle.rc_base.specs.Limits.{most_variables};
ghost use Rattle.rc_core.specs.Shapes.{expr_of, place_of, path_of, arguments_of};
ghost use Rattle.rc_rlang.specs.Variables.{temporaries, arguments_temporaries, place_temporaries, path_temporaries, place_next, path_next};

use rc_base::MOST_VARIABLES;
use rc_core::expr::{Expr, PathStep, Place};

/// The temporary itself.
fn one(h: u32) -> Option<u32>
    ensures { MatchOption result (most_variables < suc h) (λ r. r ≡ suc h × (h < r) × (r ≤ most_variables)) }
{
    if h < MOST_VARIABLES {
        Some(h + 1)
    } else {
        None
    }
}

#[cycle(temporaries)]
#[tactic(auto, using(rc_core::proofs::ShapeRows::call_is))]
pub(crate) fn expression(e: &Expr, h: u32) -> Option<u32>
    ensures { MatchOption result (most_variables < temporaries (expr_of e.now) h) (λ r. (r ≡ temporaries (expr_of e.now) h) × (h < r) × (r ≤ most_variables)) }
{
    match e {
        Expr::Constant { .. } => one(h),
        Expr::Null { .. } => one(h),
        Expr::Str { .. } => one(h),
        Expr::Local { .. } => one(h),
        Expr::Read { place, .. } => Some(self::place(place, h)?.most),
        Expr::Address { .. } => one(h),
        Expr::Step {
            pointer,
            number,
            ..
        } => {
            let most = expression(pointer, h)?;
            Some(most.max(expression(number, h + 1)?))
        }
        Expr::StepFrom {
            number,
            pointer,
            ..
        } => {
            let most = expression(number, h)?;
            Some(most.max(expression(pointer, h + 1)?))
        }
        Expr::Unary { operand, .. } => expression(operand, h),
        Expr::Binary { left, right, .. } => {
            let most = expression(left, h)?;
            Some(most.max(expression(right, h + 1)?))
        }
        Expr::Convert { operand, .. } => expression(operand, h),
        Expr::Not { operand, .. } => expression(operand, h),
        Expr::And { left, right, .. } => {
            let most = expression(left, h)?;
            Some(most.max(expression(right, h)?))
        }
        Expr::Or { left, right, .. } => {
            let most = expression(left, h)?;
            Some(most.max(expression(right, h)?))
        }
        Expr::Choose { test, yes, no, .. } => {
            let most = expression(test, h)?;
            let of_yes = expression(yes, h)?;
            let of_no = expression(no, h)?;
            Some(most.max(of_yes.max(of_no)))
        }
        Expr::IsNull { operand, .. } => expression(operand, h),
        Expr::Same { left, right, .. } => {
            let most = expression(left, h)?;
            Some(most.max(expression(right, h + 1)?))
        }
        Expr::Call { arguments, .. } => {
            let own = one(h)?;
            Some(own.max(self::arguments(arguments, h)?))
        }
        Expr::NewRegion { .. } => one(h),
        Expr::NewSubregion { parent, .. } => expression(parent, h),
        Expr::RegionOf { pointer, .. } => expression(pointer, h),
        Expr::Allocate { region, .. } => expression(region, h),
        Expr::AllocateArray { region, number, .. } => {
            let most = expression(region, h)?;
            Some(most.max(expression(number, h + 1)?))
        }
        Expr::Putchar { byte, .. } => expression(byte, h),
        Expr::Getchar { .. } => one(h),
    }
}

#[cycle(temporaries)]
#[tactic(auto, using(crate::proofs::Greatest::arguments_step, crate::proofs::Greatest::arguments_end))]
fn arguments(arguments: &[Expr], h: u32) -> Option<u32>
    requires { h ≤ most_variables }
    ensures { MatchOption result (most_variables < arguments_temporaries (arguments_of arguments.now) h) (λ r. (r ≡ arguments_temporaries (arguments_of arguments.now) h) × (r ≤ most_variables)) }
{
    let mut most = 0;
    let mut next = h;
    for argument in arguments {
        most = most.max(expression(argument, next)?);
        next += 1;
    }
    Some(most)
}

/// What a place takes: the temporary behind its own, and one more than the greatest that it uses.
#[derive(Clone, Copy)]
pub(crate) struct Taken {
    pub(crate) next: u32,
    pub(crate) most: u32,
}

#[cycle(temporaries)]
#[tactic(auto, using(rc_core::proofs::ShapeRows::global_is, rc_core::proofs::ShapeRows::pointed_is, rc_core::proofs::ShapeRows::indexed_is))]
pub(crate) fn place(place: &Place, h: u32) -> Option<Taken>
    ensures most { MatchOption result (most_variables < place_temporaries (place_of place.now) h) (λ r. (r.most ≡ place_temporaries (place_of place.now) h) × (h < r.most) × (r.most ≤ most_variables)) }
    ensures next { IfSome result (λ r. (r.next ≡ place_next (place_of place.now) h) × (r.next ≤ r.most)) }
{
    match place {
        Place::Global { path, .. } => {
            let own = one(h)?;
            let inward = self::path(path, h + 1)?;
            Some(Taken {
                next: inward.next,
                most: own.max(inward.most),
            })
        }
        Place::Pointed { pointer, path } => {
            let own = expression(pointer, h)?;
            let inward = self::path(path, h + 1)?;
            Some(Taken {
                next: inward.next,
                most: own.max(inward.most),
            })
        }
        Place::Indexed {
            pointer,
            index,
            path,
        } => {
            let own = expression(pointer, h)?;
            let of_index = expression(index, h + 1)?;
            let inward = self::path(path, h + 2)?;
            Some(Taken {
                next: inward.next,
                most: own.max(of_index.max(inward.most)),
            })
        }
    }
}

#[cycle(temporaries)]
#[tactic(auto, using(crate::proofs::Greatest::path_step, crate::proofs::Greatest::path_end, crate::proofs::Greatest::next_step, crate::proofs::Greatest::next_end))]
fn path(path: &[PathStep], h: u32) -> Option<Taken>
    requires { h ≤ most_variables }
    ensures most { MatchOption result (most_variables < path_temporaries (path_of path.now) h) (λ r. (r.most ≡ path_temporaries (path_of path.now) h) × (r.most ≤ most_variables)) }
    ensures next { IfSome result (λ r. (r.next ≡ path_next (path_of path.now) h) × ((r.next ≡ h) ⊎ (r.next ≤ r.most)) × (r.next ≤ most_variables)) }
{
    let mut most = 0;
    let mut next = h;
    for step in path {
        if let PathStep::Element { index, .. } = step {
            most = most.max(expression(index, next)?);
            next += 1;
        }
    }
    Some(Taken { next, most })
}
