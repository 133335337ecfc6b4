// Which locals are live: computed for one local, from the outside in.
ghost use Rattle.std.specs.Prelude.{◌≡◌, ℕ, option_map};
ghost use Rattle.rc_core.specs.Shapes.{expr_of, place_of, path_of, arguments_of, stmt_of, stmts_of};
ghost use Rattle.rc_core.specs.Live.{Ways as WaysOut, at_end, then_live, round, uses, arguments_use, place_uses, path_uses, optional_uses, before, before_all, while_head, while_body, repeat_head, repeat_body, for_head, for_third, for_body, unless_set, either};
ghost use Rattle.rc_frames.specs.LiveAt.{Agrees};
ghost use Rattle.rc_frames.specs.LiveBehind.{value_ways, test_ways, body_ways, head_ways, one_ways, frame_ways, frames_ways};

use crate::frames::{Frame, Stage};
use rc_core::expr::{Expr, PathStep, Place};
use rc_core::stmt::Stmt;

/// Whether a local is live where a statement ends, and where a break and a continue in it lead.
#[derive(Clone, Copy)]
pub(crate) struct Ways {
    pub(crate) next: bool,
    pub(crate) broken: bool,
    pub(crate) continued: bool,
}

/// No local is live where a body ends.
pub(crate) fn at_end() -> Ways
    ensures { (x : ℕ) → Agrees result x at_end }
{
    Ways {
        next: false,
        broken: false,
        continued: false,
    }
}

fn then_live(next: bool, k: Ways) -> Ways
    ensures next { result.next ≡ next }
    ensures broken { result.broken ≡ k.broken }
    ensures continued { result.continued ≡ k.continued }
{
    Ways {
        next,
        broken: k.broken,
        continued: k.continued,
    }
}

/// In the body of a loop that goes on as said.
fn round(again: bool, k: Ways) -> Ways
    ensures next { result.next ≡ again }
    ensures broken { result.broken ≡ k.next }
    ensures continued { result.continued ≡ again }
{
    Ways {
        next: again,
        broken: k.next,
        continued: again,
    }
}

/// Whether the expression reads the local.
#[cycle(uses)]
#[tactic(auto, using(rc_core::proofs::ShapeRows::call_is))]
pub(crate) fn uses(e: &Expr, x: u32) -> bool
    ensures { result ≡ uses (expr_of e.now) x }
{
    match e {
        Expr::Constant { .. } => false,
        Expr::Null { .. } => false,
        Expr::Str { .. } => false,
        Expr::Local { local, .. } => *local == x,
        Expr::Read { place, .. } => place_uses(place, x),
        Expr::Address { .. } => false,
        Expr::Step {
            pointer,
            number,
            ..
        } => uses(pointer, x) || uses(number, x),
        Expr::StepFrom {
            number,
            pointer,
            ..
        } => uses(number, x) || uses(pointer, x),
        Expr::Unary { operand, .. } => uses(operand, x),
        Expr::Binary { left, right, .. } => uses(left, x) || uses(right, x),
        Expr::Convert { operand, .. } => uses(operand, x),
        Expr::Not { operand, .. } => uses(operand, x),
        Expr::And { left, right, .. } => uses(left, x) || uses(right, x),
        Expr::Or { left, right, .. } => uses(left, x) || uses(right, x),
        Expr::Choose { test, yes, no, .. } => uses(test, x) || uses(yes, x) || uses(no, x),
        Expr::IsNull { operand, .. } => uses(operand, x),
        Expr::Same { left, right, .. } => uses(left, x) || uses(right, x),
        Expr::Call { arguments, .. } => any_uses(arguments, x),
        Expr::NewRegion { .. } => false,
        Expr::NewSubregion { parent, .. } => uses(parent, x),
        Expr::RegionOf { pointer, .. } => uses(pointer, x),
        Expr::Allocate { region, .. } => uses(region, x),
        Expr::AllocateArray { region, number, .. } => uses(region, x) || uses(number, x),
        Expr::Putchar { byte, .. } => uses(byte, x),
        Expr::Getchar { .. } => false,
    }
}

#[cycle(uses)]
#[tactic(auto, using(crate::proofs::LiveParts::arguments_step, crate::proofs::LiveParts::arguments_end))]
fn any_uses(all: &[Expr], x: u32) -> bool
    ensures { result ≡ arguments_use (arguments_of all.now) x }
{
    for e in all {
        if uses(e, x) {
            return true;
        }
    }
    false
}

#[cycle(uses)]
#[tactic(auto, using(rc_core::proofs::ShapeRows::global_is, rc_core::proofs::ShapeRows::pointed_is, rc_core::proofs::ShapeRows::indexed_is))]
pub(crate) fn place_uses(place: &Place, x: u32) -> bool
    ensures { result ≡ place_uses (place_of place.now) x }
{
    match place {
        Place::Global { path, .. } => path_uses(path, x),
        Place::Pointed { pointer, path } => uses(pointer, x) || path_uses(path, x),
        Place::Indexed {
            pointer,
            index,
            path,
        } => uses(pointer, x) || uses(index, x) || path_uses(path, x),
    }
}

#[cycle(uses)]
#[tactic(auto, using(crate::proofs::LiveParts::path_step, crate::proofs::LiveParts::path_end))]
fn path_uses(path: &[PathStep], x: u32) -> bool
    ensures { result ≡ path_uses (path_of path.now) x }
{
    for step in path {
        if let PathStep::Element { index, .. } = step {
            if uses(index, x) {
                return true;
            }
        }
    }
    false
}

pub(crate) fn optional_uses(e: &Option<Expr>, x: u32) -> bool
    ensures { result ≡ optional_uses (option_map expr_of e.now) x }
{
    match e {
        None => false,
        Some(e) => uses(e, x),
    }
}

/// Whether the local is live before the statement.
#[cycle(before)]
#[tactic(auto, using(rc_core::proofs::ShapeRows::block_is))]
pub(crate) fn before(s: &Stmt, k: Ways, x: u32) -> bool
    ensures { (k2 : WaysOut) → Agrees k x k2 → result ≡ before (stmt_of s.now) k2 x }
{
    match s {
        Stmt::Block { body } => before_all(body, k, x),
        Stmt::Declare { local, value, .. } => optional_uses(value, x) || (*local != x && k.next),
        Stmt::Assign { local, value, .. } => uses(value, x) || (*local != x && k.next),
        Stmt::Store { place, value, .. } => place_uses(place, x) || uses(value, x) || k.next,
        Stmt::Update { place, value, .. } => place_uses(place, x) || uses(value, x) || k.next,
        Stmt::Copy { left, right, .. } => place_uses(left, x) || place_uses(right, x) || k.next,
        Stmt::Evaluate { value, .. } => uses(value, x) || k.next,
        Stmt::Delete { region, .. } => uses(region, x) || k.next,
        Stmt::If { test, yes, no, .. } => uses(test, x) || before(yes, k, x) || before(no, k, x),
        Stmt::While { test, body, .. } => {
            uses(test, x) || k.next || before(body, round(false, k), x)
        }
        Stmt::Do { body, test, .. } => before(body, round(uses(test, x) || k.next, k), x),
        Stmt::For {
            first,
            test,
            third,
            body,
            ..
        } => {
            let around = before(third, then_live(false, k), x);
            let head = optional_uses(test, x)
                || (test.is_some() && k.next)
                || before(body, round(around, k), x);
            before(first, then_live(head, k), x)
        }
        Stmt::Break { .. } => k.broken,
        Stmt::Continue { .. } => k.continued,
        Stmt::Return { value, .. } => optional_uses(value, x),
    }
}

#[cycle(before)]
#[tactic(auto, using(crate::proofs::LiveParts::body_step, crate::proofs::LiveParts::body_end))]
pub(crate) fn before_all(body: &[Stmt], k: Ways, x: u32) -> bool
    ensures { (k2 : WaysOut) → Agrees k x k2 → result ≡ before_all (stmts_of body.now) k2 x }
{
    let mut next = k.next;
    let mut left = body.len();
    while left > 0 {
        left -= 1;
        next = before(&body[left], then_live(next, k), x);
    }
    next
}

fn while_head(test: &Expr, body: &Stmt, k: Ways, x: u32) -> bool
    ensures { (k2 : WaysOut) → Agrees k x k2 → result ≡ while_head (expr_of test.now) (stmt_of body.now) k2 x }
{
    uses(test, x) || k.next || before(body, round(false, k), x)
}

fn while_inside(test: &Expr, body: &Stmt, k: Ways, x: u32) -> Ways
    ensures { (k2 : WaysOut) → Agrees k x k2 → Agrees result x (while_body (expr_of test.now) (stmt_of body.now) k2) }
{
    round(while_head(test, body, k, x), k)
}

fn repeat_head(body: &Stmt, test: &Expr, k: Ways, x: u32) -> bool
    ensures { (k2 : WaysOut) → Agrees k x k2 → result ≡ repeat_head (stmt_of body.now) (expr_of test.now) k2 x }
{
    before(body, round(uses(test, x) || k.next, k), x)
}

fn repeat_inside(body: &Stmt, test: &Expr, k: Ways, x: u32) -> Ways
    ensures { (k2 : WaysOut) → Agrees k x k2 → Agrees result x (repeat_body (stmt_of body.now) (expr_of test.now) k2) }
{
    let head = repeat_head(body, test, k, x);
    round(uses(test, x) || k.next || head, k)
}

fn for_head(test: &Option<Expr>, third: &Stmt, body: &Stmt, k: Ways, x: u32) -> bool
    ensures { (k2 : WaysOut) → Agrees k x k2 → result ≡ for_head (option_map expr_of test.now) (stmt_of third.now) (stmt_of body.now) k2 x }
{
    let around = before(third, then_live(false, k), x);
    optional_uses(test, x) || (test.is_some() && k.next) || before(body, round(around, k), x)
}

fn for_third(test: &Option<Expr>, third: &Stmt, body: &Stmt, k: Ways, x: u32) -> Ways
    ensures { (k2 : WaysOut) → Agrees k x k2 → Agrees result x (for_third (option_map expr_of test.now) (stmt_of third.now) (stmt_of body.now) k2) }
{
    then_live(for_head(test, third, body, k, x), k)
}

fn for_inside(test: &Option<Expr>, third: &Stmt, body: &Stmt, k: Ways, x: u32) -> Ways
    ensures { (k2 : WaysOut) → Agrees k x k2 → Agrees result x (for_body (option_map expr_of test.now) (stmt_of third.now) (stmt_of body.now) k2) }
{
    let around = before(third, for_third(test, third, body, k, x), x);
    round(around, k)
}

fn unless_set(local: u32, x: u32, live: bool) -> bool
    ensures { result ≡ unless_set local x live }
{
    local != x && live
}

/// After a value for which a statement waits.
fn after_value(s: &Stmt, k: Ways, x: u32) -> Ways
    ensures { (k2 : WaysOut) → Agrees k x k2 → Agrees result x (value_ways (stmt_of s.now) k2) }
{
    match s {
        Stmt::Declare { local, .. } => then_live(unless_set(*local, x, k.next), k),
        Stmt::Assign { local, .. } => then_live(unless_set(*local, x, k.next), k),
        Stmt::Return { .. } => then_live(false, k),
        Stmt::If { yes, no, .. } => then_live(before(yes, k, x) || before(no, k, x), k),
        _ => k,
    }
}

/// After a condition that leads into the body of its loop, with these ways out, or out of the loop.
fn after_condition(body: &Stmt, inside: Ways, k: Ways, x: u32) -> Ways
    ensures { (k2 inside2 : WaysOut) → Agrees k x k2 → Agrees inside x inside2 → Agrees result x (then_live (either k2.next (before (stmt_of body.now) inside2)) k2) }
{
    then_live(k.next || before(body, inside, x), k)
}

/// After the condition of a loop.
fn after_test(s: &Stmt, k: Ways, x: u32) -> Ways
    ensures { (k2 : WaysOut) → Agrees k x k2 → Agrees result x (test_ways (stmt_of s.now) k2) }
{
    match s {
        Stmt::While { test, body, .. } => {
            after_condition(body, while_inside(test, body, k, x), k, x)
        }
        Stmt::Do { body, test, .. } => { then_live(k.next || repeat_head(body, test, k, x), k) }
        Stmt::For {
            test,
            third,
            body,
            ..
        } => { after_condition(body, for_inside(test, third, body, k, x), k, x) }
        _ => k,
    }
}

/// After the body of a loop.
fn after_body(s: &Stmt, k: Ways, x: u32) -> Ways
    ensures { (k2 : WaysOut) → Agrees k x k2 → Agrees result x (body_ways (stmt_of s.now) k2) }
{
    match s {
        Stmt::While { test, body, .. } => while_inside(test, body, k, x),
        Stmt::Do { body, test, .. } => repeat_inside(body, test, k, x),
        Stmt::For {
            test,
            third,
            body,
            ..
        } => for_inside(test, third, body, k, x),
        _ => k,
    }
}

/// After the first or the third part of the head of a `for`.
fn after_part(s: &Stmt, k: Ways, x: u32) -> Ways
    ensures { (k2 : WaysOut) → Agrees k x k2 → Agrees result x (head_ways (stmt_of s.now) k2) }
{
    match s {
        Stmt::For {
            test,
            third,
            body,
            ..
        } => for_third(test, third, body, k, x),
        _ => k,
    }
}

/// After a statement of a block.
fn after_one(s: &Stmt, begun: u64, k: Ways, x: u32) -> Ways
    ensures { (k2 : WaysOut) → Agrees k x k2 → Agrees result x (one_ways begun (stmt_of s.now) k2) }
{
    match s {
        Stmt::Block { body } => match body.get(begun as usize..) {
            None => k,
            Some(rest) => then_live(before_all(rest, k, x), k),
        },
        _ => k,
    }
}

/// Whether the local is live where what a frame waits for comes out, from whether it is after the
/// frame.
fn through(frame: &Frame, k: Ways, x: u32) -> Ways
    ensures { (k2 : WaysOut) → Agrees k x k2 → Agrees result x (frame_ways frame.now k2) }
{
    match frame {
        Frame::Inside(s, stage) => match stage {
            Stage::Value => after_value(s, k, x),
            Stage::Within(begun) => after_one(s, *begun, k, x),
            Stage::Test(_) => after_test(s, k, x),
            Stage::Body(_) => after_body(s, k, x),
            Stage::First => after_part(s, k, x),
            Stage::Third(_) => after_part(s, k, x),
            _ => k,
        },
        _ => k,
    }
}

/// Whether the local is live where what the topmost frame waits for comes out.
#[tactic(auto, using(crate::proofs::LiveFrames::frames_step))]
pub(crate) fn is_live(frames: &[Frame], x: u32) -> bool
    ensures { result ≡ (frames_ways frames.now at_end).next x }
{
    let mut k = at_end();
    for frame in frames {
        k = through(frame, k, x);
    }
    k.next
}
