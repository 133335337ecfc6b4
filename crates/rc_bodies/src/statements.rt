// Statements. The parts of each node are typed in a function of its own, which stays one, so that
// the walk needs little stack for a level.
ghost use Rattle.std.specs.Prelude.{◌≡◌, IfOk, IfErr, OnOk};
ghost use Rattle.rc_core.specs.Programs as p;
ghost use Rattle.rc_core.specs.Shapes.{stmt_of, stmts_of};
ghost use Rattle.rc_deletes.specs.Judged.{Holds, with_part};
ghost use Rattle.rc_deletes.specs.Statements as rule;
ghost use Rattle.rc_typed_values.specs.Stops.{StopsAt};
ghost use Rattle.rc_syntax.specs.Shape as written;
ghost use Rattle.rc_syntax.specs.Tree as t;
ghost use Rattle.rc_bodies.specs.Enclosing.{context_at, gives_at};
ghost use Rattle.rc_bodies.specs.Here.{here_of};

use crate::enclosing::Enclosing;
use crate::here::Here;
use crate::locals::{for_start, local};
use crate::nodes::{add_step, block, branch, do_loop, empty_block, for_loop, while_loop};
use crate::own::{own_condition, own_condition_option, own_simple, own_simple_option, own_value};
use rc_core::stmt::Stmt as Step;
use rc_deletes::Refusal;
use rc_item_rules::{fitting, returned};
use rc_syntax::tree::{Expr, ForStart, Simple, Spot, Stmt};
use rc_typed_values::{Stop, boxed, fails};
use std::alloc::Global;

/// `break`, which stands in loops alone.
fn type_break(alloc: Global, looping: bool, at: Spot) -> Result<Box<Step>, Stop>
    ensures ok { IfOk result (λ s. rule.in_a_loop looping at (p.break at.line) ≡ Holds (stmt_of s.value)) }
    ensures err { IfErr result (StopsAt (rule.in_a_loop looping at (p.break at.line))) }
{
    if !looping {
        return fails(at, Refusal::Mistyped);
    }
    boxed(alloc, Step::Break { line: at.line })
}

/// `continue`, which stands in loops alone.
fn type_continue(alloc: Global, looping: bool, at: Spot) -> Result<Box<Step>, Stop>
    ensures ok { IfOk result (λ s. rule.in_a_loop looping at (p.continue at.line) ≡ Holds (stmt_of s.value)) }
    ensures err { IfErr result (StopsAt (rule.in_a_loop looping at (p.continue at.line))) }
{
    if !looping {
        return fails(at, Refusal::Mistyped);
    }
    boxed(alloc, Step::Continue { line: at.line })
}

/// `return`, with a value or without.
#[inline(never)]
#[tactic(auto, using(rc_defined::proofs::Stops::part_stops, rc_defined::proofs::Stops::part_ruled, rc_defined::proofs::Stops::part_held))]
fn type_return(
    at: Spot,
    e: &Option<Expr>,
    enclosing: &Enclosing<'_>,
    here: &mut Here,
) -> Result<Box<Step>, Stop>
    ensures ok { IfOk result (λ s. rule.stmt (context_at enclosing.now) (gives_at enclosing.now) enclosing.now.looping (here_of here.old) (t.return_with at (written.mapped written.expr_of e.now)) ≡ Holds (stmt_of s.value)) }
    ensures behind { OnOk result (here_of here.new ≡ rule.behind_option (here_of here.old) (written.mapped written.expr_of e.now)) }
    ensures err { IfErr result (StopsAt (rule.stmt (context_at enclosing.now) (gives_at enclosing.now) enclosing.now.looping (here_of here.old) (t.return_with at (written.mapped written.expr_of e.now)))) }
{
    let v = own_value(e, enclosing.alloc, enclosing.context, here)?;
    let step = returned(enclosing.alloc, at.line, enclosing.gives, v)?;
    fitting(at, step)
}

/// A block, whose names hold to its end.
#[inline(never)]
#[cycle(statements)]
fn type_block(body: &[Stmt], enclosing: &Enclosing<'_>, here: &mut Here) -> Result<Box<Step>, Stop>
    ensures ok { IfOk result (λ s. with_part (rule.stmts (context_at enclosing.now) (gives_at enclosing.now) enclosing.now.looping (rule.inside (here_of here.old)) (written.stmts_of body.now)) (λ b. Holds (p.block b)) ≡ Holds (stmt_of s.value)) }
    ensures behind { OnOk result (here_of here.new ≡ rule.outside (here_of here.old) (rule.behind_stmts (context_at enclosing.now) (rule.inside (here_of here.old)) (written.stmts_of body.now))) }
    ensures err { IfErr result (StopsAt (with_part (rule.stmts (context_at enclosing.now) (gives_at enclosing.now) enclosing.now.looping (rule.inside (here_of here.old)) (written.stmts_of body.now)) (λ b. Holds (p.block b)))) }
{
    let outer = here.outer();
    here.enter()?;
    let steps = stmts(body, enclosing, here)?;
    here.leave(outer);
    block(enclosing.alloc, steps)
}

/// `if` without `else`.
#[inline(never)]
#[cycle(statements)]
#[tactic(auto, using(rc_defined::proofs::Stops::left_stops, rc_defined::proofs::Stops::right_stops, rc_defined::proofs::Stops::both_ruled))]
fn type_if(
    at: Spot,
    c: &Expr,
    a: &Stmt,
    enclosing: &Enclosing<'_>,
    here: &mut Here,
) -> Result<Box<Step>, Stop>
    ensures ok { IfOk result (λ s. rule.stmt (context_at enclosing.now) (gives_at enclosing.now) enclosing.now.looping (here_of here.old) (t.if_then at (written.expr_of c.now) (written.stmt_of a.now)) ≡ Holds (stmt_of s.value)) }
    ensures behind { OnOk result (here_of here.new ≡ rule.behind_stmt (context_at enclosing.now) (here_of here.old) (t.if_then at (written.expr_of c.now) (written.stmt_of a.now))) }
    ensures err { IfErr result (StopsAt (rule.stmt (context_at enclosing.now) (gives_at enclosing.now) enclosing.now.looping (here_of here.old) (t.if_then at (written.expr_of c.now) (written.stmt_of a.now)))) }
{
    let test = own_condition(c, enclosing.alloc, enclosing.context, here)?;
    let yes = stmt(a, enclosing, here)?;
    let no = empty_block(enclosing.alloc)?;
    branch(enclosing.alloc, at.line, test, yes, no)
}

/// `if` with `else`.
#[inline(never)]
#[cycle(statements)]
#[tactic(auto, using(rc_defined::proofs::Stops::left_stops, rc_defined::proofs::Stops::second_stops, rc_defined::proofs::Stops::third_stops, rc_defined::proofs::Stops::all_ruled))]
fn type_if_else(
    at: Spot,
    c: &Expr,
    a: &Stmt,
    b: &Stmt,
    enclosing: &Enclosing<'_>,
    here: &mut Here,
) -> Result<Box<Step>, Stop>
    ensures ok { IfOk result (λ s. rule.stmt (context_at enclosing.now) (gives_at enclosing.now) enclosing.now.looping (here_of here.old) (t.if_else at (written.expr_of c.now) (written.stmt_of a.now) (written.stmt_of b.now)) ≡ Holds (stmt_of s.value)) }
    ensures behind { OnOk result (here_of here.new ≡ rule.behind_stmt (context_at enclosing.now) (here_of here.old) (t.if_else at (written.expr_of c.now) (written.stmt_of a.now) (written.stmt_of b.now))) }
    ensures err { IfErr result (StopsAt (rule.stmt (context_at enclosing.now) (gives_at enclosing.now) enclosing.now.looping (here_of here.old) (t.if_else at (written.expr_of c.now) (written.stmt_of a.now) (written.stmt_of b.now)))) }
{
    let test = own_condition(c, enclosing.alloc, enclosing.context, here)?;
    let yes = stmt(a, enclosing, here)?;
    let no = stmt(b, enclosing, here)?;
    branch(enclosing.alloc, at.line, test, yes, no)
}

/// `while`.
#[inline(never)]
#[cycle(statements)]
#[tactic(auto, using(rc_defined::proofs::Stops::left_stops, rc_defined::proofs::Stops::right_stops, rc_defined::proofs::Stops::both_ruled))]
fn type_while(
    at: Spot,
    c: &Expr,
    a: &Stmt,
    enclosing: &Enclosing<'_>,
    here: &mut Here,
) -> Result<Box<Step>, Stop>
    ensures ok { IfOk result (λ s. rule.stmt (context_at enclosing.now) (gives_at enclosing.now) enclosing.now.looping (here_of here.old) (t.while_do at (written.expr_of c.now) (written.stmt_of a.now)) ≡ Holds (stmt_of s.value)) }
    ensures behind { OnOk result (here_of here.new ≡ rule.behind_stmt (context_at enclosing.now) (here_of here.old) (t.while_do at (written.expr_of c.now) (written.stmt_of a.now))) }
    ensures err { IfErr result (StopsAt (rule.stmt (context_at enclosing.now) (gives_at enclosing.now) enclosing.now.looping (here_of here.old) (t.while_do at (written.expr_of c.now) (written.stmt_of a.now)))) }
{
    let test = own_condition(c, enclosing.alloc, enclosing.context, here)?;
    let body = stmt(a, &enclosing.in_loop(), here)?;
    while_loop(enclosing.alloc, at.line, test, body)
}

/// `do`.
#[inline(never)]
#[cycle(statements)]
#[tactic(auto, using(rc_defined::proofs::Stops::left_stops, rc_defined::proofs::Stops::right_stops, rc_defined::proofs::Stops::both_ruled))]
fn type_do(
    at: Spot,
    a: &Stmt,
    c: &Expr,
    enclosing: &Enclosing<'_>,
    here: &mut Here,
) -> Result<Box<Step>, Stop>
    ensures ok { IfOk result (λ s. rule.stmt (context_at enclosing.now) (gives_at enclosing.now) enclosing.now.looping (here_of here.old) (t.do_while at (written.stmt_of a.now) (written.expr_of c.now)) ≡ Holds (stmt_of s.value)) }
    ensures behind { OnOk result (here_of here.new ≡ rule.behind_stmt (context_at enclosing.now) (here_of here.old) (t.do_while at (written.stmt_of a.now) (written.expr_of c.now))) }
    ensures err { IfErr result (StopsAt (rule.stmt (context_at enclosing.now) (gives_at enclosing.now) enclosing.now.looping (here_of here.old) (t.do_while at (written.stmt_of a.now) (written.expr_of c.now)))) }
{
    let body = stmt(a, &enclosing.in_loop(), here)?;
    let test = own_condition(c, enclosing.alloc, enclosing.context, here)?;
    do_loop(enclosing.alloc, at.line, body, test)
}

/// `for`, whose locals hold to its end.
#[inline(never)]
#[cycle(statements)]
#[tactic(auto, using(rc_defined::proofs::Stops::left_stops, rc_defined::proofs::Stops::right_stops, rc_defined::proofs::Stops::both_ruled))]
fn type_for(
    at: Spot,
    start: &ForStart,
    c: &Option<Expr>,
    next: &Option<Simple>,
    a: &Stmt,
    enclosing: &Enclosing<'_>,
    here: &mut Here,
) -> Result<Box<Step>, Stop>
    ensures ok { IfOk result (λ s. rule.stmt (context_at enclosing.now) (gives_at enclosing.now) enclosing.now.looping (here_of here.old) (t.for_do at (written.start_of start.now) (written.mapped written.expr_of c.now) (written.mapped written.simple_of next.now) (written.stmt_of a.now)) ≡ Holds (stmt_of s.value)) }
    ensures behind { OnOk result (here_of here.new ≡ rule.behind_stmt (context_at enclosing.now) (here_of here.old) (t.for_do at (written.start_of start.now) (written.mapped written.expr_of c.now) (written.mapped written.simple_of next.now) (written.stmt_of a.now))) }
    ensures err { IfErr result (StopsAt (rule.stmt (context_at enclosing.now) (gives_at enclosing.now) enclosing.now.looping (here_of here.old) (t.for_do at (written.start_of start.now) (written.mapped written.expr_of c.now) (written.mapped written.simple_of next.now) (written.stmt_of a.now)))) }
{
    let outer = here.outer();
    here.enter()?;
    let begin = for_start(start, enclosing.alloc, enclosing.context, here)?;
    let test = own_condition_option(c, enclosing.alloc, enclosing.context, here)?;
    let third = own_simple_option(next, enclosing.alloc, enclosing.context, here)?;
    let body = stmt(a, &enclosing.in_loop(), here)?;
    here.leave(outer);
    for_loop(enclosing.alloc, at.line, begin, test, third, body)
}

/// A statement. Its names, locals and strings are put after those before it.
#[cycle(statements)]
pub(crate) fn stmt(s: &Stmt, enclosing: &Enclosing<'_>, here: &mut Here) -> Result<Box<Step>, Stop>
    ensures ok { IfOk result (λ r. rule.stmt (context_at enclosing.now) (gives_at enclosing.now) enclosing.now.looping (here_of here.old) (written.stmt_of s.now) ≡ Holds (stmt_of r.value)) }
    ensures behind { OnOk result (here_of here.new ≡ rule.behind_stmt (context_at enclosing.now) (here_of here.old) (written.stmt_of s.now)) }
    ensures err { IfErr result (StopsAt (rule.stmt (context_at enclosing.now) (gives_at enclosing.now) enclosing.now.looping (here_of here.old) (written.stmt_of s.now))) }
{
    let alloc = enclosing.alloc;
    match s {
        Stmt::Local(l) => local(l, alloc, enclosing.context, here),
        Stmt::Block(_, body) => type_block(body, enclosing, here),
        Stmt::Empty(_) => empty_block(alloc),
        Stmt::Simple(_, e) => own_simple(e, alloc, enclosing.context, here),
        Stmt::If(at, c, a, None) => type_if(*at, c, a, enclosing, here),
        Stmt::If(at, c, a, Some(b)) => type_if_else(*at, c, a, b, enclosing, here),
        Stmt::While(at, c, a) => type_while(*at, c, a, enclosing, here),
        Stmt::Do(at, a, c) => type_do(*at, a, c, enclosing, here),
        Stmt::For(at, start, c, next, a) => type_for(*at, start, c, next, a, enclosing, here),
        Stmt::Break(at) => type_break(alloc, enclosing.looping, *at),
        Stmt::Continue(at) => type_continue(alloc, enclosing.looping, *at),
        Stmt::Return(at, e) => type_return(*at, e, enclosing, here),
    }
}

/// Statements, in their order. Where they stand becomes where what follows them stands.
///
/// # Errors
///
/// Where a rule on names, types, arities and sizes fails, at the first such node. Or out of memory.
#[cycle(statements)]
#[tactic(auto, using(crate::proofs::Walks::after_steps_nil, crate::proofs::Walks::stmts_step, crate::proofs::Walks::stmts_end, crate::proofs::Walks::stmts_stop, crate::proofs::Walks::behind_step, crate::proofs::Walks::behind_end, rc_defined::proofs::Lists::map_push))]
pub fn stmts(body: &[Stmt], enclosing: &Enclosing<'_>, here: &mut Here) -> Result<Vec<Step>, Stop>
    ensures ok { IfOk result (λ steps. rule.stmts (context_at enclosing.now) (gives_at enclosing.now) enclosing.now.looping (here_of here.old) (written.stmts_of body.now) ≡ Holds (stmts_of steps.items)) }
    ensures behind { OnOk result (here_of here.new ≡ rule.behind_stmts (context_at enclosing.now) (here_of here.old) (written.stmts_of body.now)) }
    ensures err { IfErr result (StopsAt (rule.stmts (context_at enclosing.now) (gives_at enclosing.now) enclosing.now.looping (here_of here.old) (written.stmts_of body.now))) }
{
    let mut steps = Vec::new(enclosing.alloc);
    for s in body {
        let step = stmt(s, enclosing, here)?;
        add_step(&mut steps, step)?;
    }
    Ok(steps)
}
