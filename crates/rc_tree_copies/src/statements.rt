// Statements. The parts of each node are copied in a function of its own.
ghost use Rattle.std.specs.Prelude.{◌≡◌, IfOk};
ghost use Rattle.rc_syntax.specs.Shape as written;
ghost use Rattle.rc_syntax.specs.Tree as t;
ghost use Rattle.rc_linking.specs.Moved as place;
ghost use Rattle.rc_tree_copies.specs.Begins.{spot_of};

use crate::lists::{Part, copies};
use crate::nodes::{
    add_stmt, block_node, for_node, simple_node, start_node, stmt_node, unboxed_expr,
};
use rc_base::NoMemory;
use rc_expression_copies::{boxed, copy_name, copy_type, expression, expression_option, spot};
use rc_syntax::tree::{BinaryOp, Expr, ForStart, Local, Simple, Spot, StepOp, Stmt};
use std::alloc::Global;

fn copy_assign(
    at: Spot,
    left: &Expr,
    right: &Expr,
    alloc: Global,
    by: u32,
) -> Result<Box<Simple>, NoMemory>
    ensures { IfOk result (λ r. written.simple_of r.value ≡ place.moved_simple by (t.assign at (written.expr_of left.now) (written.expr_of right.now))) }
{
    let at = spot(at, by)?;
    let left = expression(left, alloc, by)?;
    let right = expression(right, alloc, by)?;
    simple_node(
        alloc,
        Simple::Assign(at, Box::into_inner(left), Box::into_inner(right)),
    )
}

fn copy_update(
    at: Spot,
    op: BinaryOp,
    left: &Expr,
    right: &Expr,
    alloc: Global,
    by: u32,
) -> Result<Box<Simple>, NoMemory>
    ensures { IfOk result (λ r. written.simple_of r.value ≡ place.moved_simple by (t.update at op (written.expr_of left.now) (written.expr_of right.now))) }
{
    let at = spot(at, by)?;
    let left = expression(left, alloc, by)?;
    let right = expression(right, alloc, by)?;
    simple_node(
        alloc,
        Simple::Update(at, op, Box::into_inner(left), Box::into_inner(right)),
    )
}

fn copy_step_after(
    at: Spot,
    op: StepOp,
    l: &Expr,
    alloc: Global,
    by: u32,
) -> Result<Box<Simple>, NoMemory>
    ensures { IfOk result (λ r. written.simple_of r.value ≡ place.moved_simple by (t.step_after at op (written.expr_of l.now))) }
{
    let at = spot(at, by)?;
    let l = expression(l, alloc, by)?;
    simple_node(alloc, Simple::StepAfter(at, op, Box::into_inner(l)))
}

fn copy_step_before(
    at: Spot,
    op: StepOp,
    l: &Expr,
    alloc: Global,
    by: u32,
) -> Result<Box<Simple>, NoMemory>
    ensures { IfOk result (λ r. written.simple_of r.value ≡ place.moved_simple by (t.step_before at op (written.expr_of l.now))) }
{
    let at = spot(at, by)?;
    let l = expression(l, alloc, by)?;
    simple_node(alloc, Simple::StepBefore(at, op, Box::into_inner(l)))
}

fn simple(s: &Simple, alloc: Global, by: u32) -> Result<Box<Simple>, NoMemory>
    ensures { IfOk result (λ r. written.simple_of r.value ≡ place.moved_simple by (written.simple_of s.now)) }
{
    match s {
        Simple::Expr(e) => {
            let e = expression(e, alloc, by)?;
            simple_node(alloc, Simple::Expr(Box::into_inner(e)))
        }
        Simple::Assign(at, l, r) => copy_assign(*at, l, r, alloc, by),
        Simple::Update(at, op, l, r) => copy_update(*at, *op, l, r, alloc, by),
        Simple::StepAfter(at, op, l) => copy_step_after(*at, *op, l, alloc, by),
        Simple::StepBefore(at, op, l) => copy_step_before(*at, *op, l, alloc, by),
    }
}

fn simple_option(
    s: &Option<Simple>,
    alloc: Global,
    by: u32,
) -> Result<Option<Box<Simple>>, NoMemory>
    ensures { IfOk result (λ r. written.mapped (λ b. written.simple_of b.value) r ≡ place.moved_simple_option by (written.mapped written.simple_of s.now)) }
{
    match s {
        Some(s) => {
            let s = simple(s, alloc, by)?;
            Ok(Some(s))
        }
        None => Ok(None),
    }
}

impl Part for Local {
    ghost Shape = { t.Local };

    ghost shape = { written.local_of };

    ghost moved = { place.moved_local };

    fn copied(&self, alloc: Global, by: u32) -> Result<Box<Local>, NoMemory> {
        let spot = spot(self.spot, by)?;
        let initial = expression_option(&self.initial, alloc, by)?;
        let name = copy_name(&self.name, by)?;
        let type_name = copy_type(alloc, &self.type_name, by)?;
        boxed(
            alloc,
            Local {
                spot,
                type_name,
                name,
                initial: unboxed_expr(initial),
            },
        )
    }
}

#[tactic(auto, using(crate::proofs::Copied::locals_are))]
fn start(s: &ForStart, alloc: Global, by: u32) -> Result<Box<ForStart>, NoMemory>
    ensures { IfOk result (λ r. written.start_of r.value ≡ place.moved_start by (written.start_of s.now)) }
{
    match s {
        ForStart::Nothing => start_node(alloc, ForStart::Nothing),
        ForStart::Simple(s) => {
            let s = simple(s, alloc, by)?;
            start_node(alloc, ForStart::Simple(Box::into_inner(s)))
        }
        ForStart::Locals(ls) => {
            let ls = copies(ls, alloc, by)?;
            start_node(alloc, ForStart::Locals(ls))
        }
    }
}

/// Where a statement begins.
fn spot_of(s: &Stmt) -> Spot
    ensures { result ≡ spot_of (written.stmt_of s.now) }
{
    match s {
        Stmt::Local(l) => l.spot,
        Stmt::Block(at, _) => *at,
        Stmt::Empty(at) => *at,
        Stmt::Simple(at, _) => *at,
        Stmt::If(at, _, _, None) => *at,
        Stmt::If(at, _, _, Some(_)) => *at,
        Stmt::While(at, _, _) => *at,
        Stmt::Do(at, _, _) => *at,
        Stmt::For(at, _, _, _, _) => *at,
        Stmt::Break(at) => *at,
        Stmt::Continue(at) => *at,
        Stmt::Return(at, _) => *at,
    }
}

fn copy_local(l: &Local, alloc: Global, by: u32) -> Result<Box<Stmt>, NoMemory>
    ensures { IfOk result (λ r. written.stmt_of r.value ≡ place.moved_stmt by (t.local (written.local_of l.now))) }
{
    let l = l.copied(alloc, by)?;
    stmt_node(alloc, Stmt::Local(Box::into_inner(l)))
}

fn copy_simple(at: Spot, s: &Simple, alloc: Global, by: u32) -> Result<Box<Stmt>, NoMemory>
    ensures { IfOk result (λ r. written.stmt_of r.value ≡ t.simple at (place.moved_simple by (written.simple_of s.now))) }
{
    let s = simple(s, alloc, by)?;
    stmt_node(alloc, Stmt::Simple(at, Box::into_inner(s)))
}

fn copy_return(at: Spot, e: &Option<Expr>, alloc: Global, by: u32) -> Result<Box<Stmt>, NoMemory>
    ensures { IfOk result (λ r. written.stmt_of r.value ≡ t.return_with at (place.moved_option by (written.mapped written.expr_of e.now))) }
{
    let e = expression_option(e, alloc, by)?;
    stmt_node(alloc, Stmt::Return(at, unboxed_expr(e)))
}

#[cycle(statements)]
fn copy_block(at: Spot, body: &[Stmt], alloc: Global, by: u32) -> Result<Box<Stmt>, NoMemory>
    ensures { IfOk result (λ r. written.stmt_of r.value ≡ t.block at (place.moved_stmts by (written.stmts_of body.now))) }
{
    let body = statements(body, alloc, by)?;
    block_node(alloc, at, body)
}

#[cycle(statements)]
fn copy_if(at: Spot, c: &Expr, a: &Stmt, alloc: Global, by: u32) -> Result<Box<Stmt>, NoMemory>
    ensures { IfOk result (λ r. written.stmt_of r.value ≡ t.if_then at (place.moved by (written.expr_of c.now)) (place.moved_stmt by (written.stmt_of a.now))) }
{
    let c = expression(c, alloc, by)?;
    let a = statement(a, alloc, by)?;
    stmt_node(alloc, Stmt::If(at, Box::into_inner(c), a, None))
}

#[cycle(statements)]
fn copy_if_else(
    at: Spot,
    c: &Expr,
    a: &Stmt,
    b: &Stmt,
    alloc: Global,
    by: u32,
) -> Result<Box<Stmt>, NoMemory>
    ensures { IfOk result (λ r. written.stmt_of r.value ≡ t.if_else at (place.moved by (written.expr_of c.now)) (place.moved_stmt by (written.stmt_of a.now)) (place.moved_stmt by (written.stmt_of b.now))) }
{
    let c = expression(c, alloc, by)?;
    let a = statement(a, alloc, by)?;
    let b = statement(b, alloc, by)?;
    stmt_node(alloc, Stmt::If(at, Box::into_inner(c), a, Some(b)))
}

#[cycle(statements)]
fn copy_while(at: Spot, c: &Expr, a: &Stmt, alloc: Global, by: u32) -> Result<Box<Stmt>, NoMemory>
    ensures { IfOk result (λ r. written.stmt_of r.value ≡ t.while_do at (place.moved by (written.expr_of c.now)) (place.moved_stmt by (written.stmt_of a.now))) }
{
    let c = expression(c, alloc, by)?;
    let a = statement(a, alloc, by)?;
    stmt_node(alloc, Stmt::While(at, Box::into_inner(c), a))
}

#[cycle(statements)]
fn copy_do(at: Spot, a: &Stmt, c: &Expr, alloc: Global, by: u32) -> Result<Box<Stmt>, NoMemory>
    ensures { IfOk result (λ r. written.stmt_of r.value ≡ t.do_while at (place.moved_stmt by (written.stmt_of a.now)) (place.moved by (written.expr_of c.now))) }
{
    let c = expression(c, alloc, by)?;
    let a = statement(a, alloc, by)?;
    stmt_node(alloc, Stmt::Do(at, a, Box::into_inner(c)))
}

#[cycle(statements)]
fn copy_for(
    at: Spot,
    s: &ForStart,
    c: &Option<Expr>,
    next: &Option<Simple>,
    a: &Stmt,
    alloc: Global,
    by: u32,
) -> Result<Box<Stmt>, NoMemory>
    ensures { IfOk result (λ r. written.stmt_of r.value ≡ t.for_do at (place.moved_start by (written.start_of s.now)) (place.moved_option by (written.mapped written.expr_of c.now)) (place.moved_simple_option by (written.mapped written.simple_of next.now)) (place.moved_stmt by (written.stmt_of a.now))) }
{
    let s = start(s, alloc, by)?;
    let c = expression_option(c, alloc, by)?;
    let next = simple_option(next, alloc, by)?;
    let a = statement(a, alloc, by)?;
    for_node(alloc, at, s, c, next, a)
}

/// A copy of a statement that many words later.
#[cycle(statements)]
#[tactic(auto, using(rc_syntax::proofs::Rows::block_is))]
fn statement(s: &Stmt, alloc: Global, by: u32) -> Result<Box<Stmt>, NoMemory>
    ensures { IfOk result (λ r. written.stmt_of r.value ≡ place.moved_stmt by (written.stmt_of s.now)) }
{
    let at = spot(spot_of(s), by)?;
    match s {
        Stmt::Local(l) => copy_local(l, alloc, by),
        Stmt::Block(_, body) => copy_block(at, body, alloc, by),
        Stmt::Empty(_) => stmt_node(alloc, Stmt::Empty(at)),
        Stmt::Simple(_, s) => copy_simple(at, s, alloc, by),
        Stmt::If(_, c, a, None) => copy_if(at, c, a, alloc, by),
        Stmt::If(_, c, a, Some(b)) => copy_if_else(at, c, a, b, alloc, by),
        Stmt::While(_, c, a) => copy_while(at, c, a, alloc, by),
        Stmt::Do(_, a, c) => copy_do(at, a, c, alloc, by),
        Stmt::For(_, s, c, next, a) => copy_for(at, s, c, next, a, alloc, by),
        Stmt::Break(_) => stmt_node(alloc, Stmt::Break(at)),
        Stmt::Continue(_) => stmt_node(alloc, Stmt::Continue(at)),
        Stmt::Return(_, e) => copy_return(at, e, alloc, by),
    }
}

#[cycle(statements)]
#[tactic(auto, using(crate::proofs::Copied::stmts_step, crate::proofs::Copied::stmts_end))]
fn statements(body: &[Stmt], alloc: Global, by: u32) -> Result<Vec<Stmt>, NoMemory>
    ensures { IfOk result (λ r. written.stmts_of r.items ≡ place.moved_stmts by (written.stmts_of body.now)) }
{
    let mut copies = Vec::new(alloc);
    for s in body {
        let copy = statement(s, alloc, by)?;
        add_stmt(&mut copies, copy)?;
    }
    Ok(copies)
}

/// A copy of a body, where there is one.
pub(crate) fn body(
    b: &Option<Vec<Stmt>>,
    alloc: Global,
    by: u32,
) -> Result<Option<Vec<Stmt>>, NoMemory>
    ensures { IfOk result (λ r. written.mapped (λ b. written.stmts_of b.items) r ≡ place.moved_body by (written.mapped (λ b. written.stmts_of b.items) b.now)) }
{
    match b {
        Some(b) => {
            let b = statements(b, alloc, by)?;
            Ok(Some(b))
        }
        None => Ok(None),
    }
}
