// Expressions. The parts of each node are copied in a function of its own.
ghost use Rattle.std.specs.Prelude.{◌≡◌, IfOk};
ghost use Rattle.rc_syntax.specs.Shape as written;
ghost use Rattle.rc_syntax.specs.Tree as t;
ghost use Rattle.rc_deletes.specs.Values.{spot_of};
ghost use Rattle.rc_linking.specs.Moved as place;

use crate::nodes::{add_expr, call_node, expr_node};
use crate::parts::{copy_name, copy_type, name_at, spot};
use rc_base::NoMemory;
use rc_syntax::tree::{BinaryOp, CastType, Expr, Name, Spot, TypeName, UnaryOp};
use rc_syntax::word::Text;
use std::alloc::Global;

/// Where an expression begins.
fn spot_of(e: &Expr) -> Spot
    ensures { result ≡ spot_of (written.expr_of e.now) }
{
    match e {
        Expr::Number(at, _, _) => *at,
        Expr::Character(at, _) => *at,
        Expr::Str(at, _) => *at,
        Expr::Null(at) => *at,
        Expr::Eof(at) => *at,
        Expr::Variable(n) => n.spot,
        Expr::Call(n, _) => n.spot,
        Expr::Ralloc(at, _, _) => *at,
        Expr::RarrayAlloc(at, _, _, _) => *at,
        Expr::Index(at, _, _) => *at,
        Expr::Member(at, _, _) => *at,
        Expr::Arrow(at, _, _) => *at,
        Expr::Unary(at, _, _) => *at,
        Expr::Cast(at, _, _) => *at,
        Expr::Binary(at, _, _, _) => *at,
        Expr::Conditional(at, _, _, _) => *at,
    }
}

fn copy_string(at: Spot, text: &Text, alloc: Global) -> Result<Box<Expr>, NoMemory>
    ensures { IfOk result (λ r. written.expr_of r.value ≡ t.string at text.now) }
{
    let text = text.share()?;
    expr_node(alloc, Expr::Str(at, text))
}

fn copy_variable(at: Spot, n: &Name, alloc: Global) -> Result<Box<Expr>, NoMemory>
    ensures { IfOk result (λ r. written.expr_of r.value ≡ t.variable (record { spot = at; text = n.now.text })) }
{
    let n = name_at(n, at)?;
    expr_node(alloc, Expr::Variable(n))
}

#[cycle(expressions)]
fn copy_call(
    at: Spot,
    n: &Name,
    given: &[Expr],
    alloc: Global,
    by: u32,
) -> Result<Box<Expr>, NoMemory>
    ensures { IfOk result (λ r. written.expr_of r.value ≡ t.call (record { spot = at; text = n.now.text }) (place.moved_all by (written.exprs_of given.now))) }
{
    let given = expressions(given, alloc, by)?;
    let n = name_at(n, at)?;
    call_node(alloc, n, given)
}

#[cycle(expressions)]
fn copy_ralloc(
    at: Spot,
    region: &Expr,
    ty: &TypeName,
    alloc: Global,
    by: u32,
) -> Result<Box<Expr>, NoMemory>
    ensures { IfOk result (λ r. written.expr_of r.value ≡ t.ralloc at (place.moved by (written.expr_of region.now)) (place.moved_type by (written.type_of ty.now))) }
{
    let region = expression(region, alloc, by)?;
    let ty = copy_type(alloc, ty, by)?;
    expr_node(alloc, Expr::Ralloc(at, region, ty))
}

#[cycle(expressions)]
fn copy_rarrayalloc(
    at: Spot,
    region: &Expr,
    k: &Expr,
    ty: &TypeName,
    alloc: Global,
    by: u32,
) -> Result<Box<Expr>, NoMemory>
    ensures { IfOk result (λ r. written.expr_of r.value ≡ t.rarrayalloc at (place.moved by (written.expr_of region.now)) (place.moved by (written.expr_of k.now)) (place.moved_type by (written.type_of ty.now))) }
{
    let region = expression(region, alloc, by)?;
    let k = expression(k, alloc, by)?;
    let ty = copy_type(alloc, ty, by)?;
    expr_node(alloc, Expr::RarrayAlloc(at, region, k, ty))
}

#[cycle(expressions)]
fn copy_index(at: Spot, a: &Expr, k: &Expr, alloc: Global, by: u32) -> Result<Box<Expr>, NoMemory>
    ensures { IfOk result (λ r. written.expr_of r.value ≡ t.index at (place.moved by (written.expr_of a.now)) (place.moved by (written.expr_of k.now))) }
{
    let a = expression(a, alloc, by)?;
    let k = expression(k, alloc, by)?;
    expr_node(alloc, Expr::Index(at, a, k))
}

#[cycle(expressions)]
fn copy_member(at: Spot, a: &Expr, n: &Name, alloc: Global, by: u32) -> Result<Box<Expr>, NoMemory>
    ensures { IfOk result (λ r. written.expr_of r.value ≡ t.member at (place.moved by (written.expr_of a.now)) (place.moved_name by n.now)) }
{
    let a = expression(a, alloc, by)?;
    let n = copy_name(n, by)?;
    expr_node(alloc, Expr::Member(at, a, n))
}

#[cycle(expressions)]
fn copy_arrow(at: Spot, a: &Expr, n: &Name, alloc: Global, by: u32) -> Result<Box<Expr>, NoMemory>
    ensures { IfOk result (λ r. written.expr_of r.value ≡ t.arrow at (place.moved by (written.expr_of a.now)) (place.moved_name by n.now)) }
{
    let a = expression(a, alloc, by)?;
    let n = copy_name(n, by)?;
    expr_node(alloc, Expr::Arrow(at, a, n))
}

#[cycle(expressions)]
fn copy_unary(
    at: Spot,
    op: UnaryOp,
    a: &Expr,
    alloc: Global,
    by: u32,
) -> Result<Box<Expr>, NoMemory>
    ensures { IfOk result (λ r. written.expr_of r.value ≡ t.unary at op (place.moved by (written.expr_of a.now))) }
{
    let a = expression(a, alloc, by)?;
    expr_node(alloc, Expr::Unary(at, op, a))
}

#[cycle(expressions)]
fn copy_cast(
    at: Spot,
    to: CastType,
    a: &Expr,
    alloc: Global,
    by: u32,
) -> Result<Box<Expr>, NoMemory>
    ensures { IfOk result (λ r. written.expr_of r.value ≡ t.cast at to (place.moved by (written.expr_of a.now))) }
{
    let a = expression(a, alloc, by)?;
    expr_node(alloc, Expr::Cast(at, to, a))
}

#[cycle(expressions)]
fn copy_binary(
    at: Spot,
    op: BinaryOp,
    a: &Expr,
    b: &Expr,
    alloc: Global,
    by: u32,
) -> Result<Box<Expr>, NoMemory>
    ensures { IfOk result (λ r. written.expr_of r.value ≡ t.binary at op (place.moved by (written.expr_of a.now)) (place.moved by (written.expr_of b.now))) }
{
    let a = expression(a, alloc, by)?;
    let b = expression(b, alloc, by)?;
    expr_node(alloc, Expr::Binary(at, op, a, b))
}

#[cycle(expressions)]
fn copy_conditional(
    at: Spot,
    c: &Expr,
    a: &Expr,
    b: &Expr,
    alloc: Global,
    by: u32,
) -> Result<Box<Expr>, NoMemory>
    ensures { IfOk result (λ r. written.expr_of r.value ≡ t.conditional at (place.moved by (written.expr_of c.now)) (place.moved by (written.expr_of a.now)) (place.moved by (written.expr_of b.now))) }
{
    let c = expression(c, alloc, by)?;
    let a = expression(a, alloc, by)?;
    let b = expression(b, alloc, by)?;
    expr_node(alloc, Expr::Conditional(at, c, a, b))
}

/// A copy of an expression that many words later.
///
/// # Errors
///
/// Out of memory, or out of places.
#[cycle(expressions)]
#[tactic(auto, using(rc_syntax::proofs::Rows::call_is))]
pub fn expression(e: &Expr, alloc: Global, by: u32) -> Result<Box<Expr>, NoMemory>
    ensures { IfOk result (λ r. written.expr_of r.value ≡ place.moved by (written.expr_of e.now)) }
{
    let at = spot(spot_of(e), by)?;
    match e {
        Expr::Number(_, value, unsigned) => expr_node(alloc, Expr::Number(at, *value, *unsigned)),
        Expr::Character(_, code) => expr_node(alloc, Expr::Character(at, *code)),
        Expr::Str(_, text) => copy_string(at, text, alloc),
        Expr::Null(_) => expr_node(alloc, Expr::Null(at)),
        Expr::Eof(_) => expr_node(alloc, Expr::Eof(at)),
        Expr::Variable(n) => copy_variable(at, n, alloc),
        Expr::Call(n, given) => copy_call(at, n, given, alloc, by),
        Expr::Ralloc(_, r, ty) => copy_ralloc(at, r, ty, alloc, by),
        Expr::RarrayAlloc(_, r, k, ty) => copy_rarrayalloc(at, r, k, ty, alloc, by),
        Expr::Index(_, a, k) => copy_index(at, a, k, alloc, by),
        Expr::Member(_, a, n) => copy_member(at, a, n, alloc, by),
        Expr::Arrow(_, a, n) => copy_arrow(at, a, n, alloc, by),
        Expr::Unary(_, op, a) => copy_unary(at, *op, a, alloc, by),
        Expr::Cast(_, to, a) => copy_cast(at, *to, a, alloc, by),
        Expr::Binary(_, op, a, b) => copy_binary(at, *op, a, b, alloc, by),
        Expr::Conditional(_, c, a, b) => copy_conditional(at, c, a, b, alloc, by),
    }
}

#[cycle(expressions)]
#[tactic(auto, using(crate::proofs::Copied::exprs_step, crate::proofs::Copied::exprs_end))]
fn expressions(es: &[Expr], alloc: Global, by: u32) -> Result<Vec<Expr>, NoMemory>
    ensures { IfOk result (λ r. written.exprs_of r.items ≡ place.moved_all by (written.exprs_of es.now)) }
{
    let mut copies = Vec::new(alloc);
    for e in es {
        let copy = expression(e, alloc, by)?;
        add_expr(&mut copies, copy)?;
    }
    Ok(copies)
}

/// A copy of an expression, where there is one.
///
/// # Errors
///
/// As `expression`.
pub fn expression_option(
    e: &Option<Expr>,
    alloc: Global,
    by: u32,
) -> Result<Option<Box<Expr>>, NoMemory>
    ensures { IfOk result (λ r. written.mapped (λ b. written.expr_of b.value) r ≡ place.moved_option by (written.mapped written.expr_of e.now)) }
{
    match e {
        Some(e) => {
            let e = expression(e, alloc, by)?;
            Ok(Some(e))
        }
        None => Ok(None),
    }
}
