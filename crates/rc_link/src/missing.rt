// Calls of functions that no file defines.
ghost use Rattle.std.specs.Prelude.{◌≡◌, ◌∷◌, ◌++◌, [], map};
ghost use Rattle.rc_deletes.specs.First.{clear};
ghost use Rattle.rc_linking.specs.Calls as calls;
ghost use Rattle.rc_link.specs.Missed.{missed};
ghost use Rattle.rc_syntax.specs.Shape as written;

use rc_scope::Names;
use rc_syntax::tree::{Expr, ForStart, Item, Local, Name, Simple, Stmt};
use rc_units::is_built_in;

/// Whether a called function is there.
fn is_callable(functions: &Names, name: &Name) -> bool
    ensures { result ≡ calls.is_callable functions.now name.now.text }
{
    if is_built_in(name) {
        return true;
    }
    functions.find(name.text.as_slice()).is_some()
}

/// A call, without its arguments.
fn called(functions: &Names, name: &Name) -> Result<(), u32>
    ensures { result ≡ clear (missed functions.now (name.now ∷ [])) }
{
    if is_callable(functions, name) {
        return Ok(());
    }
    Err(name.spot.line)
}

/// The calls in an expression: the line of the first one whose function is not there.
#[cycle(calls_in_expressions)]
#[tactic(auto, using(crate::proofs::Called::both, crate::proofs::Called::own, rc_syntax::proofs::Rows::call_is))]
fn expression(e: &Expr, functions: &Names) -> Result<(), u32>
    ensures { result ≡ clear (missed functions.now (calls.calls_in (written.expr_of e.now))) }
{
    match e {
        Expr::Number(_, _, _) => Ok(()),
        Expr::Character(_, _) => Ok(()),
        Expr::Str(_, _) => Ok(()),
        Expr::Null(_) => Ok(()),
        Expr::Eof(_) => Ok(()),
        Expr::Variable(_) => Ok(()),
        Expr::Call(name, given) => {
            called(functions, name)?;
            expressions(given, functions)
        }
        Expr::Ralloc(_, r, _) => expression(r, functions),
        Expr::RarrayAlloc(_, r, k, _) => {
            expression(r, functions)?;
            expression(k, functions)
        }
        Expr::Index(_, a, k) => {
            expression(a, functions)?;
            expression(k, functions)
        }
        Expr::Member(_, a, _) => expression(a, functions),
        Expr::Arrow(_, a, _) => expression(a, functions),
        Expr::Unary(_, _, a) => expression(a, functions),
        Expr::Cast(_, _, a) => expression(a, functions),
        Expr::Binary(_, _, a, b) => {
            expression(a, functions)?;
            expression(b, functions)
        }
        Expr::Conditional(_, c, a, b) => {
            expression(c, functions)?;
            expression(a, functions)?;
            expression(b, functions)
        }
    }
}

#[cycle(calls_in_expressions)]
#[tactic(auto, using(crate::proofs::Called::both))]
fn expressions(es: &[Expr], functions: &Names) -> Result<(), u32>
    ensures { result ≡ clear (missed functions.now (calls.calls_in_all (written.exprs_of es.now))) }
{
    for e in es {
        expression(e, functions)?;
    }
    Ok(())
}

fn option(e: &Option<Expr>, functions: &Names) -> Result<(), u32>
    ensures { result ≡ clear (missed functions.now (calls.calls_in_option (written.mapped written.expr_of e.now))) }
{
    match e {
        Some(e) => expression(e, functions),
        None => Ok(()),
    }
}

#[tactic(auto, using(crate::proofs::Called::both))]
fn simple(s: &Simple, functions: &Names) -> Result<(), u32>
    ensures { result ≡ clear (missed functions.now (calls.calls_in_simple (written.simple_of s.now))) }
{
    match s {
        Simple::Expr(e) => expression(e, functions),
        Simple::Assign(_, l, r) => {
            expression(l, functions)?;
            expression(r, functions)
        }
        Simple::Update(_, _, l, r) => {
            expression(l, functions)?;
            expression(r, functions)
        }
        Simple::StepAfter(_, _, l) => expression(l, functions),
        Simple::StepBefore(_, _, l) => expression(l, functions),
    }
}

fn simple_option(s: &Option<Simple>, functions: &Names) -> Result<(), u32>
    ensures { result ≡ clear (missed functions.now (calls.calls_in_simple_option (written.mapped written.simple_of s.now))) }
{
    match s {
        Some(s) => simple(s, functions),
        None => Ok(()),
    }
}

#[tactic(auto, using(crate::proofs::Called::both))]
fn locals(ls: &[Local], functions: &Names) -> Result<(), u32>
    ensures { result ≡ clear (missed functions.now (calls.calls_in_locals (map written.local_of ls.now))) }
{
    for l in ls {
        option(&l.initial, functions)?;
    }
    Ok(())
}

fn start(s: &ForStart, functions: &Names) -> Result<(), u32>
    ensures { result ≡ clear (missed functions.now (calls.calls_in_start (written.start_of s.now))) }
{
    match s {
        ForStart::Nothing => Ok(()),
        ForStart::Simple(s) => simple(s, functions),
        ForStart::Locals(ls) => locals(ls, functions),
    }
}

/// `if` without `else`.
#[cycle(calls_in_statements)]
#[tactic(auto, using(crate::proofs::Called::both))]
fn if_then(c: &Expr, a: &Stmt, functions: &Names) -> Result<(), u32>
    ensures { result ≡ clear (missed functions.now (calls.calls_in (written.expr_of c.now) ++ calls.calls_in_stmt (written.stmt_of a.now))) }
{
    expression(c, functions)?;
    statement(a, functions)
}

/// `if` with `else`.
#[cycle(calls_in_statements)]
#[tactic(auto, using(crate::proofs::Called::both))]
fn if_else(c: &Expr, a: &Stmt, b: &Stmt, functions: &Names) -> Result<(), u32>
    ensures { result ≡ clear (missed functions.now (calls.calls_in (written.expr_of c.now) ++ (calls.calls_in_stmt (written.stmt_of a.now) ++ calls.calls_in_stmt (written.stmt_of b.now)))) }
{
    expression(c, functions)?;
    statement(a, functions)?;
    statement(b, functions)
}

#[cycle(calls_in_statements)]
#[tactic(auto, using(crate::proofs::Called::both, rc_syntax::proofs::Rows::block_is))]
fn statement(s: &Stmt, functions: &Names) -> Result<(), u32>
    ensures { result ≡ clear (missed functions.now (calls.calls_in_stmt (written.stmt_of s.now))) }
{
    match s {
        Stmt::Local(l) => option(&l.initial, functions),
        Stmt::Block(_, body) => statements(body, functions),
        Stmt::Empty(_) => Ok(()),
        Stmt::Simple(_, s) => simple(s, functions),
        Stmt::If(_, c, a, None) => if_then(c, a, functions),
        Stmt::If(_, c, a, Some(b)) => if_else(c, a, b, functions),
        Stmt::While(_, c, a) => {
            expression(c, functions)?;
            statement(a, functions)
        }
        Stmt::Do(_, a, c) => {
            statement(a, functions)?;
            expression(c, functions)
        }
        Stmt::For(_, s, c, next, a) => {
            start(s, functions)?;
            option(c, functions)?;
            simple_option(next, functions)?;
            statement(a, functions)
        }
        Stmt::Break(_) => Ok(()),
        Stmt::Continue(_) => Ok(()),
        Stmt::Return(_, e) => option(e, functions),
    }
}

#[cycle(calls_in_statements)]
#[tactic(auto, using(crate::proofs::Called::both))]
fn statements(body: &[Stmt], functions: &Names) -> Result<(), u32>
    ensures { result ≡ clear (missed functions.now (calls.calls_in_stmts (written.stmts_of body.now))) }
{
    for s in body {
        statement(s, functions)?;
    }
    Ok(())
}

fn body(b: &Option<Vec<Stmt>>, functions: &Names) -> Result<(), u32>
    ensures { result ≡ clear (missed functions.now (calls.calls_in_body (written.mapped (λ b. written.stmts_of b.items) b.now))) }
{
    match b {
        Some(b) => statements(b, functions),
        None => Ok(()),
    }
}

fn item(i: &Item, functions: &Names) -> Result<(), u32>
    ensures { result ≡ clear (missed functions.now (calls.calls_in_item (written.item_of i.now))) }
{
    match i {
        Item::Struct(_, _, _) => Ok(()),
        Item::Global(_, _, _, _, _) => Ok(()),
        Item::Function(_, _, _, _, _, b) => body(b, functions),
    }
}

/// The calls in a file: the line of the first one whose function is not there.
#[tactic(auto, using(crate::proofs::Called::both))]
pub(crate) fn calls(file: &[Item], functions: &Names) -> Result<(), u32>
    ensures { result ≡ clear (missed functions.now (calls.calls_in_items (map written.item_of file.now))) }
{
    for i in file {
        item(i, functions)?;
    }
    Ok(())
}
