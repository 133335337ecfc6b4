// The numbers of a tree are those of words: each fits in 32 bits, and a character in 8. So does each
// byte of a string.
ghost use Rattle.std.specs.Prelude.{[], ◌∷◌, map};
ghost use Rattle.std.specs.List.{AllByRecursion as Every};
ghost use Rattle.rc_core.specs.Numbers.{IsByte};
ghost use Rattle.rc_core.specs.Shapes.{bytes_of};
ghost use Rattle.rc_deletes.specs.Ranges as range;
ghost use Rattle.rc_syntax.specs.Shape as written;

use rc_syntax::tree::{Expr, ForStart, Item, Local, Simple, Stmt};

#[cycle(expressions)]
#[tactic(auto, using(rc_syntax::proofs::Rows::call_is))]
fn expression(e: &Expr)
    ensures { range.IsInRange (written.expr_of e.now) }
{
    match e {
        Expr::Number(_, n, _) => {
            let _number = *n;
        }
        Expr::Character(_, c) => {
            let _character = *c;
        }
        Expr::Str(_, _) => {}
        Expr::Null(_) => {}
        Expr::Eof(_) => {}
        Expr::Variable(_) => {}
        Expr::Call(_, given) => expressions(given),
        Expr::Ralloc(_, r, _) => expression(r),
        Expr::RarrayAlloc(_, r, k, _) => {
            expression(r);
            expression(k);
        }
        Expr::Index(_, a, k) => {
            expression(a);
            expression(k);
        }
        Expr::Member(_, a, _) => expression(a),
        Expr::Arrow(_, a, _) => expression(a),
        Expr::Unary(_, _, a) => expression(a),
        Expr::Cast(_, _, a) => expression(a),
        Expr::Binary(_, _, a, b) => {
            expression(a);
            expression(b);
        }
        Expr::Conditional(_, c, a, b) => {
            expression(c);
            expression(a);
            expression(b);
        }
    }
}

#[cycle(expressions)]
#[tactic(auto, using(crate::proofs::Bounded::exprs_step, crate::proofs::Bounded::exprs_end))]
fn expressions(es: &[Expr])
    ensures { range.AreInRange (written.exprs_of es.now) }
{
    for e in es {
        expression(e);
    }
}

fn option(e: &Option<Expr>)
    ensures { range.OptionInRange (written.mapped written.expr_of e.now) }
{
    if let Some(e) = e {
        expression(e);
    }
}

fn simple(s: &Simple)
    ensures { range.SimpleInRange (written.simple_of s.now) }
{
    match s {
        Simple::Expr(e) => expression(e),
        Simple::Assign(_, l, r) => {
            expression(l);
            expression(r);
        }
        Simple::Update(_, _, l, r) => {
            expression(l);
            expression(r);
        }
        Simple::StepAfter(_, _, l) => expression(l),
        Simple::StepBefore(_, _, l) => expression(l),
    }
}

fn simple_option(s: &Option<Simple>)
    ensures { range.SimpleOptionInRange (written.mapped written.simple_of s.now) }
{
    if let Some(s) = s {
        simple(s);
    }
}

#[tactic(auto, using(crate::proofs::Bounded::locals_step, crate::proofs::Bounded::locals_end))]
fn locals(ls: &[Local])
    ensures { range.LocalsInRange (map written.local_of ls.now) }
{
    for l in ls {
        option(&l.initial);
    }
}

fn start(s: &ForStart)
    ensures { range.StartInRange (written.start_of s.now) }
{
    match s {
        ForStart::Nothing => {}
        ForStart::Simple(s) => simple(s),
        ForStart::Locals(ls) => locals(ls),
    }
}

#[cycle(statements)]
#[tactic(auto, using(rc_syntax::proofs::Rows::block_is))]
fn statement(s: &Stmt)
    ensures { range.StmtInRange (written.stmt_of s.now) }
{
    match s {
        Stmt::Local(l) => option(&l.initial),
        Stmt::Block(_, body) => statements(body),
        Stmt::Empty(_) => {}
        Stmt::Simple(_, s) => simple(s),
        Stmt::If(_, c, a, None) => {
            expression(c);
            statement(a);
        }
        Stmt::If(_, c, a, Some(b)) => {
            expression(c);
            statement(a);
            statement(b);
        }
        Stmt::While(_, c, a) => {
            expression(c);
            statement(a);
        }
        Stmt::Do(_, a, c) => {
            statement(a);
            expression(c);
        }
        Stmt::For(_, s, c, next, a) => {
            start(s);
            option(c);
            simple_option(next);
            statement(a);
        }
        Stmt::Break(_) => {}
        Stmt::Continue(_) => {}
        Stmt::Return(_, e) => option(e),
    }
}

#[cycle(statements)]
#[tactic(auto, using(crate::proofs::Bounded::stmts_step, crate::proofs::Bounded::stmts_end))]
fn statements(body: &[Stmt])
    ensures { range.StmtsInRange (written.stmts_of body.now) }
{
    for s in body {
        statement(s);
    }
}

fn body(b: &Option<Vec<Stmt>>)
    ensures { range.BodyInRange (written.mapped (λ b. written.stmts_of b.items) b.now) }
{
    if let Some(b) = b {
        statements(b);
    }
}

fn item(i: &Item)
    ensures { range.ItemsInRange (written.item_of i.now ∷ []) }
{
    match i {
        Item::Struct(_, _, _) => {}
        Item::Global(_, _, _, _, _) => {}
        Item::Function(_, _, _, _, _, b) => body(b),
    }
}

/// Reads the numbers of items, and nothing else: they are those of words.
#[tactic(auto, using(crate::proofs::Bounded::items_step, crate::proofs::Bounded::items_end))]
pub(crate) fn numbers(items: &[Item])
    ensures { range.ItemsInRange (map written.item_of items.now) }
{
    for i in items {
        item(i);
    }
}

#[tactic(auto, using(crate::proofs::Bounded::bytes_step, crate::proofs::Bounded::bytes_end))]
fn bytes(text: &[u8])
    ensures { Every IsByte text.now }
{
    for byte in text {
        let _byte = *byte;
    }
}

/// Reads the bytes of strings, and nothing else.
#[tactic(auto, using(crate::proofs::Bounded::strings_step, crate::proofs::Bounded::strings_end))]
pub(crate) fn strings(strings: &[Vec<u8>])
    ensures { Every (Every IsByte) (map bytes_of strings.now) }
{
    for text in strings {
        bytes(text);
    }
}
