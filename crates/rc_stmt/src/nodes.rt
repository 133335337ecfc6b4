// Nodes of statements, each in memory of its own.
ghost use Rattle.std.specs.Prelude.{◌≡◌, IfOk, IfErr};
ghost use Rattle.rc_syntax.specs.declared.fault.ParseFault.TheVariants.{Memory};
ghost use Rattle.rc_syntax.specs.Shape as shape;
ghost use Rattle.rc_syntax.specs.Shape.{mapped};
ghost use Rattle.rc_syntax.specs.Tree as t;
ghost use Rattle.rc_expr.specs.Goes.{boxed_of};
ghost use Rattle.rc_stmt.specs.Shapes.{boxed_simple, boxed_start, boxed_stmt};

use rc_expr::boxed;
use rc_syntax::fault::ParseFault;
use rc_syntax::tree::{BinaryOp, Expr, ForStart, Simple, Spot, Stmt};
use std::alloc::Global;

/// The value of a box, where there is one.
pub fn unboxed<T: Drop>(value: Option<Box<T>>) -> Option<T>
    ensures { result ≡ mapped (λ b. b.value) value }
{
    match value {
        Some(value) => Some(Box::into_inner(value)),
        None => None,
    }
}

/// What `=` gives a left side.
pub fn assign_node(
    alloc: Global,
    spot: Spot,
    left: Box<Expr>,
    right: Box<Expr>,
) -> Result<Box<Simple>, ParseFault>
    ensures ok { IfOk result (λ s. boxed_simple s ≡ t.assign spot (boxed_of left) (boxed_of right)) }
    ensures err { IfErr result (λ f. f ≡ Memory) }
{
    boxed(
        alloc,
        Simple::Assign(spot, Box::into_inner(left), Box::into_inner(right)),
    )
}

/// What a left side is combined with, as in `+=`.
pub fn update_node(
    alloc: Global,
    spot: Spot,
    op: BinaryOp,
    left: Box<Expr>,
    right: Box<Expr>,
) -> Result<Box<Simple>, ParseFault>
    ensures ok { IfOk result (λ s. boxed_simple s ≡ t.update spot op (boxed_of left) (boxed_of right)) }
    ensures err { IfErr result (λ f. f ≡ Memory) }
{
    boxed(
        alloc,
        Simple::Update(spot, op, Box::into_inner(left), Box::into_inner(right)),
    )
}

/// An `if` without `else`.
pub fn if_node(
    alloc: Global,
    spot: Spot,
    test: Box<Expr>,
    then: Box<Stmt>,
) -> Result<Box<Stmt>, ParseFault>
    ensures ok { IfOk result (λ s. boxed_stmt s ≡ t.if_then spot (boxed_of test) (boxed_stmt then)) }
    ensures err { IfErr result (λ f. f ≡ Memory) }
{
    boxed(alloc, Stmt::If(spot, Box::into_inner(test), then, None))
}

/// An `if` with `else`.
pub fn if_else_node(
    alloc: Global,
    spot: Spot,
    test: Box<Expr>,
    then: Box<Stmt>,
    other: Box<Stmt>,
) -> Result<Box<Stmt>, ParseFault>
    ensures ok { IfOk result (λ s. boxed_stmt s ≡ t.if_else spot (boxed_of test) (boxed_stmt then) (boxed_stmt other)) }
    ensures err { IfErr result (λ f. f ≡ Memory) }
{
    boxed(
        alloc,
        Stmt::If(spot, Box::into_inner(test), then, Some(other)),
    )
}

/// A `while`.
pub fn while_node(
    alloc: Global,
    spot: Spot,
    test: Box<Expr>,
    body: Box<Stmt>,
) -> Result<Box<Stmt>, ParseFault>
    ensures ok { IfOk result (λ s. boxed_stmt s ≡ t.while_do spot (boxed_of test) (boxed_stmt body)) }
    ensures err { IfErr result (λ f. f ≡ Memory) }
{
    boxed(alloc, Stmt::While(spot, Box::into_inner(test), body))
}

/// A `do`.
pub fn do_node(
    alloc: Global,
    spot: Spot,
    body: Box<Stmt>,
    test: Box<Expr>,
) -> Result<Box<Stmt>, ParseFault>
    ensures ok { IfOk result (λ s. boxed_stmt s ≡ t.do_while spot (boxed_stmt body) (boxed_of test)) }
    ensures err { IfErr result (λ f. f ≡ Memory) }
{
    boxed(alloc, Stmt::Do(spot, body, Box::into_inner(test)))
}

/// A `for`.
pub fn for_node(
    alloc: Global,
    spot: Spot,
    start: Box<ForStart>,
    test: Option<Box<Expr>>,
    then: Option<Box<Simple>>,
    body: Box<Stmt>,
) -> Result<Box<Stmt>, ParseFault>
    ensures ok { IfOk result (λ s. boxed_stmt s ≡ t.for_do spot (boxed_start start) (shape.mapped boxed_of test) (shape.mapped boxed_simple then) (boxed_stmt body)) }
    ensures err { IfErr result (λ f. f ≡ Memory) }
{
    boxed(
        alloc,
        Stmt::For(
            spot,
            Box::into_inner(start),
            unboxed(test),
            unboxed(then),
            body,
        ),
    )
}
