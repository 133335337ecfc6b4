// Nodes of trees, each in memory of its own.
ghost use Rattle.std.specs.Prelude.{◌≡◌, ◌++◌, ◌∷◌, [], IfOk, IfErr, OnOk};
ghost use Rattle.rc_syntax.specs.declared.fault.ParseFault.TheVariants.{Memory};
ghost use Rattle.rc_syntax.specs.Shape.{exprs_of, type_of};
ghost use Rattle.rc_syntax.specs.Tree as t;
ghost use Rattle.rc_expr.specs.Goes.{boxed_of};

use rc_syntax::fault::ParseFault;
use rc_syntax::tree::{BinaryOp, CastType, Expr, Name, Spot, TypeName, UnaryOp};
use std::alloc::Global;

/// Puts a value after those before it.
///
/// # Errors
/// `Memory` when out of memory; the value is gone then.
pub fn add<T: Drop>(values: &mut Vec<T>, value: T) -> Result<(), ParseFault>
    ensures ok { OnOk result (values.new.items ≡ values.old.items ++ value ∷ []) }
    ensures err { IfErr result (λ f. f ≡ Memory) }
{
    Ok(values.push(value)?)
}

/// The value in memory of its own.
///
/// # Errors
/// `Memory` when out of memory; the value is gone then.
pub fn boxed<T: Drop>(alloc: Global, value: T) -> Result<Box<T>, ParseFault>
    ensures ok { IfOk result (λ b. b.value ≡ value) }
    ensures err { IfErr result (λ f. f ≡ Memory) }
{
    Ok(Box::new(alloc, value)?)
}

/// The value in memory of its own, and the place after it.
pub fn leaf<T: Drop>(alloc: Global, value: T, end: u32) -> Result<(Box<T>, u32), ParseFault>
    ensures ok { IfOk result (λ r. (r.0.value ≡ value) × (r.1 ≡ end)) }
    ensures err { IfErr result (λ f. f ≡ Memory) }
{
    let value = boxed(alloc, value)?;
    Ok((value, end))
}

/// An operator before its operand.
pub fn unary_node(
    alloc: Global,
    spot: Spot,
    op: UnaryOp,
    value: Box<Expr>,
) -> Result<Box<Expr>, ParseFault>
    ensures ok { IfOk result (λ e. boxed_of e ≡ t.unary spot op (boxed_of value)) }
    ensures err { IfErr result (λ f. f ≡ Memory) }
{
    boxed(alloc, Expr::Unary(spot, op, value))
}

/// A cast.
pub fn cast_node(
    alloc: Global,
    spot: Spot,
    to: CastType,
    value: Box<Expr>,
) -> Result<Box<Expr>, ParseFault>
    ensures ok { IfOk result (λ e. boxed_of e ≡ t.cast spot to (boxed_of value)) }
    ensures err { IfErr result (λ f. f ≡ Memory) }
{
    boxed(alloc, Expr::Cast(spot, to, value))
}

/// An operator between its operands.
pub fn binary_node(
    alloc: Global,
    spot: Spot,
    op: BinaryOp,
    left: Box<Expr>,
    right: Box<Expr>,
) -> Result<Box<Expr>, ParseFault>
    ensures ok { IfOk result (λ e. boxed_of e ≡ t.binary spot op (boxed_of left) (boxed_of right)) }
    ensures err { IfErr result (λ f. f ≡ Memory) }
{
    boxed(alloc, Expr::Binary(spot, op, left, right))
}

/// A conditional.
pub fn conditional_node(
    alloc: Global,
    spot: Spot,
    test: Box<Expr>,
    yes: Box<Expr>,
    no: Box<Expr>,
) -> Result<Box<Expr>, ParseFault>
    ensures ok { IfOk result (λ e. boxed_of e ≡ t.conditional spot (boxed_of test) (boxed_of yes) (boxed_of no)) }
    ensures err { IfErr result (λ f. f ≡ Memory) }
{
    boxed(alloc, Expr::Conditional(spot, test, yes, no))
}

/// An index, after what it goes into.
pub fn index_node(
    alloc: Global,
    spot: Spot,
    value: Box<Expr>,
    index: Box<Expr>,
) -> Result<Box<Expr>, ParseFault>
    ensures ok { IfOk result (λ e. boxed_of e ≡ t.index spot (boxed_of value) (boxed_of index)) }
    ensures err { IfErr result (λ f. f ≡ Memory) }
{
    boxed(alloc, Expr::Index(spot, value, index))
}

/// A field of what stands before it.
pub fn member_node(
    alloc: Global,
    spot: Spot,
    value: Box<Expr>,
    field: Name,
) -> Result<Box<Expr>, ParseFault>
    ensures ok { IfOk result (λ e. boxed_of e ≡ t.member spot (boxed_of value) field) }
    ensures err { IfErr result (λ f. f ≡ Memory) }
{
    boxed(alloc, Expr::Member(spot, value, field))
}

/// A field of what the value before it points to.
pub fn arrow_node(
    alloc: Global,
    spot: Spot,
    value: Box<Expr>,
    field: Name,
) -> Result<Box<Expr>, ParseFault>
    ensures ok { IfOk result (λ e. boxed_of e ≡ t.arrow spot (boxed_of value) field) }
    ensures err { IfErr result (λ f. f ≡ Memory) }
{
    boxed(alloc, Expr::Arrow(spot, value, field))
}

/// A call.
pub fn call_node(alloc: Global, name: Name, values: Vec<Expr>) -> Result<Box<Expr>, ParseFault>
    ensures ok { IfOk result (λ e. boxed_of e ≡ t.call name (exprs_of values.items)) }
    ensures err { IfErr result (λ f. f ≡ Memory) }
{
    boxed(alloc, Expr::Call(name, values))
}

/// `ralloc`.
pub fn ralloc_node(
    alloc: Global,
    spot: Spot,
    region: Box<Expr>,
    type_name: TypeName,
) -> Result<Box<Expr>, ParseFault>
    ensures ok { IfOk result (λ e. boxed_of e ≡ t.ralloc spot (boxed_of region) (type_of type_name)) }
    ensures err { IfErr result (λ f. f ≡ Memory) }
{
    boxed(alloc, Expr::Ralloc(spot, region, type_name))
}

/// `rarrayalloc`.
pub fn rarrayalloc_node(
    alloc: Global,
    spot: Spot,
    region: Box<Expr>,
    count: Box<Expr>,
    type_name: TypeName,
) -> Result<Box<Expr>, ParseFault>
    ensures ok { IfOk result (λ e. boxed_of e ≡ t.rarrayalloc spot (boxed_of region) (boxed_of count) (type_of type_name)) }
    ensures err { IfErr result (λ f. f ≡ Memory) }
{
    boxed(alloc, Expr::RarrayAlloc(spot, region, count, type_name))
}
