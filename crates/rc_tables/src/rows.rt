// Rows of the table of instructions, and the numbers that instructions have.
ghost use Rattle.std.specs.Prelude.{◌≡◌, ◌+◌, ◌-◌, suc, IfOk};
ghost use Rattle.rc_core.specs.Shapes.{ty_of};
ghost use Rattle.rc_numbering.specs.Numbered.{conversion, row_of, unary_row, word_of};
ghost use Rattle.rc_translation.specs.Translation.{pointee};

use rc_base::NoMemory;
use rc_code::{Arithmetic, Simple};
use rc_core::operators::{Operator, UnaryOperator};
use rc_core::ty::{NumberType, Ty};

/// A number modulo 2 to the power 32.
pub fn word_of(value: i64) -> u32
    ensures { result ≡ word_of value }
{
    value.rem_euclid(4_294_967_296) as u32
}

/// The row of an operator; those that have none are told by their opposites.
pub(crate) fn row_of(operator: Operator) -> Arithmetic
    ensures { result ≡ row_of operator }
{
    match operator {
        Operator::Multiply => Arithmetic::Multiply,
        Operator::Divide => Arithmetic::Divide,
        Operator::Remainder => Arithmetic::Remainder,
        Operator::Add => Arithmetic::Add,
        Operator::Subtract => Arithmetic::Subtract,
        Operator::ShiftLeft => Arithmetic::ShiftLeft,
        Operator::ShiftRight => Arithmetic::ShiftRight,
        Operator::Less => Arithmetic::Less,
        Operator::Greater => Arithmetic::LessEqual,
        Operator::LessEqual => Arithmetic::LessEqual,
        Operator::GreaterEqual => Arithmetic::Less,
        Operator::Equal => Arithmetic::Equal,
        Operator::NotEqual => Arithmetic::Equal,
        Operator::And => Arithmetic::And,
        Operator::Xor => Arithmetic::Xor,
        Operator::Or => Arithmetic::Or,
    }
}

/// The row of an operator on one number.
pub(crate) fn unary_row(operator: UnaryOperator) -> Arithmetic
    ensures { result ≡ unary_row operator }
{
    match operator {
        UnaryOperator::Negate => Arithmetic::Negate,
        UnaryOperator::Plus => Arithmetic::Negate,
        UnaryOperator::Complement => Arithmetic::Complement,
    }
}

/// The row of a conversion.
pub(crate) fn conversion(to: NumberType) -> Simple
    ensures { result ≡ conversion to }
{
    match to {
        NumberType::Int => Simple::ToInt,
        NumberType::Unsigned => Simple::ToUnsigned,
        NumberType::Char => Simple::ToChar,
    }
}

/// What a type points to.
pub(crate) fn pointee(ty: &Ty) -> &Ty
    ensures { ty_of result.now ≡ pointee (ty_of ty.now) }
{
    match ty {
        Ty::Int => ty,
        Ty::Unsigned => ty,
        Ty::Char => ty,
        Ty::Region => ty,
        Ty::Struct(_number) => ty,
        Ty::Pointer(_, target) => target,
    }
}

/// Where a jump past so many instructions leads, which stands at a place.
pub(crate) fn forward(at: usize, over: u32) -> Result<u32, NoMemory>
    ensures { IfOk result (λ r. r ≡ suc at + over) }
{
    let next = at.checked_add(1).ok_or(NoMemory)?;
    let to = next.checked_add(over as usize).ok_or(NoMemory)?;
    u32::try_from(to).map_err(|_| NoMemory)
}

/// The place from which on there are so many instructions up to the end, of so many in all.
pub(crate) fn backward(total: usize, left: u32) -> Result<u32, NoMemory>
    ensures { IfOk result (λ r. r ≡ total - left) }
{
    u32::try_from(total.saturating_sub(left as usize)).map_err(|_| NoMemory)
}
