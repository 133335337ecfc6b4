// Arithmetic (ISO C 6.3.1 and 6.5): exact results, and what the types make of them.

ghost use Rattle.std.specs.Prelude.{◌≡◌, false, true, MatchOption};
ghost use Rattle.rc_core.specs.Numbers.{byte_of};
ghost use Rattle.rc_core.specs.Arithmetic.{as_int, bits_of, calculate, calculate_one, converted, fitted, of_bits, power, quotient, remainder, shift_fits, shifted_left, shifted_right, truth, type_of, wrapped};

use crate::operators::{Operator, UnaryOperator};
use crate::ty::{NumberType, Signedness};
use rc_base::Trap;

/// Modulo 2 to the power 32, from 0.
fn wrapped(value: i128) -> i64
    ensures { result ≡ wrapped value }
{
    value.rem_euclid(4_294_967_296) as i64
}

/// The `int` with the same 32 bits of two's complement.
pub fn as_int(value: i64) -> i32
    ensures { result ≡ as_int value }
{
    let bits = wrapped(value as i128);
    if bits < 2_147_483_648 {
        bits as i32
    } else {
        (bits - 4_294_967_296) as i32
    }
}

/// A number in a type: the value modulo 2 to the power 32 or 8 (ISO C 6.3.1.3). It never traps.
pub fn converted(to: NumberType, value: i64) -> i64
    ensures { result ≡ converted to value }
{
    match to {
        NumberType::Int => as_int(value) as i64,
        NumberType::Unsigned => wrapped(value as i128),
        NumberType::Char => value.rem_euclid(256),
    }
}

/// The type of numbers that arithmetic is done in.
pub fn type_of(signedness: Signedness) -> NumberType
    ensures { result ≡ type_of signedness }
{
    match signedness {
        Signedness::Signed => NumberType::Int,
        Signedness::Unsigned => NumberType::Unsigned,
    }
}

/// The byte that `putchar` writes: the value modulo 256.
pub fn byte_of(value: i64) -> u8
    ensures { result ≡ byte_of value }
{
    value.rem_euclid(256) as u8
}

/// What the type makes of an exact result.
///
/// # Errors
///
/// On `int` it doesn't fit: an overflow.
fn fitted(signedness: Signedness, exact: i128) -> Result<i64, Trap>
    ensures { result ≡ fitted signedness exact }
{
    match signedness {
        Signedness::Signed => {
            if exact < -2_147_483_648 {
                return Err(Trap::Overflow);
            }
            if exact > 2_147_483_647 {
                return Err(Trap::Overflow);
            }
            Ok(exact as i64)
        }
        Signedness::Unsigned => Ok(wrapped(exact)),
    }
}

/// The quotient, truncated toward zero.
///
/// # Errors
///
/// The divisor is zero, or the quotient doesn't fit an `int`: a trap.
fn quotient(signedness: Signedness, left: i64, right: i64) -> Result<i64, Trap>
    ensures { result ≡ quotient signedness left right }
{
    if right == 0 {
        return Err(Trap::Zero);
    }
    fitted(signedness, left as i128 / right as i128)
}

/// The remainder that the quotient leaves. It is one only where the quotient fits.
///
/// # Errors
///
/// The divisor is zero, or the quotient doesn't fit an `int`: a trap.
fn remainder(signedness: Signedness, left: i64, right: i64) -> Result<i64, Trap>
    ensures { result ≡ remainder signedness left right }
{
    let _quotient = quotient(signedness, left, right)?;
    Ok((left as i128 % right as i128) as i64)
}

/// Two to a power that a shift may have, from 0 to 31, or none.
fn power(exponent: i64) -> Option<i64>
    ensures { MatchOption result (shift_fits exponent ≡ false) (λ factor. (shift_fits exponent ≡ true) × (factor ≡ power exponent)) }
{
    if exponent < 0 {
        return None;
    }
    if exponent > 31 {
        return None;
    }
    Some(1i64 << exponent as u32)
}

/// The value times two to the power `count`.
///
/// # Errors
///
/// `count` isn't from 0 to 31, or the result doesn't fit an `int`: a trap.
fn shifted_left(signedness: Signedness, value: i64, count: i64) -> Result<i64, Trap>
    ensures { result ≡ shifted_left signedness value count }
{
    let Some(factor) = power(count) else {
        return Err(Trap::Shift);
    };
    fitted(signedness, value as i128 * factor as i128)
}

/// The value divided by two to the power `count`, toward the lesser number.
///
/// # Errors
///
/// `count` isn't from 0 to 31: a trap.
fn shifted_right(value: i64, count: i64) -> Result<i64, Trap>
    ensures { result ≡ shifted_right value count }
{
    let Some(divisor) = power(count) else {
        return Err(Trap::Shift);
    };
    Ok(value.div_euclid(divisor))
}

/// 1 for true, 0 for false.
fn truth(is: bool) -> i64
    ensures { result ≡ truth is }
{
    if is { 1 } else { 0 }
}

/// The 32 bits of a value.
fn bits_of(value: i64) -> u32
    ensures { result ≡ bits_of value }
{
    wrapped(value as i128) as u32
}

/// The value of 32 bits.
fn of_bits(signedness: Signedness, bits: u32) -> i64
    ensures { result ≡ of_bits signedness bits }
{
    converted(type_of(signedness), bits as i64)
}

/// What an operator gives of two numbers of the type that it computes in.
///
/// # Errors
///
/// The trap of the operation: a zero divisor, a shift that isn't from 0 to 31, or on `int` a result
/// that doesn't fit.
pub fn calculate(
    operator: Operator,
    signedness: Signedness,
    left: i64,
    right: i64,
) -> Result<i64, Trap>
    ensures { result ≡ calculate operator signedness left right }
{
    match operator {
        Operator::Multiply => fitted(signedness, left as i128 * right as i128),
        Operator::Divide => quotient(signedness, left, right),
        Operator::Remainder => remainder(signedness, left, right),
        Operator::Add => fitted(signedness, left as i128 + right as i128),
        Operator::Subtract => fitted(signedness, left as i128 - right as i128),
        Operator::ShiftLeft => shifted_left(signedness, left, right),
        Operator::ShiftRight => shifted_right(left, right),
        Operator::Less => Ok(truth(left < right)),
        Operator::Greater => Ok(truth(right < left)),
        Operator::LessEqual => Ok(truth(left <= right)),
        Operator::GreaterEqual => Ok(truth(right <= left)),
        Operator::Equal => Ok(truth(left == right)),
        Operator::NotEqual => Ok(truth(left != right)),
        Operator::And => Ok(of_bits(signedness, bits_of(left) & bits_of(right))),
        Operator::Xor => Ok(of_bits(signedness, bits_of(left) ^ bits_of(right))),
        Operator::Or => Ok(of_bits(signedness, bits_of(left) | bits_of(right))),
    }
}

/// What an operator gives of one number of the type that it computes in. In two's complement `~a` is
/// one less than `-a`.
///
/// # Errors
///
/// On `int` the result doesn't fit: a trap.
pub fn calculate_one(
    operator: UnaryOperator,
    signedness: Signedness,
    value: i64,
) -> Result<i64, Trap>
    ensures { result ≡ calculate_one operator signedness value }
{
    match operator {
        UnaryOperator::Negate => fitted(signedness, -(value as i128)),
        UnaryOperator::Plus => Ok(value),
        UnaryOperator::Complement => fitted(signedness, -(value as i128) - 1),
    }
}
