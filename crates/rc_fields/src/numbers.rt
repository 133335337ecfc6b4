// Numbers: seven bits a byte, the low ones first, in as few bytes as serve.
ghost use Rattle.std.specs.Prelude.{◌≡◌, ◌<◌, ◌≤◌, ◌++◌, IfOk, OnOk};
ghost use Rattle.std.specs.List.{flat_map};
ghost use Rattle.rc_code.specs.Image.{kind_number};
ghost use Rattle.rc_fields.specs.Spelling.{number, numbers};
ghost use Rattle.rc_fields.specs.Reading.{Gives, tail_at, number_at, number_within, many, kind_at};
ghost use Rattle.rc_fields.specs.Bounds.{tail_bound};

use crate::stop::Stop;
use rc_core::ty::Signedness;
use std::alloc::{AllocError, Global};

/// Reads the digits after the first one, as a number. So many may follow the next one, and `left`
/// bytes are left from the number's first digit on.
#[tactic(auto, unfolding(crate::specs::Reading::tail_at))]
fn read_tail(more: u32, left: usize, bytes: &[u8]) -> Result<(u64, &[u8]), Stop>
    requires { more ≤ 3 }
    ensures gives { Gives (λ x. (x.0, x.1.now)) result (tail_at more left bytes.now) }
    ensures bound { IfOk result (λ x. x.0 < tail_bound more) }
{
    let [digit, rest @ ..] = bytes else {
        return Err(Stop::Short);
    };
    let digit = u64::from(*digit);
    if digit == 0 {
        return Err(Stop::Field(left));
    }
    if more == 0 {
        if digit < 16 {
            return Ok((digit, rest));
        }
        return Err(Stop::Field(left));
    }
    if digit < 128 {
        return Ok((digit, rest));
    }
    let (high, rest) = read_tail(more - 1, left, rest)?;
    Ok((digit - 128 + 128 * high, rest))
}

/// Reads a number below 2^32, and gives the bytes after it.
///
/// # Errors
///
/// `Short` where the bytes end inside, and `Field` where it is 2^32 or more, or has more digits than
/// serve.
#[tactic(auto, unfolding(crate::specs::Reading::number_at))]
pub fn read_number(bytes: &[u8]) -> Result<(u32, &[u8]), Stop>
    ensures { Gives (λ x. (x.0, x.1.now)) result (number_at bytes.now) }
{
    let [digit, rest @ ..] = bytes else {
        return Err(Stop::Short);
    };
    let digit = *digit;
    if digit < 128 {
        return Ok((u32::from(digit), rest));
    }
    let (high, rest) = read_tail(3, bytes.len(), rest)?;
    Ok(((u64::from(digit) - 128 + 128 * high) as u32, rest))
}

/// Reads a number that is at least `least` and below `bound`.
///
/// # Errors
///
/// `Short` where the bytes end inside, and `Field` where it breaks a rule.
#[tactic(auto, unfolding(crate::specs::Reading::number_within))]
pub fn read_within(least: u32, bound: u64, bytes: &[u8]) -> Result<(u32, &[u8]), Stop>
    ensures { Gives (λ x. (x.0, x.1.now)) result (number_within least bound bytes.now) }
{
    let (number, rest) = read_number(bytes)?;
    if number < least {
        return Err(Stop::Field(bytes.len()));
    }
    if u64::from(number) < bound {
        return Ok((number, rest));
    }
    Err(Stop::Field(bytes.len()))
}

/// Reads so many numbers.
///
/// # Errors
///
/// `Short` where the bytes end inside, `Field` with the first field that breaks a rule, and `Memory`
/// where there is none.
pub fn read_numbers(alloc: Global, count: usize, bytes: &[u8]) -> Result<(Vec<u32>, &[u8]), Stop>
    ensures { Gives (λ x. (x.0.items, x.1.now)) result (many number_at count bytes.now) }
{
    let mut items = Vec::new(alloc);
    let mut rest = bytes;
    for _ in 0..count {
        let (item, after) = read_number(rest)?;
        items.push(item)?;
        rest = after;
    }
    Ok((items, rest))
}

/// Reads the kind of a number, 0 for signed and 1 for unsigned.
///
/// # Errors
///
/// `Short` where the bytes end inside, and `Field` where it breaks a rule.
#[tactic(auto, unfolding(crate::specs::Reading::kind_at))]
pub fn read_kind(bytes: &[u8]) -> Result<(Signedness, &[u8]), Stop>
    ensures { Gives (λ x. (x.0, x.1.now)) result (kind_at bytes.now) }
{
    let (number, rest) = read_number(bytes)?;
    match number {
        0 => Ok((Signedness::Signed, rest)),
        1 => Ok((Signedness::Unsigned, rest)),
        _ => Err(Stop::Field(bytes.len())),
    }
}

/// Writes the kind of a number, 0 for signed and 1 for unsigned.
///
/// # Errors
///
/// Where there is no memory. What `out` then holds is not said.
pub fn write_kind(out: &mut Vec<u8>, kind: Signedness) -> Result<(), AllocError>
    ensures { OnOk result (out.new.items ≡ out.old.items ++ number (kind_number kind)) }
{
    match kind {
        Signedness::Signed => write_number(out, 0),
        Signedness::Unsigned => write_number(out, 1),
    }
}

/// Writes a number.
///
/// # Errors
///
/// Where there is no memory. What `out` then holds is not said.
pub fn write_number(out: &mut Vec<u8>, n: u64) -> Result<(), AllocError>
    ensures { OnOk result (out.new.items ≡ out.old.items ++ number n) }
{
    let mut rest = n;
    for _ in 0..9_u32 {
        if rest < 128 {
            out.push(rest as u8)?;
            return Ok(());
        }
        out.push((rest % 128) as u8 + 128)?;
        rest /= 128;
    }
    out.push((rest % 128) as u8)?;
    Ok(())
}

/// Writes numbers one after the other.
///
/// # Errors
///
/// Where there is no memory. What `out` then holds is not said.
pub fn write_numbers(out: &mut Vec<u8>, items: &[u32]) -> Result<(), AllocError>
    ensures { OnOk result (out.new.items ≡ out.old.items ++ numbers items.now) }
{
    for item in items {
        write_number(out, u64::from(*item))?;
    }
    Ok(())
}
