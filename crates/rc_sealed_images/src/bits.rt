// The bits of facts.
ghost use Rattle.std.specs.Prelude.{◌≡◌, ◌≤◌, length};
ghost use Rattle.rc_claims.specs.Bits.{bit_count, byte_count};
ghost use Rattle.rc_fields.specs.Reading.{Gives};
ghost use Rattle.rc_sealed_images.specs.Reading.{has_unused, bits_at};

use rc_code::Items;
use rc_fields::Stop;
use std::alloc::Global;

/// How many facts on so many variables there are.
fn bit_count(variables: u64) -> u128
    requires { variables ≤ 8589934592 }
    ensures { result ≡ bit_count variables }
{
    let variables = u128::from(variables);
    2 * (variables * variables) + 2 * variables
}

/// Whether a bit that isn't used is 1. So many are used, and the bytes are as many as these take.
fn has_unused(variables: u64, used: u128, bits: &[u8]) -> bool
    requires used { used ≡ bit_count variables }
    requires bytes { length bits.now ≡ byte_count variables }
    ensures { result ≡ has_unused variables bits.now }
{
    match bits.get((used / 8) as usize) {
        None => false,
        Some(last) => *last >> ((used % 8) as u32) != 0,
    }
}

/// Reads the bits of facts on so many variables.
#[tactic(auto, unfolding(crate::specs::Reading::bits_at))]
pub(crate) fn read_bits(
    alloc: Global,
    variables: u64,
    bytes: &[u8],
) -> Result<(Items<u8>, &[u8]), Stop>
    requires { variables ≤ 8589934592 }
    ensures { Gives (λ x. (x.0, x.1.now)) result (bits_at variables bytes.now) }
{
    let used = bit_count(variables);
    let count = (used + 7) / 8;
    if (bytes.len() as u128) < count {
        return Err(Stop::Short);
    }
    let (bits, rest) = bytes.split_at(count as usize);
    if has_unused(variables, used, bits) {
        return Err(Stop::Field(bytes.len() - (used / 8) as usize));
    }
    let bits = Vec::from_slice(alloc, bits)?;
    Ok((Items::new(bits), rest))
}
