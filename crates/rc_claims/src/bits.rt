// Facts as bits.
ghost use Rattle.std.specs.Prelude.{◌≡◌, ◌≤◌, ◌<◌, ◌==◌, ◌+◌, ◌*◌, IsTrue};
ghost use Rattle.rc_facts.specs.Facts.{is_over};
ghost use Rattle.rc_claims.specs.Bits.{bit_in, bit_number, claims};

use rc_facts::Fact;

/// Whether a bit is 1. Behind the last byte there are zeros.
#[tactic(auto, using(crate::proofs::BitLaws::bit_is, crate::proofs::BitLaws::no_bit_is))]
fn bit_of(bytes: &[u8], number: usize) -> bool
    ensures { result ≡ bit_in bytes.now number }
{
    match bytes.get(number / 8) {
        None => false,
        Some(byte) => (*byte >> (number % 8)) & 1 == 1,
    }
}

/// The number of a fact's bit, among those over `n` variables.
fn bit_number(n: u32, fact: Fact) -> usize
    requires few { n ≤ 128 }
    requires over { IsTrue (is_over n fact) }
    ensures { result ≡ bit_number n fact }
{
    let n = n as usize;
    match fact {
        Fact::In(x, y) => x as usize * n + y as usize,
        Fact::Up(x, y) => n * n + (x as usize * n + y as usize),
        Fact::Trad(x) => 2 * (n * n) + x as usize,
        Fact::NonNull(x) => 2 * (n * n) + (n + x as usize),
    }
}

/// Whether the bits, over `n` variables, have a fact on these.
pub fn has_fact(bytes: &[u8], n: u32, fact: Fact) -> bool
    requires few { n ≤ 128 }
    requires over { IsTrue (is_over n fact) }
    ensures { result ≡ claims n bytes.now fact }
{
    bit_of(bytes, bit_number(n, fact))
}
