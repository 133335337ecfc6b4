// A set of facts as bits.
ghost use Rattle.std.specs.Prelude.{◌≡◌, ◌<◌, ◌≤◌, ◌+◌, ◌&&◌, IfOk};
ghost use Rattle.rc_facts.specs.declared.fact.Fact.{Fact as AnyFact};
ghost use Rattle.rc_facts.specs.Facts.{holds, is_over};
ghost use Rattle.rc_claims.specs.Bits.{byte_count, claims, BitsFit};
ghost use Rattle.rc_fact_bits.specs.Standing.{number_at, Stands, ByteStands};

use crate::numbers::{Place, fact_at, first_place, place_behind};
use rc_base::NoMemory;
use rc_code::Items;
use rc_facts::FactSet;
use std::alloc::Global;

/// Eight bits, and where the next one stands.
#[derive(Clone, Copy)]
struct Byte {
    byte: u8,
    next: Place,
}

/// Whether the set has the fact whose bit stands there.
fn bit_of(set: &FactSet, n: u32, place: Place) -> bool
    requires few { n ≤ 128 }
    requires room { n ≤ set.now.variables }
    requires inside { place.column < n }
    ensures { Stands n (holds set.now) (number_at n place) result }
{
    match fact_at(n, place) {
        None => false,
        Some(fact) => set.has(fact),
    }
}

/// The bits of eight facts, from that place on.
fn byte_of(set: &FactSet, n: u32, first: Place) -> Byte
    requires few { n ≤ 128 }
    requires room { n ≤ set.now.variables }
    requires inside { first.column < n }
    requires small { first.row < 90000 }
    ensures stands { ByteStands n (holds set.now) (number_at n first) result.byte }
    ensures inside { result.next.column < n }
    ensures rows { result.next.row ≤ first.row + 8 }
    ensures next { number_at n result.next ≡ number_at n first + 8 }
{
    let mut byte = 0u8;
    let mut next = first;
    for at in 0..8usize {
        let so = bit_of(set, n, next);
        if so {
            byte = byte | (1 << at);
        }
        let behind = place_behind(n, next);
        next = behind;
    }
    Byte { byte, next }
}

/// How many bytes the facts over `n` variables take.
fn count_of(n: u32) -> usize
    requires few { n ≤ 128 }
    ensures is { result ≡ byte_count n }
    ensures small { result < 8000 }
{
    let width = n as usize;
    (2 * (width * width) + 2 * width + 7) / 8
}

/// The facts of a set on the first `n` variables, as bits.
///
/// # Errors
///
/// Out of memory.
pub fn bits_of(alloc: Global, n: u32, set: &FactSet) -> Result<Items<u8>, NoMemory>
    requires few { n ≤ 128 }
    requires room { n ≤ set.now.variables }
    ensures facts { IfOk result (λ bytes. (fact : AnyFact) → claims n bytes fact ≡ (is_over n fact && holds set.now fact)) }
    ensures fit { IfOk result (BitsFit n) }
{
    let count = count_of(n);
    let mut bytes = Vec::with_capacity(alloc, count)?;
    let mut next = first_place();
    for _at in 0..count {
        let found = byte_of(set, n, next);
        bytes.push(found.byte)?;
        next = found.next;
    }
    Ok(Items::new(bytes))
}
