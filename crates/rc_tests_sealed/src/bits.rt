// Facts over two variables as bits.

use rc_claims::has_fact;
use rc_facts::Fact;
use std::test::Fail;

/// Bits 2, 5, 9 and 10: a region within another, one above another, a traditional one and one that isn't
/// null.
const BYTES: &[u8] = &[0b0010_0100, 0b0000_0110];

/// Whether all four facts are there.
fn all_are_there() -> bool {
    has_fact(BYTES, 2, Fact::In(1, 0))
        && has_fact(BYTES, 2, Fact::Up(0, 1))
        && has_fact(BYTES, 2, Fact::Trad(1))
        && has_fact(BYTES, 2, Fact::NonNull(0))
}

/// Whether one of the same facts on the other variable is there.
fn another_is_there() -> bool {
    has_fact(BYTES, 2, Fact::In(0, 1))
        || has_fact(BYTES, 2, Fact::Up(1, 0))
        || has_fact(BYTES, 2, Fact::Trad(0))
        || has_fact(BYTES, 2, Fact::NonNull(1))
}

/// Whether a fact is there where no bytes are left.
fn one_is_there_behind_the_end() -> bool {
    has_fact(&[], 1, Fact::NonNull(0))
}

#[test]
fn bits_are_facts(rt: HostRuntime) -> Result<(), Fail> {
    assert!(rt; all_are_there());
    assert!(rt; !another_is_there());
    assert!(rt; !one_is_there_behind_the_end());
    Ok(())
}
