// Sets of numbers below 128 worked by hand.
use rc_base::BitSet;
use std::test::Fail;

/// The numbers that are put in are there, up to the last, and those taken away aren't.
fn numbers_come_and_go() -> bool {
    let none = BitSet::empty();
    let ends = none.with(0).with(127).with(0);
    none.is_empty()
        && !none.contains(0)
        && ends.contains(0)
        && ends.contains(127)
        && !ends.contains(126)
        && !ends.is_empty()
        && ends.without(0).without(5).without(127).is_empty()
}

/// The first numbers, from none to all.
fn first_numbers_are_below() -> bool {
    let three = BitSet::below(3);
    let all = BitSet::below(128);
    BitSet::below(0).is_empty()
        && three.contains(2)
        && !three.contains(3)
        && all.contains(127)
        && three.is_subset(all)
        && !all.is_subset(three)
}

/// Two sets that share a number.
fn sets_are_joined_and_parted() -> bool {
    let one = BitSet::below(3);
    let other = BitSet::empty().with(2).with(100);
    one.union(other) == BitSet::below(3).with(100)
        && one.intersection(other) == BitSet::empty().with(2)
        && one.difference(other) == BitSet::below(2)
        && !one.is_disjoint(other)
        && one.is_disjoint(BitSet::empty().with(100))
        && one.is_subset(one)
}

/// A set is gone over from its least number to its greatest.
fn least_come_first() -> bool {
    let set = BitSet::empty().with(127).with(64).with(3);
    let behind = set.without(3);
    let last = behind.without(64);
    set.least() == Some(3)
        && behind.least() == Some(64)
        && last.least() == Some(127)
        && last.without(127).least().is_none()
}

#[test]
fn small_sets_are_as_by_hand(rt: HostRuntime) -> Result<(), Fail> {
    assert!(rt; numbers_come_and_go());
    assert!(rt; first_numbers_are_below());
    assert!(rt; sets_are_joined_and_parted());
    assert!(rt; least_come_first());
    Ok(())
}
