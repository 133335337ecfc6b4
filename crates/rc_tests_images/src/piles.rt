use rc_base::NoMemory;
use rc_pile::{Caller, Pile, Word};
use rc_store::{Cell, Pointer};
use std::alloc::Global;
use std::test::Fail;

/// A call of two locals takes two operands and leaves their sum to its caller, after its room has grown.
fn call_gives_a_sum(alloc: Global) -> Result<bool, NoMemory> {
    let locals = [Word::of_number(7), Word::null()];
    let mut pile = Pile::start(alloc, &locals, 4, 0)?;
    pile.add_room(3)?;
    pile.add_frames(1)?;
    pile.give_number(0, 40);
    pile.give_number(0, 2);
    let had_room = pile.has_room(1) && !pile.has_room(4);
    let caller = Caller {
        function: 3,
        place: 9,
    };
    pile.enter(caller, 2, &[Word::of_region(5)]);
    let full = !pile.has_room(0) && !pile.is_last();
    let sum = pile.local_number(0).wrapping_add(pile.local_number(1));
    let region = pile.local(2).region();
    let back = pile.leave();
    pile.give_number(0, sum);
    Ok(
        had_room
            && full
            && region == 5
            && back == caller
            && pile.number(0) == 42
            && pile.local_number(0) == 7
            && pile.local(1).is_null()
            && pile.is_last(),
    )
}

#[test]
fn a_call_gives_a_sum(rt: HostRuntime) -> Result<(), Fail> {
    assert!(rt; call_gives_a_sum(rt.alloc())?);
    Ok(())
}

/// A pointer at the edges of its numbers, a region, a negative number and null, each through a word.
fn words_keep_values() -> bool {
    let pointer = Pointer {
        region: 4294967295,
        object: 0,
        index: 4294967295,
    };
    let cells = [
        Cell::Pointer(pointer),
        Cell::Region(4294967295),
        Cell::Number(-2147483648),
        Cell::Nothing,
    ];
    for at in 0..4usize {
        let word = Word::of_cell(cells[at]);
        if !word.cell().is(cells[at]) || !word.is_same(word) || word.is_true() != (at != 3) {
            return false;
        }
    }
    !Word::of_region(1).is_same(Word::of_number(1))
}

#[test]
fn words_keep_their_values(rt: HostRuntime) {
    assert!(rt; words_keep_values());
}
