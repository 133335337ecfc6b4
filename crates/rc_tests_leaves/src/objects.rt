// Each object in memory with calls that succeed and calls that are to fail, and the numbers of the ends.
ghost use Rattle.std.specs.Prelude.{◌≡◌, ◌+◌, ◌<◌};

use rc_base::{
    Buffer, Bytes, Discard, Drawer, Failed, Octets, Piece, RunFault, Shelf, ShelfFault, Sink,
    Source, Steps, Trap, write_all,
};
use std::alloc::{AllocError, Global};
use std::marker::Brand;
use std::sync::ledger::{Blank, Ledger};
use std::test::Fail;

/// Two bytes are read, and after them the end, as often as it is asked for; calls that fail lose nothing.
fn source_loses_nothing(alloc: Global) -> Result<bool, AllocError> {
    let bytes = Vec::from_array(alloc, [7, 255])?;
    let fails = Vec::from_array(alloc, [1, 3])?;
    let mut source = Bytes::new(bytes, fails);
    Ok(
        source.next() == Ok(Some(7))
            && source.next() == Err(Failed)
            && source.next() == Ok(Some(255))
            && source.next() == Err(Failed)
            && source.next() == Ok(None)
            && source.next() == Ok(None),
    )
}

#[test]
fn a_source_loses_nothing_and_stays_ended(rt: HostRuntime) -> Result<(), Fail> {
    assert!(rt; source_loses_nothing(rt.alloc())?);
    Ok(())
}

/// A sink with room for two bytes takes no third one, and none in a call that is to fail.
fn full_buffer_keeps_its_bytes(alloc: Global) -> Result<bool, Fail> {
    let fails = Vec::from_array(alloc, [1])?;
    let mut buffer = Buffer::new(alloc, 2, fails)?;
    Ok(
        buffer.put(10) == Ok(())
            && buffer.put(11) == Err(Failed)
            && buffer.put(12) == Ok(())
            && buffer.put(13) == Err(Failed)
            && buffer.put(14) == Err(Failed)
            && buffer.flush() == Ok(())
            && buffer.taken() == [10, 12].as_slice(),
    )
}

#[test]
fn a_full_buffer_keeps_its_bytes(rt: HostRuntime) -> Result<(), Fail> {
    assert!(rt; full_buffer_keeps_its_bytes(rt.alloc())?);
    Ok(())
}

/// After a flush that fails the sink goes on.
fn failed_flush_is_passed(alloc: Global) -> Result<bool, Fail> {
    let fails = Vec::from_array(alloc, [1])?;
    let mut buffer = Buffer::new(alloc, 4, fails)?;
    Ok(
        buffer.put(1) == Ok(())
            && buffer.flush() == Err(Failed)
            && buffer.flush() == Ok(())
            && buffer.put(2) == Ok(())
            && buffer.taken() == [1, 2].as_slice(),
    )
}

#[test]
fn a_failed_flush_is_passed(rt: HostRuntime) -> Result<(), Fail> {
    assert!(rt; failed_flush_is_passed(rt.alloc())?);
    Ok(())
}

/// The third of four bytes isn't taken, and the fourth isn't tried.
fn writing_stops(alloc: Global) -> Result<bool, Fail> {
    let fails = Vec::from_array(alloc, [2])?;
    let mut buffer = Buffer::new(alloc, 8, fails)?;
    Ok(
        write_all(&mut buffer, b"abcd") == Err(Failed)
            && buffer.taken() == b"ab".as_slice()
            && write_all(&mut buffer, b"xyz") == Ok(())
            && buffer.taken() == b"abxyz".as_slice(),
    )
}

#[test]
fn writing_stops_at_the_first_failing_put(rt: HostRuntime) -> Result<(), Fail> {
    assert!(rt; writing_stops(rt.alloc())?);
    let mut discard = Discard::new();
    assert!(rt; write_all(&mut discard, b"abcd") == Ok(()) && discard.flush() == Ok(()));
    Ok(())
}

/// A shelf with these bytes under the name `a.rc`.
fn with_one_file(alloc: Global, bytes: &[u8], fails: Vec<u64>) -> Result<Drawer, AllocError> {
    let name = String::from_str(alloc, "a.rc")?;
    let files = Vec::from_array(alloc, [(name, bytes.to_vec(alloc)?)])?;
    Ok(Drawer::new(alloc, files, fails))
}

/// Whether these bytes stand under the name.
fn has(drawer: &Drawer, name: &str, bytes: &[u8]) -> bool {
    match drawer.file(name) {
        Some(file) => file == bytes,
        None => false,
    }
}

/// Whether a load gave these bytes, and said of them whether they are the whole file.
fn gave(answer: Result<Piece, ShelfFault>, bytes: &[u8], whole: bool) -> bool {
    match answer {
        Ok(piece) => piece.bytes.as_slice() == bytes && piece.whole == whole,
        Err(_) => false,
    }
}

/// Whether a load gave this fault.
fn failed(answer: Result<Piece, ShelfFault>, fault: ShelfFault) -> bool {
    match answer {
        Ok(_) => false,
        Err(given) => given == fault,
    }
}

/// A file is loaded in part and whole, another is stored, and the first is replaced.
fn files_are_kept(alloc: Global) -> Result<bool, AllocError> {
    let mut drawer = with_one_file(alloc, &[1, 2, 3], Vec::new(alloc))?;
    Ok(
        gave(drawer.load(alloc, "a.rc", 2), &[1, 2], false)
            && gave(drawer.load(alloc, "a.rc", 3), &[1, 2, 3], true)
            && gave(drawer.load(alloc, "a.rc", 0), &[], false)
            && failed(drawer.load(alloc, "a.r", 3), ShelfFault::Absent)
            && drawer.store(alloc, "b.rc", &[9]) == Ok(())
            && drawer.store(alloc, "a.rc", &[4, 5]) == Ok(())
            && has(&drawer, "a.rc", &[4, 5])
            && has(&drawer, "b.rc", &[9])
            && drawer.file("c.rc").is_none()
            && gave(drawer.load(alloc, "b.rc", u32::MAX), &[9], true),
    )
}

#[test]
fn a_shelf_gives_fronts_and_replaces_files(rt: HostRuntime) -> Result<(), Fail> {
    assert!(rt; files_are_kept(rt.alloc())?);
    Ok(())
}

/// A store and a load that are to fail change nothing; a load of a missing name is no such call.
fn failing_calls_change_no_file(alloc: Global) -> Result<bool, AllocError> {
    let fails = Vec::from_array(alloc, [0, 2])?;
    let mut drawer = with_one_file(alloc, &[1], fails)?;
    Ok(
        drawer.store(alloc, "a.rc", &[2]) == Err(ShelfFault::Failed)
            && failed(drawer.load(alloc, "b.rc", 1), ShelfFault::Absent)
            && failed(drawer.load(alloc, "a.rc", 1), ShelfFault::Failed)
            && has(&drawer, "a.rc", &[1])
            && gave(drawer.load(alloc, "a.rc", 1), &[1], true),
    )
}

#[test]
fn a_failing_shelf_changes_no_file(rt: HostRuntime) -> Result<(), Fail> {
    assert!(rt; failing_calls_change_no_file(rt.alloc())?);
    Ok(())
}

#[test]
fn octets_are_the_list(rt: HostRuntime) -> Result<(), Fail> {
    let octets = Octets::new(Vec::from_array(rt.alloc(), [3, 0, 255])?);
    assert!(rt; octets.as_slice() == [3, 0, 255].as_slice());
    Ok(())
}

/// Two steps, counted one by one.
fn tick_twice<L: Ledger>(steps: &mut Steps<L>)
    ensures { steps.new ≡ steps.old + 2 }
{
    steps.tick();
    steps.tick();
}

/// The bytes that a counter takes after two steps.
fn size_after_two<L: Ledger>(blank: Blank) -> usize
    requires name { blank.name ≡ L.name }
    requires parts { blank.parts ≡ L.parts }
    requires some { 0 < L.parts }
{
    let mut steps = Steps::<L>::start(blank);
    tick_twice(&mut steps);
    size_of_val(&steps)
}

#[test]
fn steps_take_no_bytes(rt: HostRuntime) {
    let size = size_after_two::<Brand>(Blank::new(1));
    assert!(rt; size == 0);
}

#[test]
fn ends_have_the_numbers_of_their_messages(rt: HostRuntime) {
    let traps = [
        Trap::Null,
        Trap::Bounds,
        Trap::Size,
        Trap::Zero,
        Trap::Overflow,
        Trap::Shift,
        Trap::SameRegion,
        Trap::ParentPtr,
        Trap::Traditional,
        Trap::Root,
        Trap::Subregion,
        Trap::Reference,
        Trap::Full,
    ];
    for (before, trap) in traps.into_iter().enumerate() {
        assert!(rt; trap as usize == before + 1, "{trap:?}");
    }
    assert!(rt; RunFault::ReadFault as i32 == 26 && RunFault::WriteFault as i32 == 27);
}
