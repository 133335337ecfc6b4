// The tables of words, and texts of words.

use rc_syntax::word::{Key, Mark, Text};
use std::alloc::{AllocError, Global};
use std::test::Fail;

/// Whether the spelling of a key is read as that key, and begins with no mark.
fn is_key_alone(key: Key) -> bool {
    let spelling = key.spelling();
    match Key::named(spelling) {
        Some(found) => found == key && Mark::at_front(spelling).is_none(),
        None => false,
    }
}

/// Whether the spelling of a mark is read as that mark, and is no key.
fn is_mark_alone(mark: Mark) -> bool {
    let spelling = mark.spelling();
    match Mark::at_front(spelling) {
        Some(found) => found == mark && Key::named(spelling).is_none(),
        None => false,
    }
}

/// The first of the keys whose spelling isn't read back, if there is one.
fn first_misread_key(keys: &[Key]) -> Option<usize> {
    for (place, key) in keys.iter().enumerate() {
        if !is_key_alone(*key) {
            return Some(place);
        }
    }
    None
}

/// The first of the marks whose spelling isn't read back, if there is one.
fn first_misread_mark(marks: &[Mark]) -> Option<usize> {
    for (place, mark) in marks.iter().enumerate() {
        if !is_mark_alone(*mark) {
            return Some(place);
        }
    }
    None
}

/// Whether the mark at the front of a text is spelled so.
fn begins_with(text: &[u8], spelling: &[u8]) -> bool {
    match Mark::at_front(text) {
        Some(mark) => mark.spelling() == spelling,
        None => false,
    }
}

#[test]
fn spellings_are_read_back(rt: HostRuntime) -> Result<(), Fail> {
    assert_eq!(rt; Key::all().len(), 43);
    assert_eq!(rt; first_misread_key(Key::all()), None);
    assert_eq!(rt; Mark::all().len(), 45);
    assert_eq!(rt; first_misread_mark(Mark::all()), None);
    assert!(rt; Key::named(b"Int").is_none());
    assert!(rt; begins_with(b">>==", b">>="));
    Ok(())
}

/// Whether a text has its bytes, and so has one that shares them.
fn keeps_its_bytes(alloc: Global) -> Result<bool, AllocError> {
    let bytes: &[u8] = &[0, 255, 10];
    let text = Text::new(bytes.to_vec(alloc)?)?;
    let shared = text.share()?;
    Ok(text.as_slice() == bytes && shared.as_slice() == bytes)
}

#[test]
fn a_text_keeps_its_bytes(rt: HostRuntime) -> Result<(), Fail> {
    assert!(rt; keeps_its_bytes(rt.alloc())?);
    Ok(())
}
