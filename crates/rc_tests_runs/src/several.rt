// Texts in several files.
use rc_answers::Fault;
use rc_base::{Drawer, MOST_TEXT_BYTES, Shelf};
use rc_files::{FileText, load_texts};
use std::alloc::Global;
use std::test::Fail;

/// A shelf with the files `first`, `second`, `spare`, which is a byte longer than a text may be, and
/// `long`, which is two bytes longer, of which these calls fail.
fn shelf(alloc: Global, fails: Vec<u64>) -> Result<Drawer, Fail> {
    let mut long = Vec::new(alloc);
    for _ in 0..=MOST_TEXT_BYTES {
        long.push(b' ')?;
    }
    let spare = long.as_slice().to_vec(alloc)?;
    long.push(b' ')?;
    let none = Vec::new(alloc);
    let mut files = Drawer::new(alloc, none, fails);
    files.store(alloc, "first", b"one")?;
    files.store(alloc, "second", b"two")?;
    files.store(alloc, "spare", spare.as_slice())?;
    files.store(alloc, "long", long.as_slice())?;
    Ok(files)
}

/// What comes of loading the files of these names, where the fifth call and those behind it may fail.
fn loaded(
    alloc: Global,
    names: &[&str],
    fails: Vec<u64>,
) -> Result<Result<Vec<FileText>, Fault>, Fail> {
    let mut files = shelf(alloc, fails)?;
    let mut words = Vec::new(alloc);
    for name in names {
        words.push(String::from_str(alloc, name)?)?;
    }
    Ok(load_texts(alloc, &words, &mut files))
}

/// Whether just this was loaded.
fn is_whole(text: &FileText, bytes: &[u8]) -> bool {
    match text {
        FileText::Whole(found) => found.as_slice() == bytes,
        FileText::TooLong => false,
    }
}

/// Whether the whole text has this many bytes.
fn is_of(text: &FileText, bytes: usize) -> bool {
    match text {
        FileText::Whole(found) => found.as_slice().len() == bytes,
        FileText::TooLong => false,
    }
}

/// Texts come in the order of their names, one of them twice. Of a text a byte more is loaded than it
/// may have, so that its rules can refuse it; one that has more still is told as too long.
fn all_are_loaded(alloc: Global) -> Result<bool, Fail> {
    let names = ["second", "long", "first", "spare", "second"];
    let Ok(texts) = loaded(alloc, names.as_slice(), Vec::new(alloc))? else {
        return Ok(false);
    };
    match texts.as_slice() {
        [a, FileText::TooLong, b, spare, c] => {
            let named = is_whole(a, b"two") && is_whole(b, b"one") && is_whole(c, b"two");
            Ok(named && is_of(spare, MOST_TEXT_BYTES as usize + 1))
        }
        _ => Ok(false),
    }
}

/// A file that isn't there is a fault, also behind one that is too long.
fn one_is_missing(alloc: Global) -> Result<bool, Fail> {
    let names = ["first", "long", "none"];
    let came = loaded(alloc, names.as_slice(), Vec::new(alloc))?;
    Ok(matches!(came, Err(Fault::FileFault)))
}

/// The second of two calls fails.
fn one_fails(alloc: Global) -> Result<bool, Fail> {
    let names = ["first", "second"];
    let fails = Vec::from_array(alloc, [5])?;
    let came = loaded(alloc, names.as_slice(), fails)?;
    Ok(matches!(came, Err(Fault::FileFault)))
}

#[test]
fn texts_are_loaded_in_order(rt: HostRuntime) -> Result<(), Fail> {
    assert!(rt; all_are_loaded(rt.alloc())?);
    Ok(())
}

#[test]
fn a_text_that_fails_stops_the_loading(rt: HostRuntime) -> Result<(), Fail> {
    assert!(rt; one_is_missing(rt.alloc())? && one_fails(rt.alloc())?);
    Ok(())
}
