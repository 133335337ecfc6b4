// What a call came to beside what it must come to.
use crate::behind::{Seen, is_same};
use crate::calling::{Came, make_call};
use crate::file::{File, under};
use crate::row::{Call, Row, STORED, Wanted};
use rc_base::Drawer;
use std::io;

/// A row's call with these words, and the file that the row stands in.
#[derive(Clone, Copy)]
pub(crate) struct Asked<'a> {
    pub(crate) file: &'a str,
    pub(crate) row: &'a Row,
    pub(crate) words: &'a [String],
}

/// What a call must come to.
#[derive(Clone, Copy)]
pub(crate) struct Must<'a> {
    pub(crate) answer: &'a str,
    pub(crate) status: u8,
    pub(crate) out: &'a [u8],
    /// Whether any front of these bytes will do.
    pub(crate) any_front: bool,
    pub(crate) err: &'a [u8],
    /// The files that hold other bytes afterwards than before.
    pub(crate) files: &'a [File],
    /// What is seen of the heap, where that is asked.
    pub(crate) heap: Option<&'a Seen>,
}

impl<'a> Must<'a> {
    /// What a row wants.
    pub(crate) fn of(wanted: &'a Wanted) -> Must<'a> {
        Must {
            answer: wanted.answer.as_str(),
            status: wanted.status,
            out: wanted.out.as_slice(),
            any_front: false,
            err: wanted.err.as_slice(),
            files: wanted.files.as_slice(),
            heap: asked_of(&wanted.heap),
        }
    }
}

/// What is wanted of the heap, where that is asked.
fn asked_of(heap: &Seen) -> Option<&Seen> {
    if heap.room.is_empty() {
        return None;
    }
    Some(heap)
}

/// The first of some bytes, so many as there are.
pub(crate) fn front(bytes: &[u8], length: usize) -> &[u8] {
    match bytes.get(..length) {
        Some(first) => first,
        None => bytes,
    }
}

fn same_bytes(a: &[u8], b: &[u8]) -> bool {
    a == b
}

fn is_other_out(out: &[u8], must: Must<'_>) -> bool {
    let wanted = if must.any_front {
        front(must.out, out.len())
    } else {
        must.out
    };
    !same_bytes(out, wanted)
}

fn is_other_heap(heap: &Seen, must: Must<'_>) -> bool {
    match must.heap {
        Some(wanted) => !is_same(heap, wanted),
        None => false,
    }
}

/// Whether a call came to another thing than it must, but for the files.
fn is_other(came: &Came, must: Must<'_>) -> bool {
    if came.status != must.status {
        return true;
    }
    if came.answer.as_str() != must.answer {
        return true;
    }
    if is_other_out(came.outside.out.taken(), must) {
        return true;
    }
    if !same_bytes(came.outside.err.taken(), must.err) {
        return true;
    }
    is_other_heap(&came.heap, must)
}

/// The files behind a call, those that there were before, and those that must hold other bytes.
#[derive(Clone, Copy)]
struct Shelves<'a> {
    after: &'a Drawer,
    before: &'a [File],
    changed: &'a [File],
}

/// Whether something else stands under a name than must. A file that isn't changed is as it was, and there
/// is no other one.
fn is_other_under(shelves: &Shelves<'_>, name: &str) -> bool {
    let wanted = match under(shelves.changed, name) {
        Some(bytes) => Some(bytes),
        None => under(shelves.before, name),
    };
    shelves.after.file(name) != wanted
}

/// The first name of these files under which something else stands than must.
fn other_file<'a>(shelves: &Shelves<'_>, files: &'a [File]) -> Option<&'a str> {
    for file in files {
        if is_other_under(shelves, file.name.as_str()) {
            return Some(file.name.as_str());
        }
    }
    None
}

/// The same of these words as names.
fn other_word<'a>(shelves: &Shelves<'_>, words: &'a [String]) -> Option<&'a str> {
    for word in words {
        if is_other_under(shelves, word.as_str()) {
            return Some(word.as_str());
        }
    }
    None
}

/// The first name under which something else stands than must, of those that the row has and the words of
/// the call.
fn other_name<'a>(after: &Drawer, asked: Asked<'a>, must: Must<'a>) -> Option<&'a str> {
    let before = asked.row.files.as_slice();
    let changed = must.files;
    let shelves = Shelves {
        after,
        before,
        changed,
    };
    if let Some(name) = other_file(&shelves, before) {
        return Some(name);
    }
    if let Some(name) = other_file(&shelves, changed) {
        return Some(name);
    }
    if is_other_under(&shelves, STORED) {
        return Some(STORED);
    }
    other_word(&shelves, asked.words)
}

/// Prints what a call came to.
fn print(rt: &HostRuntime, asked: Asked<'_>, came: &Came) -> io::Result<()> {
    let file = asked.file;
    let name = asked.row.name.as_str();
    let words = asked.words;
    let answer = came.answer.as_str();
    let status = came.status;
    println!(rt; "{file}: {name}: {words:?}: {answer} {status}")?;
    let out = came.outside.out.taken();
    let err = came.outside.err.taken();
    println!(rt; "  {out:?} {err:?}")
}

/// Prints what is seen of the heap, and what stands under a name.
fn print_behind(rt: &HostRuntime, came: &Came, name: Option<&str>) -> io::Result<()> {
    let live = came.heap.live.as_slice();
    let held = came.heap.held.as_slice();
    let room = came.heap.room.as_slice();
    println!(rt; "  heap {room:?}, live {live:?}, held {held:?}")?;
    let Some(name) = name else {
        return Ok(());
    };
    let bytes = came.outside.files.file(name);
    println!(rt; "  {name}: {bytes:?}")
}

/// Makes a call in which these calls of the outside fail, and answers whether it comes to another thing than
/// it must, which it then prints.
pub(crate) fn differs(
    rt: &HostRuntime,
    asked: Asked<'_>,
    failing: &[Call],
    must: Must<'_>,
) -> io::Result<bool> {
    let came = make_call(rt.alloc(), asked.row, asked.words, failing)?;
    let name = other_name(&came.outside.files, asked, must);
    if name.is_none() && !is_other(&came, must) {
        return Ok(false);
    }
    print(rt, asked, &came)?;
    print_behind(rt, &came, name)?;
    Ok(true)
}
