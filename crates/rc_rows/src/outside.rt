// The objects over which a call is made.
use crate::file::File;
use crate::row::{Call, Row, Side};
use rc_base::{Buffer, Bytes, Drawer, NoMemory, Shelf};
use std::alloc::{AllocError, Global};
use std::io::{self, ErrorKind};

/// How many bytes the error stream takes.
const ERROR_ROOM: u32 = 256;

/// The objects over which a call is made, but for the heap.
#[derive(Drop)]
pub(crate) struct Outside {
    pub(crate) files: Drawer,
    pub(crate) input: Bytes,
    pub(crate) out: Buffer,
    pub(crate) err: Buffer,
}

/// There is no memory.
pub(crate) fn no_memory<T>() -> io::Result<T> {
    Err(io::Error::from(ErrorKind::OutOfMemory))
}

/// The numbers of the calls of a side, behind so many that come before.
fn numbers_of(
    alloc: Global,
    calls: &[Call],
    side: Side,
    before: usize,
) -> Result<Vec<u64>, AllocError> {
    let mut numbers = Vec::new(alloc);
    for call in calls {
        if call.side == side {
            numbers.push(call.number.saturating_add(before as u64))?;
        }
    }
    Ok(numbers)
}

/// A shelf of these files. It stores them by its first calls, behind which those that fail are counted.
fn shelf(alloc: Global, files: &[File], failing: &[Call]) -> io::Result<Drawer> {
    let fails = numbers_of(alloc, failing, Side::Files, files.len())?;
    let none = Vec::new(alloc);
    let mut shelf = Drawer::new(alloc, none, fails);
    for file in files {
        let Ok(()) = shelf.store(alloc, file.name.as_str(), file.bytes.as_slice()) else {
            return no_memory();
        };
    }
    Ok(shelf)
}

fn source(alloc: Global, bytes: &[u8], failing: &[Call]) -> Result<Bytes, AllocError> {
    let fails = numbers_of(alloc, failing, Side::Input, 0)?;
    Ok(Bytes::new(bytes.to_vec(alloc)?, fails))
}

/// A sink with room for so many bytes.
fn sink(alloc: Global, room: u32, failing: &[Call], side: Side) -> io::Result<Buffer> {
    let fails = numbers_of(alloc, failing, side, 0)?;
    match Buffer::new(alloc, room, fails) {
        Ok(sink) => Ok(sink),
        Err(NoMemory) => no_memory(),
    }
}

/// The objects of a row, where these calls of the outside fail.
pub(crate) fn outside_of(alloc: Global, row: &Row, failing: &[Call]) -> io::Result<Outside> {
    let files = shelf(alloc, row.files.as_slice(), failing)?;
    let input = source(alloc, row.input.as_slice(), failing)?;
    let out = sink(alloc, row.room, failing, Side::Output)?;
    let err = sink(alloc, ERROR_ROOM, failing, Side::Errors)?;
    Ok(Outside {
        files,
        input,
        out,
        err,
    })
}
