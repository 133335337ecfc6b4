// Each call of the outside fails in turn.
use crate::comparing::{Asked, Must, differs, front};
use crate::file::File;
use crate::row::{Call, Row, Side};
use rc_row_files::Found;
use std::io;

/// The status of a fault.
const FAULT: u8 = 124;

/// The answer where a call of this side fails.
fn answer_of(side: Side) -> &'static str {
    match side {
        Side::Files => "Err(FileFault)",
        Side::Input => "Err(ReadFault)",
        Side::Output => "Err(WriteFault)",
        Side::Errors => "Err(ErrFault)",
    }
}

/// What of the row's output is written where this call fails.
fn out_of(row: &Row, call: Call) -> &[u8] {
    let out = row.wanted.out.as_slice();
    match call.side {
        Side::Files => &[],
        Side::Input => out,
        Side::Output => front(out, call.number as usize),
        Side::Errors => out,
    }
}

/// What is told then. An error stream that fails takes what was to be told of the row's answer, up to the
/// byte that fails.
fn told(row: &Row, call: Call) -> &[u8] {
    match call.side {
        Side::Files => b"rc: file fault\n",
        Side::Input => b"rc: read fault\n",
        Side::Output => b"rc: write fault\n",
        Side::Errors => front(row.wanted.err.as_slice(), call.number as usize),
    }
}

/// The files that are then changed. The error stream is called behind all that is done.
fn changed(row: &Row, side: Side) -> &[File] {
    match side {
        Side::Errors => row.wanted.files.as_slice(),
        _ => &[],
    }
}

/// What a row's call must come to where this call of the outside fails. A failing read may come behind any
/// front of the row's output.
fn must_fail(row: &Row, call: Call) -> Must<'_> {
    Must {
        answer: answer_of(call.side),
        status: FAULT,
        out: out_of(row, call),
        any_front: call.side == Side::Input,
        err: told(row, call),
        files: changed(row, call.side),
        heap: None,
    }
}

/// Makes a call in which this call of the outside fails alone, and answers whether it differs from what it
/// must come to.
fn differs_at(rt: &HostRuntime, asked: Asked<'_>, call: Call) -> io::Result<bool> {
    differs(rt, asked, &[call], must_fail(asked.row, call))
}

/// Makes a call so many times, in each with another one of the first calls of this side failing.
fn differing_at(rt: &HostRuntime, asked: Asked<'_>, side: Side, calls: u64) -> io::Result<Found> {
    let mut found = Found::none();
    for number in 0..calls {
        let differs = differs_at(rt, asked, Call { side, number })?;
        found = found.and(Found::one(differs));
    }
    Ok(found)
}

/// Makes a call again with each of its calls of the outside failing alone; and then with the first call of
/// each side that is not to be made, which must change nothing.
pub(crate) fn differing_in_turn(rt: &HostRuntime, asked: Asked<'_>) -> io::Result<Found> {
    let row = asked.row;
    let mut found = Found::none();
    for next in row.each.iter() {
        found = found.and(differing_at(rt, asked, next.side, next.number)?);
    }
    let behind = differs(rt, asked, row.each.as_slice(), Must::of(&row.wanted))?;
    Ok(found.and(Found::one(behind)))
}
