// The calls of a row, each beside what it must come to.
use crate::comparing::{Asked, Must, differs};
use crate::failing::differing_in_turn;
use crate::row::{FIRST, Row};
use rc_row_files::Found;
use std::alloc::{AllocError, Global};
use std::io;

/// Makes a row's call with these words, and again with each call of the outside failing, where the row
/// asks for that.
fn differing_with(rt: &HostRuntime, asked: Asked<'_>) -> io::Result<Found> {
    let row = asked.row;
    let must = Must::of(&row.wanted);
    let found = Found::one(differs(rt, asked, row.failing.as_slice(), must)?);
    if row.each.is_empty() {
        return Ok(found);
    }
    Ok(found.and(differing_in_turn(rt, asked)?))
}

/// The words that ask for the first file with a verb and with these options.
fn asking(alloc: Global, verb: &str, options: &[String]) -> Result<Vec<String>, AllocError> {
    let mut words = Vec::new(alloc);
    for word in [verb, FIRST] {
        words.push(String::from_str(alloc, word)?)?;
    }
    for option in options {
        words.push(option.clone()?)?;
    }
    Ok(words)
}

/// The same with the words that ask for the first file with a verb and with the row's options.
fn differing_by(rt: &HostRuntime, file: &str, row: &Row, verb: &str) -> io::Result<Found> {
    let words = asking(rt.alloc(), verb, row.words.as_slice())?;
    let words = words.as_slice();
    differing_with(rt, Asked { file, row, words })
}

/// Makes the calls of a row.
pub(crate) fn differing(rt: &HostRuntime, file: &str, row: &Row) -> io::Result<Found> {
    if !row.both {
        let words = row.words.as_slice();
        return differing_with(rt, Asked { file, row, words });
    }
    let run = differing_by(rt, file, row, "run")?;
    let slow = differing_by(rt, file, row, "slow")?;
    Ok(run.and(slow))
}
