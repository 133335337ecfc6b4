// What the keys of a row give.
use crate::file::{File, push_file, push_under};
use crate::piece::{push_piece, push_pieces};
use crate::row::{Call, FIRST, Row, SIDES, STORED, Side, Wanted};
use rc_row_files::{number, numbers, small_number, unread};
use std::alloc::Global;
use std::io;

/// What is told where words ask nothing.
const USAGE: &[u8] =
    b"usage: rc run FILE | compile FILE IMAGE | exec IMAGE | checks FILE | list IMAGE | slow FILE | soak N | upgrade IMAGE IMAGE | heap FILE | tasks FILE CHOICES | link IMAGE FILE | seal IMAGE IMAGE\n";

/// The status where words ask nothing.
const USAGE_STATUS: u8 = 123;

/// Takes the words, with a blank between two of them. `""` is the empty word.
fn take_words(alloc: Global, words: &mut Vec<String>, list: &str) -> io::Result<()> {
    if list.is_empty() {
        return Ok(());
    }
    for word in list.split(' ') {
        let word = if word == "\"\"" { "" } else { word };
        words.push(String::from_str(alloc, word)?)?;
    }
    Ok(())
}

/// Takes the numbers of calls of a side.
fn take_calls(calls: &mut Vec<Call>, side: Side, list: &str) -> io::Result<()> {
    for word in list.split(' ') {
        let number = number(word)?;
        calls.push(Call { side, number })?;
    }
    Ok(())
}

/// Takes how many calls are made of each side.
fn take_each(alloc: Global, each: &mut Vec<Call>, list: &str) -> io::Result<()> {
    let numbers = numbers(alloc, list)?;
    if numbers.len() != SIDES.len() {
        return unread();
    }
    for (side, number) in SIDES.iter().zip(numbers.as_slice()) {
        each.push(Call {
            side: *side,
            number: *number,
        })?;
    }
    Ok(())
}

fn take_room(room: &mut u32, value: &str) -> io::Result<()> {
    *room = small_number(value)?;
    Ok(())
}

fn take_numbers(alloc: Global, list: &mut Vec<u64>, value: &str) -> io::Result<()> {
    *list = numbers(alloc, value)?;
    Ok(())
}

fn take_answer(alloc: Global, answer: &mut String, value: &str) -> io::Result<()> {
    *answer = String::from_str(alloc, value)?;
    Ok(())
}

fn take_status(status: &mut u8, value: &str) -> io::Result<()> {
    *status = number(value)?.min(255) as u8;
    Ok(())
}

/// Takes what words come to that ask nothing.
fn take_usage(alloc: Global, wanted: &mut Wanted) -> io::Result<()> {
    wanted.status = USAGE_STATUS;
    wanted.err.extend_from_slice(USAGE)?;
    take_answer(alloc, &mut wanted.answer, "Ok(Usage)")
}

/// Takes a name and a piece of what is to stand under it.
fn take_under(alloc: Global, files: &mut Vec<File>, value: &str) -> io::Result<()> {
    let (name, piece) = value.split_once(' ').unwrap_or((value, ""));
    push_under(alloc, files, name, piece)
}

/// Takes what a key gives of what each call must come to.
fn take_wanted(alloc: Global, wanted: &mut Wanted, key: &str, value: &str) -> io::Result<()> {
    match key {
        "answer" => take_answer(alloc, &mut wanted.answer, value),
        "status" => take_status(&mut wanted.status, value),
        "out" => push_piece(&mut wanted.out, value),
        "out*" => push_pieces(&mut wanted.out, value),
        "err" => push_piece(&mut wanted.err, value),
        "usage" => take_usage(alloc, wanted),
        "file" => push_under(alloc, &mut wanted.files, FIRST, value),
        "stored" => push_under(alloc, &mut wanted.files, STORED, value),
        "under" => take_under(alloc, &mut wanted.files, value),
        "heap" => take_numbers(alloc, &mut wanted.heap.room, value),
        "live" => take_numbers(alloc, &mut wanted.heap.live, value),
        "held" => take_numbers(alloc, &mut wanted.heap.held, value),
        _ => unread(),
    }
}

/// Takes a piece, and puts a line feed after it.
fn take_line(text: &mut Vec<u8>, value: &str) -> io::Result<()> {
    push_piece(text, value)?;
    Ok(text.push(b'\n')?)
}

/// Takes what a key gives of the text of the last file.
fn take_text(files: &mut [File], key: &str, value: &str) -> io::Result<()> {
    let [.., file] = files else {
        return unread();
    };
    match key {
        "text" => push_piece(&mut file.bytes, value),
        "text*" => push_pieces(&mut file.bytes, value),
        _ => take_line(&mut file.bytes, value),
    }
}

/// Takes what a key gives of what the calls are given.
fn take_given(alloc: Global, row: &mut Row, key: &str, value: &str) -> io::Result<()> {
    match key {
        "text" | "text*" | "line" => take_text(row.files.as_mut_slice(), key, value),
        "named" => Ok(push_file(alloc, &mut row.files, value)?),
        "input" => push_piece(&mut row.input, value),
        "input*" => push_pieces(&mut row.input, value),
        "each" => take_each(alloc, &mut row.each, value),
        "room" => take_room(&mut row.room, value),
        _ => take_wanted(alloc, &mut row.wanted, key, value),
    }
}

/// Takes what a key gives.
pub(crate) fn take(alloc: Global, row: &mut Row, key: &str, value: &str) -> io::Result<()> {
    match key {
        "words" => {
            row.both = false;
            take_words(alloc, &mut row.words, value)
        }
        "options" => take_words(alloc, &mut row.words, value),
        "files" => take_calls(&mut row.failing, Side::Files, value),
        "reads" => take_calls(&mut row.failing, Side::Input, value),
        "writes" => take_calls(&mut row.failing, Side::Output, value),
        "errors" => take_calls(&mut row.failing, Side::Errors, value),
        _ => take_given(alloc, row, key, value),
    }
}
