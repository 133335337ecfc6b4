// Rows, read from the text of a file.
use crate::row::Row;
use crate::values::unread;
use std::alloc::Global;
use std::io;

/// Takes a line: it begins a row, or says something of the last one.
fn take_line<R: Row>(alloc: Global, rows: &mut Vec<R>, line: &str) -> io::Result<()> {
    if line.is_empty() || line.starts_with('#') {
        return Ok(());
    }
    let (key, value) = line.split_once(' ').unwrap_or((line, ""));
    if key == "row" {
        rows.push(R::new(alloc, value)?)?;
        return Ok(());
    }
    match rows.as_mut_slice() {
        [.., before, row] if key == "same" => row.take_same(before),
        [.., row] => row.take(alloc, key, value),
        [] => unread(),
    }
}

/// The rows of a file's text. A line that can't be read is printed, and is an error.
pub(crate) fn rows_of<R: Row>(rt: &HostRuntime, file: &str, text: &str) -> io::Result<Vec<R>> {
    let mut rows = Vec::new(rt.alloc());
    for (before, line) in text.split('\n').enumerate() {
        if let Err(error) = take_line(rt.alloc(), &mut rows, line) {
            println!(rt; "{file}: cannot read {line:?}, which stands after {before} lines")?;
            return Err(error);
        }
    }
    Ok(rows)
}
