// Comparing the rows of files.
use crate::found::Found;
use crate::reading::rows_of;
use crate::row::Row;
use std::process::ExitCode;
use std::{env, fs, io};

/// Compares the rows of a file, prints how many there are and how many differ, and answers the latter.
fn compare_file<R: Row>(rt: &HostRuntime, file: &str) -> io::Result<u64> {
    let text = fs::read_to_string(rt, file)?;
    let rows = rows_of::<R>(rt, file, text.as_str())?;
    let mut found = Found::none();
    for row in rows.iter() {
        found = found.and(row.compare(rt, file)?);
    }
    let count = rows.len();
    let Found { tried, differ } = found;
    let name = R::tried();
    if name.is_empty() {
        println!(rt; "{file}: {count} rows, {differ} differ")?;
    } else {
        println!(rt; "{file}: {count} rows, {tried} {name}, {differ} differ")?;
    }
    Ok(differ)
}

/// Compares the rows of the files that the arguments name, or of these where there are none, and answers
/// how many differ.
fn differing<R: Row>(rt: &HostRuntime, files: &[&str]) -> io::Result<u64> {
    let mut differ = 0u64;
    let mut chosen = false;
    for file in env::args(rt)?.skip(1) {
        chosen = true;
        differ = differ.saturating_add(compare_file::<R>(rt, file.as_str())?);
    }
    if !chosen {
        for file in files {
            differ = differ.saturating_add(compare_file::<R>(rt, file)?);
        }
    }
    Ok(differ)
}

/// Compares the rows of the files that the arguments name, or of these where there are none. It is a
/// success where none differs.
pub fn compare_files<R: Row>(rt: &HostRuntime, files: &[&str]) -> ExitCode {
    match differing::<R>(rt, files) {
        Ok(0) => ExitCode::SUCCESS,
        Ok(_) => ExitCode::FAILURE,
        Err(error) => {
            let _ = println!(rt; "{error}");
            ExitCode::FAILURE
        }
    }
}
