//! Compares what reading, loading, listing and writing answer with what they must, row by row.
//!
//! The rows stand in files of `data/`, as rc_row_files says. Their keys are:
//!
//! | Key | What it gives |
//! |---|---|
//! | `image` | the bytes, in hexadecimal |
//! | `answer` | what reading and then loading come to, as `{:?}` prints it, or `Loaded` |
//! | `list` | a line of the listing |
//! | `written` | the bytes that the image has in version 2, in hexadecimal |
//!
//! Each image that is read is written again in both versions, and read again. Then, in each file whose
//! name begins with `sweep`, each proper prefix of the image must be `Short`, and each byte of it is
//! changed, taken away and doubled: what is read then is written as it was.
//!
//! Arguments choose files in place of all. A row that differs is a line, and then the status is 1.
#![tactic(auto)]

mod asking;
mod listing;
mod row;
mod sweep;

use rc_row_files::compare_files;
use row::Row;
use std::process::ExitCode;

const FILES: [&str; 3] = ["read.rows", "load.rows", "sweep.rows"];

fn main(rt: HostRuntime) -> ExitCode {
    compare_files::<Row>(&rt, &FILES)
}
