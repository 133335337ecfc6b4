//! Compares what the runs of images come to with what they must, row by row, over each of the heaps.
//!
//! The rows stand in files of `data/`, as rc_row_files says. Their keys are:
//!
//! | Key | What it gives |
//! |---|---|
//! | `image` | the bytes, in hexadecimal |
//! | `input` | the bytes of the input, in hexadecimal |
//! | `turns`, `regions`, `blocks` | the limits, in place of 100,000,000, 4,294,967,295 and as many |
//! | `room` | how many bytes the output takes, in place of 4,096 |
//! | `reads`, `writes` | the numbers of the calls that fail, from 0, with a blank between two |
//! | `out` | the bytes that are written, in hexadecimal |
//! | `left` | how many bytes of the input are left; without it that is not asked |
//! | `answer` | what the run comes to, as `{:?}` prints it |
//!
//! Arguments choose files in place of all. A row that differs is a line, and then the status is 1.
#![tactic(auto)]

mod row;
mod running;

use rc_row_files::compare_files;
use row::Row;
use std::process::ExitCode;

const FILES: [&str; 5] = [
    "ends.rows",
    "rounds.rows",
    "stale.rows",
    "outside.rows",
    "programs.rows",
];

fn main(rt: HostRuntime) -> ExitCode {
    compare_files::<Row>(&rt, &FILES)
}
