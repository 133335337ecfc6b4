//! Compares the reports of programs with what they must be, row by row.
//!
//! The rows stand in files of `data/`, as rc_row_files says. Their keys are:
//!
//! | Key | What it gives |
//! |---|---|
//! | `line` | a line of the program's text |
//! | `report` | a line of its report |
//!
//! Arguments choose files in place of all. A row that differs is a line, and then the status is 1.
#![tactic(auto)]

mod row;

use rc_row_files::compare_files;
use row::Row;
use std::process::ExitCode;

const FILES: [&str; 1] = ["reports.rows"];

fn main(rt: HostRuntime) -> ExitCode {
    compare_files::<Row>(&rt, &FILES)
}
