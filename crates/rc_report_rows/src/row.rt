// A row.
use rc_reports::{inspect, report_text};
use rc_row_files::{Found, push_line, unread};
use std::alloc::{AllocError, Global};
use std::io;

/// A program's text, and the report that it must have.
#[derive(Drop)]
pub(crate) struct Row {
    name: String,
    text: String,
    report: String,
}

/// Whether the report of a row's program is another than the row says, which is then told.
fn differs(rt: &HostRuntime, file: &str, row: &Row) -> io::Result<bool> {
    let alloc = rt.alloc();
    let name = &row.name;
    let Ok(entries) = inspect(alloc, row.text.as_bytes()) else {
        println!(rt; "{file}, {name}: no report")?;
        return Ok(true);
    };
    let Ok(report) = report_text(alloc, entries.as_slice()) else {
        println!(rt; "{file}, {name}: no memory")?;
        return Ok(true);
    };
    if report.as_slice() == row.report.as_bytes() {
        return Ok(false);
    }
    let report = String::from_utf8_lossy(alloc, &report)?;
    println!(rt; "{file}, {name}: the report is {report:?}")?;
    Ok(true)
}

impl rc_row_files::Row for Row {
    fn new(alloc: Global, name: &str) -> Result<Row, AllocError> {
        Ok(Row {
            name: String::from_str(alloc, name)?,
            text: String::new(alloc),
            report: String::new(alloc),
        })
    }

    fn take(&mut self, _alloc: Global, key: &str, value: &str) -> io::Result<()> {
        match key {
            "line" => push_line(&mut self.text, value),
            "report" => push_line(&mut self.report, value),
            _ => unread(),
        }
    }

    fn compare(&self, rt: &HostRuntime, file: &str) -> io::Result<Found> {
        Ok(Found::one(differs(rt, file, self)?))
    }
}
