// A row.
use crate::asking::differs;
use crate::sweep::swept;
use rc_row_files::{Found, bytes, push_line, unread};
use std::alloc::{AllocError, Global};
use std::io;

/// An image, and what it must come to. What a row doesn't say is not asked.
#[derive(Drop)]
pub(crate) struct Row {
    pub(crate) name: String,
    pub(crate) image: Vec<u8>,
    pub(crate) answer: String,
    pub(crate) listing: String,
    pub(crate) written: Vec<u8>,
}

fn take_bytes(alloc: Global, list: &mut Vec<u8>, value: &str) -> io::Result<()> {
    *list = bytes(alloc, value)?;
    Ok(())
}

fn take_answer(alloc: Global, answer: &mut String, value: &str) -> io::Result<()> {
    *answer = String::from_str(alloc, value)?;
    Ok(())
}

impl rc_row_files::Row for Row {
    fn tried() -> &'static str {
        "changed images"
    }

    fn new(alloc: Global, name: &str) -> Result<Row, AllocError> {
        Ok(Row {
            name: String::from_str(alloc, name)?,
            image: Vec::new(alloc),
            answer: String::new(alloc),
            listing: String::new(alloc),
            written: Vec::new(alloc),
        })
    }

    fn take(&mut self, alloc: Global, key: &str, value: &str) -> io::Result<()> {
        match key {
            "image" => take_bytes(alloc, &mut self.image, value),
            "written" => take_bytes(alloc, &mut self.written, value),
            "answer" => take_answer(alloc, &mut self.answer, value),
            "list" => push_line(&mut self.listing, value),
            _ => unread(),
        }
    }

    fn compare(&self, rt: &HostRuntime, file: &str) -> io::Result<Found> {
        let found = Found {
            tried: 0,
            differ: u64::from(differs(rt, file, self)?),
        };
        if !file.starts_with("sweep") {
            return Ok(found);
        }
        Ok(found.and(swept(rt, file, self)?))
    }
}
