// A row: what the calls are given, and what each must come to.
use crate::behind::Seen;
use crate::file::{File, push_file, push_files};
use crate::reading::take;
use crate::trying::differing;
use rc_row_files::Found;
use std::alloc::{AllocError, Global};
use std::io;

/// The name of the file that each row has.
pub(crate) const FIRST: &str = "a.c";

/// The name under which the rows of one file store.
pub(crate) const STORED: &str = "b.c";

/// What the outside is made of.
#[derive(Clone, Copy, PartialEq, Eq)]
pub(crate) enum Side {
    Files,
    Input,
    Output,
    Errors,
}

/// All sides, in the order in which a row counts their calls.
pub(crate) const SIDES: [Side; 4] = [Side::Files, Side::Input, Side::Output, Side::Errors];

/// A call of the outside, by its number among those of its side, from 0.
#[derive(Clone, Copy)]
pub(crate) struct Call {
    pub(crate) side: Side,
    pub(crate) number: u64,
}

/// What each call of a row must come to.
#[derive(Drop)]
pub(crate) struct Wanted {
    /// As `{:?}` prints it.
    pub(crate) answer: String,
    pub(crate) status: u8,
    pub(crate) out: Vec<u8>,
    pub(crate) err: Vec<u8>,
    /// The files that hold other bytes afterwards than before.
    pub(crate) files: Vec<File>,
    /// What is seen of the heap; without numbers of its room that is not asked.
    pub(crate) heap: Seen,
}

impl Wanted {
    /// An answer that is nothing, with status 0, and nothing done.
    fn nothing(alloc: Global) -> Wanted {
        Wanted {
            answer: String::new(alloc),
            status: 0,
            out: Vec::new(alloc),
            err: Vec::new(alloc),
            files: Vec::new(alloc),
            heap: Seen::nothing(alloc),
        }
    }
}

#[derive(Drop)]
pub(crate) struct Row {
    pub(crate) name: String,
    /// The words of the one call, or the options of both.
    pub(crate) words: Vec<String>,
    pub(crate) both: bool,
    /// The files that there are before. Where two have one name, there is the later one.
    pub(crate) files: Vec<File>,
    pub(crate) input: Vec<u8>,
    /// The calls that fail.
    pub(crate) failing: Vec<Call>,
    /// The first call of each side that is not to be made, where each that is made is to fail once.
    pub(crate) each: Vec<Call>,
    /// How many bytes the output takes.
    pub(crate) room: u32,
    pub(crate) wanted: Wanted,
}

impl rc_row_files::Row for Row {
    fn tried() -> &'static str {
        "calls"
    }

    fn new(alloc: Global, name: &str) -> Result<Row, AllocError> {
        let mut files = Vec::new(alloc);
        push_file(alloc, &mut files, FIRST)?;
        Ok(Row {
            name: String::from_str(alloc, name)?,
            words: Vec::new(alloc),
            both: true,
            files,
            input: Vec::new(alloc),
            failing: Vec::new(alloc),
            each: Vec::new(alloc),
            room: 512,
            wanted: Wanted::nothing(alloc),
        })
    }

    fn take(&mut self, alloc: Global, key: &str, value: &str) -> io::Result<()> {
        take(alloc, self, key, value)
    }

    fn take_same(&mut self, before: &Row) -> io::Result<()> {
        push_files(&mut self.files, before.files.as_slice())
    }

    fn compare(&self, rt: &HostRuntime, file: &str) -> io::Result<Found> {
        differing(rt, file, self)
    }
}
