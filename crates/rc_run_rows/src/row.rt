// A row.
use crate::running::differs;
use rc_base::Limits;
use rc_row_files::{Found, bytes, number, numbers, small_number, unread};
use std::alloc::{AllocError, Global};
use std::io;

/// What a run must come to: its answer as `{:?}` prints it, the bytes that it writes, and, where that is
/// asked, how many bytes of the input are left.
#[derive(Drop)]
pub(crate) struct Wanted {
    pub(crate) answer: String,
    pub(crate) out: Vec<u8>,
    pub(crate) left: Option<u64>,
}

/// An image, what its run is given, and what it must come to.
#[derive(Drop)]
pub(crate) struct Row {
    pub(crate) name: String,
    pub(crate) image: Vec<u8>,
    pub(crate) input: Vec<u8>,
    pub(crate) limits: Limits,
    /// How many bytes the output takes.
    pub(crate) room: u32,
    /// The numbers of the calls of the input that fail, and of the output.
    pub(crate) reads: Vec<u64>,
    pub(crate) writes: Vec<u64>,
    pub(crate) wanted: Wanted,
}

fn take_bytes(alloc: Global, list: &mut Vec<u8>, value: &str) -> io::Result<()> {
    *list = bytes(alloc, value)?;
    Ok(())
}

fn take_numbers(alloc: Global, list: &mut Vec<u64>, value: &str) -> io::Result<()> {
    *list = numbers(alloc, value)?;
    Ok(())
}

fn take_number(place: &mut u32, value: &str) -> io::Result<()> {
    *place = small_number(value)?;
    Ok(())
}

fn take_answer(alloc: Global, answer: &mut String, value: &str) -> io::Result<()> {
    *answer = String::from_str(alloc, value)?;
    Ok(())
}

fn take_left(wanted: &mut Wanted, value: &str) -> io::Result<()> {
    wanted.left = Some(number(value)?);
    Ok(())
}

fn take_turns(limits: &mut Limits, value: &str) -> io::Result<()> {
    limits.turns = number(value)?;
    Ok(())
}

/// Takes what a key of the limits gives.
fn take_limit(limits: &mut Limits, key: &str, value: &str) -> io::Result<()> {
    match key {
        "turns" => take_turns(limits, value),
        "regions" => take_number(&mut limits.regions, value),
        "blocks" => take_number(&mut limits.blocks, value),
        _ => unread(),
    }
}

impl rc_row_files::Row for Row {
    fn new(alloc: Global, name: &str) -> Result<Row, AllocError> {
        Ok(Row {
            name: String::from_str(alloc, name)?,
            image: Vec::new(alloc),
            input: Vec::new(alloc),
            limits: Limits {
                turns: 100_000_000,
                regions: u32::MAX,
                blocks: u32::MAX,
            },
            room: 4096,
            reads: Vec::new(alloc),
            writes: Vec::new(alloc),
            wanted: Wanted {
                answer: String::new(alloc),
                out: Vec::new(alloc),
                left: None,
            },
        })
    }

    fn take(&mut self, alloc: Global, key: &str, value: &str) -> io::Result<()> {
        match key {
            "image" => take_bytes(alloc, &mut self.image, value),
            "input" => take_bytes(alloc, &mut self.input, value),
            "reads" => take_numbers(alloc, &mut self.reads, value),
            "writes" => take_numbers(alloc, &mut self.writes, value),
            "room" => take_number(&mut self.room, value),
            "out" => take_bytes(alloc, &mut self.wanted.out, value),
            "left" => take_left(&mut self.wanted, value),
            "answer" => take_answer(alloc, &mut self.wanted.answer, value),
            _ => take_limit(&mut self.limits, key, value),
        }
    }

    fn compare(&self, rt: &HostRuntime, file: &str) -> io::Result<Found> {
        Ok(Found::one(differs(rt, file, self)?))
    }
}
