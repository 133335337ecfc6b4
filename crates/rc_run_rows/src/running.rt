// What a run comes to.
ghost use Rattle.std.specs.Prelude.{◌≡◌, ◌<◌};
ghost use Rattle.rc_store.specs.Stores.{IsNew};

use crate::row::Row;
use rc_base::{Buffer, Bytes, Limits, NoMemory, Source, Steps};
use rc_code::Loaded;
use rc_count::CountHeap;
use rc_image::read;
use rc_loader::load;
use rc_machine::run;
use rc_scan::ScanHeap;
use rc_store::Heap;
use std::alloc::Global;
use std::io::{self, ErrorKind};
use std::marker::Brand;
use std::sync::ledger::{Blank, Ledger};

/// What a run came to: its answer as `{:?}` prints it, the bytes that it wrote, and how many bytes of the
/// input were left.
#[derive(Drop)]
struct Came {
    answer: String,
    out: Vec<u8>,
    left: u64,
}

fn no_memory<T>() -> io::Result<T> {
    Err(io::Error::from(ErrorKind::OutOfMemory))
}

fn loaded(alloc: Global, bytes: &[u8]) -> io::Result<Loaded> {
    let Ok(image) = read(alloc, bytes) else {
        return Err(io::Error::from(ErrorKind::InvalidData));
    };
    match load(alloc, image) {
        Ok(code) => Ok(code),
        Err(_) => Err(io::Error::from(ErrorKind::InvalidData)),
    }
}

/// How many bytes there are left, by at most so many calls.
fn count_left(input: &mut Bytes, calls: usize) -> u64 {
    let mut left = 0u64;
    for _ in 0..calls {
        match input.next() {
            Ok(Some(_)) => left = left.saturating_add(1),
            Ok(None) => return left,
            Err(_) => {}
        }
    }
    left
}

/// Runs an image over a new heap, and answers what that comes to, as `{:?}` prints it.
fn run_in<H: Heap>(
    alloc: Global,
    limits: &Limits,
    code: &Loaded,
    heap: &mut H,
    input: &mut Bytes,
    out: &mut Buffer,
    steps: &mut Steps<H::Counter>,
) -> io::Result<String>
    requires { IsNew (H.store heap.old) }
{
    heap.limit(limits);
    let answer = run(alloc, code, limits, heap, input, out, steps);
    Ok(format!(in alloc; "{answer:?}")?)
}

/// Runs the image of a row over a new heap.
fn came_in<H: Heap>(
    alloc: Global,
    row: &Row,
    code: &Loaded,
    heap: &mut H,
    steps: &mut Steps<H::Counter>,
) -> io::Result<Came>
    requires { IsNew (H.store heap.old) }
{
    let mut input = Bytes::new(row.input.clone()?, row.reads.clone()?);
    let Ok(mut out) = Buffer::new(alloc, row.room, row.writes.clone()?) else {
        return no_memory();
    };
    let limits = row.limits;
    let answer = run_in(alloc, &limits, code, heap, &mut input, &mut out, steps)?;
    let calls = row.input.len().saturating_add(row.reads.len());
    let left = count_left(&mut input, calls);
    Ok(Came {
        answer,
        out: out.taken().to_vec(alloc)?,
        left,
    })
}

fn came_in_scan_heap<L: Ledger>(
    alloc: Global,
    row: &Row,
    code: &Loaded,
    blank: Blank,
) -> io::Result<Came>
    requires name { blank.name ≡ L.name }
    requires parts { blank.parts ≡ L.parts }
    requires some { 0 < L.parts }
{
    let mut steps = Steps::<L>::start(blank);
    match ScanHeap::<L>::new(alloc) {
        Ok(mut heap) => came_in(alloc, row, code, &mut heap, &mut steps),
        Err(NoMemory) => no_memory(),
    }
}

fn came_in_count_heap<L: Ledger>(
    alloc: Global,
    row: &Row,
    code: &Loaded,
    blank: Blank,
) -> io::Result<Came>
    requires name { blank.name ≡ L.name }
    requires parts { blank.parts ≡ L.parts }
    requires some { 0 < L.parts }
{
    let mut steps = Steps::<L>::start(blank);
    match CountHeap::<L>::new(alloc) {
        Ok(mut heap) => came_in(alloc, row, code, &mut heap, &mut steps),
        Err(NoMemory) => no_memory(),
    }
}

/// Whether a run came to another thing than the row wants, which is then printed.
fn is_other(rt: &HostRuntime, file: &str, row: &Row, heap: &str, came: &Came) -> io::Result<bool> {
    let wanted = &row.wanted;
    let same_answer = wanted.answer.as_str() == came.answer.as_str();
    let same_out = wanted.out.as_slice() == came.out.as_slice();
    let same_left = wanted.left.is_none() || wanted.left == Some(came.left);
    if same_answer && same_out && same_left {
        return Ok(false);
    }
    let name = row.name.as_str();
    let answer = came.answer.as_str();
    let out = hex::encode(rt.alloc(), came.out.as_slice())?;
    let out = out.as_str();
    let left = came.left;
    println!(rt; "{file}: {name}, {heap}: {answer}, out {out}, {left} bytes left")?;
    Ok(true)
}

fn differs_looking(rt: &HostRuntime, file: &str, row: &Row, code: &Loaded) -> io::Result<bool> {
    let came = came_in_scan_heap::<Brand>(rt.alloc(), row, code, Blank::new(1))?;
    is_other(rt, file, row, "looking", &came)
}

fn differs_counting(rt: &HostRuntime, file: &str, row: &Row, code: &Loaded) -> io::Result<bool> {
    let came = came_in_count_heap::<Brand>(rt.alloc(), row, code, Blank::new(1))?;
    is_other(rt, file, row, "counting", &came)
}

/// Whether the run of a row comes to another thing over one of the heaps.
pub(crate) fn differs(rt: &HostRuntime, file: &str, row: &Row) -> io::Result<bool> {
    let code = loaded(rt.alloc(), row.image.as_slice())?;
    let first = differs_looking(rt, file, row, &code)?;
    let second = differs_counting(rt, file, row, &code)?;
    Ok(first || second)
}
