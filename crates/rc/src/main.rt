//! `rc` on the real outside.
#![tactic(auto)]

ghost use Rattle.std.specs.Prelude.{◌≡◌, ◌<◌};

use rc_base::{NoMemory, Steps};
use rc_count::CountHeap;
use rc_driver::{Done, Fault, Folder, StdSink, StdSource, rc_main, status_of};
use std::env;
use std::io::{self, ErrorKind};
use std::marker::Brand;
use std::process::ExitCode;
use std::sync::ledger::{Blank, Ledger};

/// The words behind the program's own name.
fn words(rt: &HostRuntime) -> io::Result<Vec<String>> {
    let mut words = Vec::new(rt.alloc());
    for word in env::args(rt)?.skip(1) {
        words.push(word)?;
    }
    Ok(words)
}

/// Says that there is no memory.
fn no_memory(rt: &HostRuntime) -> Fault {
    let _ = eprintln!(rt; "rc: no memory");
    Fault::Memory
}

/// Does what the words ask, over the standard streams, the files of the caller's folder and a heap that
/// counts. It starts the one counter of the heap's reads.
fn run<L: Ledger>(rt: HostRuntime, words: &[String], blank: Blank) -> Result<Done, Fault>
    requires name { blank.name ≡ L.name }
    requires parts { blank.parts ≡ L.parts }
    requires some { 0 < L.parts }
{
    let alloc = rt.alloc();
    let mut steps = Steps::<L>::start(blank);
    let mut heap = match CountHeap::<L>::new(alloc) {
        Ok(heap) => heap,
        Err(NoMemory) => return Err(no_memory(&rt)),
    };
    let mut input = StdSource::new(rt.stdin());
    let mut out = StdSink::new(rt.stdout());
    let mut err = StdSink::new(rt.stderr());
    let mut files = Folder::new(rt);
    rc_main(
        alloc, words, &mut files, &mut input, &mut out, &mut err, &mut heap, &mut steps,
    )
}

/// Does what the words ask, and counts the reads of cells by a new ledger.
fn serve(rt: HostRuntime, words: &[String]) -> Result<Done, Fault> {
    run::<Brand>(rt, words, Blank::new(1))
}

fn main(rt: HostRuntime) -> ExitCode {
    let answer = match words(&rt) {
        Ok(words) => serve(rt, &words),
        Err(error) => {
            if error.kind() == ErrorKind::InvalidData {
                // Words that aren't UTF-8 ask nothing.
                serve(rt, &[])
            } else {
                Err(no_memory(&rt))
            }
        }
    };
    ExitCode::from(status_of(&answer))
}
