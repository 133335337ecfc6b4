//! Runs each example by its name, a program, tasks or a script, and says which status it ends with; then it
//! reports on the checks of the larger ones. What a call writes on the error stream stands behind what it
//! writes on the output.
#![tactic(auto)]

ghost use Rattle.std.specs.Prelude.{◌≡◌, ◌<◌};

use rc_base::{Bytes, NoMemory, Steps};
use rc_count::CountHeap;
use rc_driver::{Folder, StdSink, rc_main, status_of};
use std::alloc::Global;
use std::fs;
use std::io::{self, ErrorKind};
use std::marker::Brand;
use std::process::ExitCode;
use std::sync::ledger::{Blank, Ledger};

const EXAMPLES: [&str; 19] = [
    "hello.c",
    "list.c",
    "tree.c",
    "ring.c",
    "scratch.c",
    "handles.c",
    "waiting.c",
    "reverse.c",
    "dangling.c",
    "overflow.c",
    "refused.c",
    "ring.heap",
    "tasks.c",
    "lib.c",
    "json.c",
    "lisp.c",
    "dijkstra.c",
    "undo.c",
    "lru.c",
];

/// The choices by which the tasks are run.
const CHOICES: &str = "00111";

/// The examples that are reported on.
const REPORTED: [&str; 6] = ["lib.c", "json.c", "lisp.c", "dijkstra.c", "undo.c", "lru.c"];

/// The command that runs an example.
fn verb(name: &str) -> &'static str {
    if name.ends_with(".heap") {
        return "heap";
    }
    if name == "tasks.c" {
        return "tasks";
    }
    "run"
}

/// What an example reads: the bytes of the file of its name that ends in `.in`, or none where there is no
/// such file.
fn input_of(rt: &HostRuntime, name: &str) -> io::Result<Vec<u8>> {
    let alloc = rt.alloc();
    let (stem, _) = name.split_once('.').unwrap_or((name, ""));
    let file = format!(in alloc; "{stem}.in")?;
    match fs::read(rt, &file) {
        Err(error) if error.kind() == ErrorKind::NotFound => Ok(Vec::new(alloc)),
        read => read,
    }
}

/// The words that give an example to a command.
fn words_of(alloc: Global, verb: &str, name: &str) -> io::Result<Vec<String>> {
    let mut words = Vec::new(alloc);
    words.push(String::from_str(alloc, verb)?)?;
    words.push(String::from_str(alloc, name)?)?;
    if verb == "tasks" {
        words.push(String::from_str(alloc, CHOICES)?)?;
    }
    Ok(words)
}

/// Does what the words ask on this input, over a heap whose reads are counted by the ledger of this blank,
/// and answers the status.
fn call_over<L: Ledger>(
    rt: &HostRuntime,
    words: &[String],
    input: Vec<u8>,
    blank: Blank,
) -> io::Result<u8>
    requires name { blank.name ≡ L.name }
    requires parts { blank.parts ≡ L.parts }
    requires some { 0 < L.parts }
{
    let alloc = rt.alloc();
    let mut steps = Steps::<L>::start(blank);
    let mut files = Folder::new(rt.clone()?);
    let mut input = Bytes::new(input, Vec::new(alloc));
    let mut out = StdSink::new(rt.stdout());
    let mut err = StdSink::new(rt.stdout());
    let mut heap = match CountHeap::<L>::new(alloc) {
        Ok(heap) => heap,
        Err(NoMemory) => return Err(io::Error::from(ErrorKind::OutOfMemory)),
    };
    let answer = rc_main(
        alloc, words, &mut files, &mut input, &mut out, &mut err, &mut heap, &mut steps,
    );
    Ok(status_of(&answer))
}

/// Gives an example to a command, over a new heap, and answers the status.
fn call(rt: &HostRuntime, verb: &str, name: &str) -> io::Result<u8> {
    let words = words_of(rt.alloc(), verb, name)?;
    let input = input_of(rt, name)?;
    call_over::<Brand>(rt, &words, input, Blank::new(1))
}

fn run_all(rt: &HostRuntime) -> io::Result<()> {
    for name in EXAMPLES {
        println!(rt; "{name}")?;
        let status = call(rt, verb(name), name)?;
        println!(rt; "\nstatus {status}")?;
    }
    Ok(())
}

fn report_all(rt: &HostRuntime) -> io::Result<()> {
    for name in REPORTED {
        println!(rt; "checks {name}")?;
        let status = call(rt, "checks", name)?;
        println!(rt; "\nstatus {status}")?;
    }
    Ok(())
}

fn call_all(rt: &HostRuntime) -> io::Result<()> {
    run_all(rt)?;
    report_all(rt)
}

fn main(rt: HostRuntime) -> ExitCode {
    match call_all(&rt) {
        Ok(()) => ExitCode::SUCCESS,
        Err(_) => ExitCode::FAILURE,
    }
}
