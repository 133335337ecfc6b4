// Lines of instructions.
ghost use Rattle.std.specs.Prelude.{◌≡◌, ◌<◌, ◌≤◌, ◌+◌, ◌∷◌, ◌++◌, ℕ, List, replicate, IfOk, OnOk};
ghost use Rattle.rc_fields.specs.Spelling.{counted};
ghost use Rattle.rc_image.specs.Spelling.{runs, runs_from, run_bytes, lines_bytes};
ghost use Rattle.rc_fields.specs.Reading.{Gives};
ghost use Rattle.rc_image.specs.Reading.{run_breaks, is_same, run_at, runs_at, shared_at, lines_at};

use crate::run::Run;
use crate::version::Version;
use rc_fields::{Stop, read_number, read_numbers, write_number, write_numbers};
use std::alloc::{AllocError, Global};

/// Whether a run may not have so many lines, with `left` lines left for it and `more` runs after it.
fn run_breaks(more: u32, left: usize, count: usize) -> bool
    ensures { result ≡ run_breaks more left count }
{
    if count == 0 {
        return true;
    }
    if more == 0 {
        return count != left;
    }
    count >= left
}

/// Whether the run before has this line.
fn is_same(before: Option<u32>, line: u32) -> bool
    ensures { result ≡ is_same before line }
{
    match before {
        Some(before) => before == line,
        None => false,
    }
}

/// Adds a line so many times.
fn push_run(lines: &mut Vec<u32>, run: Run) -> Result<(), AllocError>
    ensures { OnOk result (lines.new.items ≡ lines.old.items ++ replicate run.count run.line) }
{
    let Some(len) = lines.len().checked_add(run.count) else {
        return Err(AllocError);
    };
    lines.resize(len, run.line)
}

/// Reads the length and the line of a run, for which `left` lines are left and after which `more`
/// runs come.
#[tactic(auto, unfolding(crate::specs::Reading::run_at))]
fn read_run(more: u32, left: usize, before: Option<u32>, bytes: &[u8]) -> Result<(Run, &[u8]), Stop>
    ensures { Gives (λ x. (x.0, x.1.now)) result (run_at more left before bytes.now) }
{
    let (count, rest) = read_number(bytes)?;
    let count = count as usize;
    if run_breaks(more, left, count) {
        return Err(Stop::Field(bytes.len()));
    }
    let (line, after) = read_number(rest)?;
    if is_same(before, line) {
        return Err(Stop::Field(rest.len()));
    }
    Ok((Run { count, line }, after))
}

/// Reads so many runs, for so many lines.
fn read_runs(
    alloc: Global,
    runs: u32,
    count: usize,
    bytes: &[u8],
) -> Result<(Vec<u32>, &[u8]), Stop>
    ensures { Gives (λ x. (x.0.items, x.1.now)) result (runs_at runs count None bytes.now) }
{
    let mut lines = Vec::new(alloc);
    let mut left = count;
    let mut before = None;
    let mut rest = bytes;
    for done in 0..runs {
        let (run, after) = read_run(runs - done - 1, left, before, rest)?;
        push_run(&mut lines, run)?;
        left = left.saturating_sub(run.count);
        before = Some(run.line);
        rest = after;
    }
    Ok((lines, rest))
}

/// Reads the runs of so many lines.
#[tactic(auto, unfolding(crate::specs::Reading::shared_at))]
fn read_shared(alloc: Global, count: usize, bytes: &[u8]) -> Result<(Vec<u32>, &[u8]), Stop>
    ensures { Gives (λ x. (x.0.items, x.1.now)) result (shared_at count bytes.now) }
{
    let (runs, rest) = read_number(bytes)?;
    if count == 0 {
        if runs == 0 {
            return Ok((Vec::new(alloc), rest));
        }
        return Err(Stop::Field(bytes.len()));
    }
    if runs == 0 {
        return Err(Stop::Field(bytes.len()));
    }
    read_runs(alloc, runs, count, rest)
}

/// Reads so many lines.
pub(crate) fn read_lines(
    alloc: Global,
    version: Version,
    count: usize,
    bytes: &[u8],
) -> Result<(Vec<u32>, &[u8]), Stop>
    ensures { Gives (λ x. (x.0.items, x.1.now)) result (lines_at version count bytes.now) }
{
    match version {
        Version::One => read_numbers(alloc, count, bytes),
        Version::Two => read_shared(alloc, count, bytes),
    }
}

/// Adds a line to the run, or else adds the run to the others and begins one with the line.
fn extend(runs: &mut Vec<Run>, run: Run, line: u32) -> Result<Run, AllocError>
    requires { run.count < 18446744073709551615 }
    ensures runs { IfOk result (λ r. (rest : List ℕ) → runs.new.items ++ runs_from r.count r.line rest ≡ runs.old.items ++ runs_from run.count run.line (line ∷ rest)) }
    ensures count { IfOk result (λ r. r.count ≤ run.count + 1) }
{
    if line == run.line {
        return Ok(Run {
            count: run.count + 1,
            line,
        });
    }
    runs.push(run)?;
    Ok(Run { count: 1, line })
}

/// The runs of lines.
fn runs_of(alloc: Global, lines: &[u32]) -> Result<Vec<Run>, AllocError>
    ensures { IfOk result (λ v. v.items ≡ runs lines.now) }
{
    let [first, others @ ..] = lines else {
        return Ok(Vec::new(alloc));
    };
    let mut runs = Vec::new(alloc);
    let mut run = Run {
        count: 1,
        line: *first,
    };
    let mut rest = others;
    while let [line, after @ ..] = rest {
        run = extend(&mut runs, run, *line)?;
        rest = after;
    }
    runs.push(run)?;
    Ok(runs)
}

fn write_run(out: &mut Vec<u8>, run: Run) -> Result<(), AllocError>
    ensures { OnOk result (out.new.items ≡ out.old.items ++ run_bytes run) }
{
    write_number(out, run.count as u64)?;
    write_number(out, u64::from(run.line))
}

fn write_runs(out: &mut Vec<u8>, runs: &[Run]) -> Result<(), AllocError>
    ensures { OnOk result (out.new.items ≡ out.old.items ++ counted run_bytes runs.now) }
{
    write_number(out, runs.len() as u64)?;
    for run in runs {
        write_run(out, *run)?;
    }
    Ok(())
}

pub(crate) fn write_lines(
    alloc: Global,
    out: &mut Vec<u8>,
    version: Version,
    lines: &[u32],
) -> Result<(), AllocError>
    ensures { OnOk result (out.new.items ≡ out.old.items ++ lines_bytes version lines.now) }
{
    match version {
        Version::One => write_numbers(out, lines),
        Version::Two => {
            let runs = runs_of(alloc, lines)?;
            write_runs(out, &runs)
        }
    }
}
