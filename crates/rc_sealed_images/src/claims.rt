// What is claimed of functions.
ghost use Rattle.std.specs.Prelude.{◌≡◌, ◌<◌, ◌≤◌, ◌++◌, length, IfOk, OnOk};
ghost use Rattle.std.specs.List.{AllByRecursion as Every};
ghost use Rattle.rc_claims.specs.Counts.{frame_count};
ghost use Rattle.rc_fields.specs.Spelling.{counted};
ghost use Rattle.rc_fields.specs.Reading.{Gives};
ghost use Rattle.rc_sealed_images.specs.Counted.{IsCounted};
ghost use Rattle.rc_sealed_images.specs.Spelling.{frame_bytes, known_bytes, claims_bytes};
ghost use Rattle.rc_sealed_images.specs.Reading.{frame_at, frames_at, known_at, knowns_at, claims_at};

use crate::bits::read_bits;
use crate::counts::{copies, exit_count, frame_count};
use rc_claims::{Frame, Known, Proofs};
use rc_code::{Function, Items};
use rc_fields::{Stop, read_number, read_within, write_number};
use std::alloc::{AllocError, Global};

/// Reads a frame of a function whose frames speak of so many variables, at an instruction from that one
/// on.
#[tactic(auto, unfolding(crate::specs::Reading::frame_at))]
fn read_frame<'b>(
    alloc: Global,
    function: &Function,
    variables: u64,
    least: u32,
    bytes: &'b [u8],
) -> Result<(Frame, &'b [u8]), Stop>
    requires variables { variables ≡ frame_count function.now }
    requires few { variables ≤ 8589934592 }
    ensures gives { Gives (λ x. (x.0, x.1.now)) result (frame_at function.now least bytes.now) }
    ensures at { IfOk result (λ x. x.0.at < length function.now.code) }
{
    let (at, rest) = read_within(least, function.code.as_slice().len() as u64, bytes)?;
    let (facts, rest) = read_bits(alloc, variables, rest)?;
    Ok((Frame { at, facts }, rest))
}

/// Reads so many frames of a function.
fn read_frames<'b>(
    alloc: Global,
    function: &Function,
    count: u32,
    bytes: &'b [u8],
) -> Result<(Vec<Frame>, &'b [u8]), Stop>
    requires { IsCounted function.now }
    ensures { Gives (λ x. (x.0.items, x.1.now)) result (frames_at function.now count 0 bytes.now) }
{
    let variables = frame_count(function);
    let mut frames = Vec::new(alloc);
    let mut least = 0;
    let mut rest = bytes;
    for _ in 0..count {
        let (frame, after) = read_frame(alloc, function, variables, least, rest)?;
        least = frame.at + 1;
        frames.push(frame)?;
        rest = after;
    }
    Ok((frames, rest))
}

/// Reads what is claimed of a function.
#[tactic(auto, unfolding(crate::specs::Reading::known_at))]
fn read_known<'b>(
    alloc: Global,
    function: &Function,
    bytes: &'b [u8],
) -> Result<(Known, &'b [u8]), Stop>
    requires { IsCounted function.now }
    ensures { Gives (λ x. (x.0, x.1.now)) result (known_at function.now bytes.now) }
{
    let (entry, rest) = read_bits(alloc, copies(function), bytes)?;
    let (exit, rest) = read_bits(alloc, exit_count(function), rest)?;
    let (count, rest) = read_number(rest)?;
    let (frames, rest) = read_frames(alloc, function, count, rest)?;
    let known = Known {
        entry,
        exit,
        frames: Items::new(frames),
    };
    Ok((known, rest))
}

/// Reads what is claimed of functions, one after the other.
fn read_knowns<'b>(
    alloc: Global,
    functions: &[Function],
    bytes: &'b [u8],
) -> Result<(Vec<Known>, &'b [u8]), Stop>
    requires { Every IsCounted functions.now }
    ensures { Gives (λ x. (x.0.items, x.1.now)) result (knowns_at functions.now bytes.now) }
{
    let mut knowns = Vec::new(alloc);
    let mut rest = bytes;
    for function in functions {
        let (known, after) = read_known(alloc, function, rest)?;
        knowns.push(known)?;
        rest = after;
    }
    Ok((knowns, rest))
}

/// Reads the proofs of an image with these functions.
#[tactic(auto, unfolding(crate::specs::Reading::claims_at))]
pub(crate) fn read_claims<'b>(
    alloc: Global,
    functions: &[Function],
    bytes: &'b [u8],
) -> Result<(Proofs, &'b [u8]), Stop>
    requires { Every IsCounted functions.now }
    ensures { Gives (λ x. (x.0, x.1.now)) result (claims_at functions.now bytes.now) }
{
    let (knowns, rest) = read_knowns(alloc, functions, bytes)?;
    let functions = Items::new(knowns);
    Ok((Proofs { functions }, rest))
}

fn write_frame(out: &mut Vec<u8>, frame: &Frame) -> Result<(), AllocError>
    ensures { OnOk result (out.new.items ≡ out.old.items ++ frame_bytes frame.now) }
{
    write_number(out, u64::from(frame.at))?;
    out.extend_from_slice(frame.facts.as_slice())
}

fn write_frames(out: &mut Vec<u8>, frames: &[Frame]) -> Result<(), AllocError>
    ensures { OnOk result (out.new.items ≡ out.old.items ++ counted frame_bytes frames.now) }
{
    write_number(out, frames.len() as u64)?;
    for frame in frames {
        write_frame(out, frame)?;
    }
    Ok(())
}

fn write_known(out: &mut Vec<u8>, known: &Known) -> Result<(), AllocError>
    ensures { OnOk result (out.new.items ≡ out.old.items ++ known_bytes known.now) }
{
    out.extend_from_slice(known.entry.as_slice())?;
    out.extend_from_slice(known.exit.as_slice())?;
    write_frames(out, known.frames.as_slice())
}

/// Writes proofs.
pub(crate) fn write_claims(out: &mut Vec<u8>, proofs: &Proofs) -> Result<(), AllocError>
    ensures { OnOk result (out.new.items ≡ out.old.items ++ claims_bytes proofs.now) }
{
    for known in proofs.functions.as_slice() {
        write_known(out, known)?;
    }
    Ok(())
}
