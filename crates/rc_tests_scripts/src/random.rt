// Random scripts, over both heaps.
use crate::case::Case;
use crate::running::{Script, count, is_looked_up};
use rc_base::{Buffer, NoMemory};
use std::alloc::Global;
use std::test::Fail;

/// The verbs, and how many numbers each is given.
const VERBS: [(&str, u32); 11] = [
    ("new", 1),
    ("new", 1),
    ("cell", 2),
    ("cell", 2),
    ("link", 4),
    ("link", 4),
    ("pin", 1),
    ("unpin", 1),
    ("drop", 1),
    ("drop", 2),
    ("drop", 5),
];

fn next(seed: u64) -> u64 {
    seed.wrapping_mul(6364136223846793005)
        .wrapping_add(1442695040888963407)
}

/// One of the first numbers, whether it is a region's or not. Most are small.
fn number(seed: u64) -> u32 {
    ((seed >> 33) % ((seed >> 50) % 9 + 1)) as u32
}

/// Writes one random line.
fn push_line(case: &mut Case, seed: u64) -> Result<(), NoMemory> {
    let (verb, count) = VERBS[((seed >> 40) % 11) as usize];
    case.words(verb)?;
    let mut at = seed;
    for _ in 0..count {
        at = next(at);
        case.number(number(at))?;
    }
    case.end("")
}

fn push_lines(case: &mut Case, seed: u64) -> Result<(), NoMemory> {
    let mut at = seed;
    for _ in 0..200 {
        at = next(at);
        push_line(case, at)?;
    }
    Ok(())
}

/// Whether both heaps answer a script alike.
fn is_answered_alike(alloc: Global, script: Script<'_>) -> Result<bool, NoMemory> {
    let mut out = Buffer::new(alloc, 10_000, Vec::new(alloc))?;
    let ended = count(alloc, script, &mut out)?;
    Ok(ended == Ok(()) && is_looked_up(alloc, script, out.taken())?)
}

fn is_seed_answered_alike(alloc: Global, seed: u64) -> Result<bool, NoMemory> {
    let mut case = Case::new(alloc);
    push_lines(&mut case, seed)?;
    is_answered_alike(alloc, case.script())
}

#[test]
fn both_heaps_answer_random_scripts_alike(rt: HostRuntime) -> Result<(), Fail> {
    for seed in 0..300 {
        assert!(rt; is_seed_answered_alike(rt.alloc(), seed)?);
    }
    Ok(())
}
