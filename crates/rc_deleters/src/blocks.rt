// The stops of an image's deletions and calls.
ghost use Rattle.std.specs.Prelude.{◌≡◌, ◌<◌, ◌++◌, ◌∷◌, [], length, map, IfOk, OnOk};
ghost use Rattle.rc_deleters.specs.Calls.{as_numbered, code_at, code_stops, in_code, first_in, image_stops, relead, releading, stops_if, AreFirsts};

use rc_base::NoMemory;
use rc_code::{Function, Instruction};
use rc_stops::Stop;
use std::alloc::Global;

fn put(out: &mut Vec<Stop>, stop: Stop) -> Result<(), NoMemory>
    ensures { OnOk result (out.new.items ≡ out.old.items ++ stop ∷ []) }
{
    out.push(stop)?;
    Ok(())
}

fn put_number(out: &mut Vec<usize>, number: usize) -> Result<(), NoMemory>
    ensures { OnOk result (out.new.items ≡ out.old.items ++ number ∷ []) }
{
    out.push(number)?;
    Ok(())
}

/// Puts the stop of a deletion or a call. A call leads to the function's number yet.
#[tactic(auto, using(crate::proofs::Building::nothing_put))]
fn put_stop(out: &mut Vec<Stop>, instruction: &Instruction) -> Result<(), NoMemory>
    ensures { OnOk result (out.new.items ≡ out.old.items ++ stops_if as_numbered instruction.now) }
{
    match instruction {
        Instruction::Delete(_) => put(
            out,
            Stop {
                gets: Some(0),
                sets: None,
                falls: true,
                leads: None,
            },
        ),
        Instruction::Call(number, _) => put(
            out,
            Stop {
                gets: None,
                sets: None,
                falls: true,
                leads: Some(*number as usize),
            },
        ),
        _ => Ok(()),
    }
}

/// The instruction of that number.
fn instruction_of(code: &[Instruction], at: usize) -> &Instruction
    requires { at < length code.now }
    ensures { result.now ≡ in_code code.now at }
{
    &code[at]
}

/// Puts the stops of a function.
fn put_code(out: &mut Vec<Stop>, code: &[Instruction]) -> Result<(), NoMemory>
    ensures { OnOk result (out.new.items ≡ out.old.items ++ code_stops as_numbered code.now) }
{
    for at in 0..code.len() {
        put_stop(out, instruction_of(code, at))?;
    }
    put(
        out,
        Stop {
            gets: None,
            sets: None,
            falls: false,
            leads: None,
        },
    )?;
    Ok(())
}

/// The code of a function.
fn code_of(functions: &[Function], number: usize) -> &[Instruction]
    requires { number < length functions.now }
    ensures { result.now ≡ code_at functions.now number }
{
    functions[number].code.as_slice()
}

fn length_of(stops: &[Stop]) -> usize
    ensures { result ≡ length stops.now }
{
    stops.len()
}

/// The stops of all functions.
#[derive(Drop)]
pub(crate) struct Blocks {
    pub stops: Vec<Stop>,
    /// The number of each function's first one.
    pub firsts: Vec<usize>,
}

/// The stops of all functions. Calls lead to the numbers of functions yet.
pub(crate) fn blocks_of(alloc: Global, functions: &[Function]) -> Result<Blocks, NoMemory>
    ensures stops { IfOk result (λ blocks. blocks.stops.items ≡ image_stops as_numbered functions.now) }
    ensures firsts { IfOk result (λ blocks. AreFirsts functions.now blocks.firsts.items) }
{
    let mut stops = Vec::new(alloc);
    let mut firsts = Vec::new(alloc);
    for number in 0..functions.len() {
        put_number(&mut firsts, length_of(&stops))?;
        put_code(&mut stops, code_of(functions, number))?;
    }
    Ok(Blocks { stops, firsts })
}

/// The first stop of a function, 0 where there is none.
pub(crate) fn first_of(firsts: &[usize], number: usize) -> usize
    ensures { result ≡ first_in firsts.now number }
{
    match firsts.get(number) {
        Some(first) => *first,
        None => 0,
    }
}

/// The first stop of the function to whose number a stop leads, if it leads to one.
fn releaded(firsts: &[usize], leads: Option<usize>) -> Option<usize>
    ensures { result ≡ relead (first_in firsts.now) leads }
{
    match leads {
        None => None,
        Some(number) => Some(first_of(firsts, number)),
    }
}

/// Lets a stop that leads to a function's number lead to that function's first stop.
fn relead(stop: &mut Stop, firsts: &[usize])
    ensures { stop.new ≡ releading (first_in firsts.now) stop.old }
{
    stop.leads = releaded(firsts, stop.leads);
}

/// The same of all stops.
fn relead_all(stops: &mut [Stop], firsts: &[usize])
    ensures { stops.new ≡ map (releading (first_in firsts.now)) stops.old }
{
    for at in 0..stops.len() {
        relead(&mut stops[at], firsts);
    }
}

/// Stops that lead to functions' numbers, led to these functions' first stops.
pub(crate) fn led(stops: Vec<Stop>, firsts: &[usize]) -> Vec<Stop>
    ensures { result.items ≡ map (releading (first_in firsts.now)) stops.items }
{
    let mut stops = stops;
    relead_all(&mut stops, firsts);
    stops
}
