// The parts of a search for the greatest proofs, one by one.
ghost use Rattle.rc_code.specs.Image.{FieldsFit};
ghost use Rattle.rc_code.specs.Soundness.{Sound};
ghost use Rattle.rc_prove.specs.Family.{family_of, RouteFits};
ghost use Rattle.rc_sealed.specs.Faults.{NoneIsWide};

use rc_base::NoMemory;
use rc_code::{Instruction, Jump, Parts};
use rc_fact_bits::{bits_of, frames_of};
use rc_facts::{Fact, FactSet};
use rc_image::read;
use rc_image_shapes::first_wide;
use rc_loader::sound;
use rc_prove::{Claims, greatest};
use rc_prove_marks::marks_of;
use rc_prove_parts::Route;
use rc_prove_routes::routes_of;
use rc_prove_ways::{leads_at, ranks_of};
use std::alloc::Global;

/// It makes a region and an object in it, and stores to the cell of that object for the same region a
/// pointer to the object itself.
const TO_ITSELF: &[u8] =
    b"RCIM\x02\x01\x01\x05\x00\x00\x01\x00\x00\x00\x00\x01\x00\x01\x04\x00\x00\x0a\x21\x24\x00\x06\x00\x05\x00\x05\x00\x20\x00\x00\x00\x00\x28\x00\x00\x28\x01\x0a\x02\x00\x00";

/// Whether four facts over two variables have the bits 2, 5, 9 and 10.
fn facts_are_bits(alloc: Global) -> Result<bool, NoMemory> {
    let mut set = FactSet::empty(alloc, 2)?;
    set.add(Fact::In(1, 0));
    set.add(Fact::Up(0, 1));
    set.add(Fact::Trad(1));
    set.add(Fact::NonNull(0));
    let bits = bits_of(alloc, 2, &set)?;
    Ok(bits.as_slice() == [0b0010_0100, 0b0000_0110].as_slice())
}

/// Whether a set stands before the only target of three instructions.
fn sets_are_frames(alloc: Global) -> Result<bool, NoMemory> {
    let sets = [FactSet::empty(alloc, 2)?];
    let frames = frames_of(alloc, 0, &sets, &[false, true, false])?;
    match frames.as_slice() {
        [frame] => Ok(frame.at == 1 && frame.facts.as_slice().is_empty()),
        _ => Ok(false),
    }
}

/// Whether a jump to the second of three targets leads there and to the next instruction, which is the
/// first of them.
fn jumps_lead(alloc: Global) -> Result<bool, NoMemory> {
    let targets = [false, true, false, true, true];
    let ranks = ranks_of(alloc, &targets)?;
    let leads = leads_at(
        &Instruction::Jump(Jump::IfZero, 3),
        0,
        &targets,
        ranks.as_slice(),
    );
    Ok(leads.jumped == Some(1) && leads.fallen == Some(0) && leads.next == Some(0))
}

#[test]
fn sets_and_tables_are_made(rt: HostRuntime) {
    assert!(rt; facts_are_bits(rt.alloc()) == Ok(true));
    assert!(rt; sets_are_frames(rt.alloc()) == Ok(true));
    assert!(rt; jumps_lead(rt.alloc()) == Ok(true));
}

/// Whether the check of the instruction of that number is proved, and no other.
fn is_proved_alone(
    alloc: Global,
    route: &Route,
    claims: &Claims,
    wanted: usize,
) -> Result<bool, NoMemory>
    requires { RouteFits route.now (family_of claims.now.entries.items claims.now.exits.items claims.now.frames.items) }
{
    let marks = marks_of(alloc, route, claims)?;
    for (at, mark) in marks.iter().enumerate() {
        if *mark != (at == wanted) {
            return Ok(false);
        }
    }
    Ok(marks.len() == route.spots.len())
}

/// Whether of the checks of an image's only function that of the instruction of that number is proved
/// alone.
fn is_found_alone(alloc: Global, parts: &Parts, wanted: usize) -> Result<bool, NoMemory>
    requires fields { FieldsFit parts.now }
    requires sound { Sound parts.now }
    requires narrow { NoneIsWide parts.now }
{
    let all = routes_of(alloc, parts)?;
    let routes = all.routes.as_slice();
    let counts = all.counts.as_slice();
    let claims = greatest(alloc, routes, counts)?;
    match routes {
        [route] => is_proved_alone(alloc, route, &claims, wanted),
        _ => Ok(false),
    }
}

/// Whether the image of these bytes has one function, in which the check of that instruction is proved
/// alone.
fn is_found_in(alloc: Global, bytes: &[u8], wanted: usize) -> Result<bool, NoMemory> {
    let Ok(image) = read(alloc, bytes) else {
        return Ok(false);
    };
    if sound(alloc, &image).is_err() {
        return Ok(false);
    }
    match first_wide(image.parts()) {
        Some(_) => Ok(false),
        None => is_found_alone(alloc, image.parts(), wanted),
    }
}

#[test]
fn a_check_is_found_that_is_proved(rt: HostRuntime) {
    assert!(rt; is_found_in(rt.alloc(), TO_ITSELF, 5) == Ok(true));
}
