// Which parts of the ways through functions depend on which sets.

use crate::part::{Part, Start};
use crate::route::Route;
use crate::spot::Spot;
use rc_base::NoMemory;
use rc_graph::Effect;
use std::alloc::Global;

/// The parts that read sets of a function, by their numbers.
#[derive(Drop)]
pub struct Readers {
    /// The one that begins at the entry.
    pub entry: Option<usize>,
    /// Those that begin at the targets.
    pub targets: Vec<usize>,
    /// Those that call the function, and so read its exit.
    pub callers: Vec<usize>,
}

/// All parts, and those that read the sets of each function.
#[derive(Drop)]
pub struct Map {
    /// The parts, in the order of the functions.
    pub parts: Vec<Part>,
    /// The readers of each function.
    pub functions: Vec<Readers>,
}

/// A map of so many functions, which have no parts yet.
fn empty_map(alloc: Global, functions: usize) -> Result<Map, NoMemory> {
    let mut all = Vec::new(alloc);
    for _function in 0..functions {
        all.push(Readers {
            entry: None,
            targets: Vec::new(alloc),
            callers: Vec::new(alloc),
        })?;
    }
    Ok(Map {
        parts: Vec::new(alloc),
        functions: all,
    })
}

/// Adds a part, and answers its number.
fn add_part(map: &mut Map, part: Part) -> Result<usize, NoMemory> {
    let number = map.parts.len();
    map.parts.push(part)?;
    Ok(number)
}

/// A part begins at the next target of a function.
fn add_target(map: &mut Map, function: usize, part: usize) -> Result<(), NoMemory> {
    if function < map.functions.len() {
        map.functions[function].targets.push(part)?;
    }
    Ok(())
}

/// A part calls what an instruction of it calls.
fn add_call(map: &mut Map, spot: &Spot, part: usize) -> Result<(), NoMemory> {
    let Effect::Called {
        result: _,
        function,
        arguments: _,
    } = &spot.effect
    else {
        return Ok(());
    };
    let callee = *function as usize;
    if callee < map.functions.len() {
        map.functions[callee].callers.push(part)?;
    }
    Ok(())
}

/// The part behind an instruction of a part: another one, if a target stands there.
fn next_part(map: &mut Map, spot: &Spot, part: usize, other: Part) -> Result<usize, NoMemory> {
    if spot.next.set().is_none() {
        return Ok(part);
    }
    let number = add_part(map, other)?;
    add_target(map, other.function, number)?;
    Ok(number)
}

/// Adds the part at the entry of a function, and one at its first instruction if that is a target, and
/// answers the number of the last of these.
fn add_entry(map: &mut Map, number: usize, route: &Route) -> Result<usize, NoMemory> {
    let function = route.place.function;
    let part = add_part(
        map,
        Part {
            route: number,
            function,
            start: Start::Entry,
        },
    )?;
    if function < map.functions.len() {
        map.functions[function].entry = Some(part);
    }
    if route.first.is_none() {
        return Ok(part);
    }
    let first = add_part(
        map,
        Part {
            route: number,
            function,
            start: Start::First,
        },
    )?;
    add_target(map, function, first)?;
    Ok(first)
}

/// Adds the parts of a function.
fn add_route(map: &mut Map, number: usize, route: &Route) -> Result<(), NoMemory> {
    let mut part = add_entry(map, number, route)?;
    let spots = route.spots.as_slice();
    for at in 0..spots.len() {
        add_call(map, &spots[at], part)?;
        part = next_part(
            map,
            &spots[at],
            part,
            Part {
                route: number,
                function: route.place.function,
                start: Start::Behind(at),
            },
        )?;
    }
    Ok(())
}

/// The parts of all functions, in their order.
pub fn map_of(alloc: Global, routes: &[Route], functions: usize) -> Result<Map, NoMemory> {
    let mut map = empty_map(alloc, functions)?;
    for number in 0..routes.len() {
        add_route(&mut map, number, &routes[number])?;
    }
    Ok(map)
}
