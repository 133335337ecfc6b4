// Which parts are to be gone over.
ghost use Rattle.std.specs.Prelude.{◌<◌, ◌+◌, OnSome, length};

use crate::losses::{Loss, Losses};
use crate::map::Map;
use crate::part::Part;
use rc_base::NoMemory;
use std::alloc::Global;
use std::collections::VecDeque;

/// The numbers of the parts that are to be gone over, each once. One that is put in comes last, so that
/// all that it waits for is gone over before it. But those of a function that is gone over come before
/// all others: a loop is gone over until it loses nothing, and only then what stands behind it.
#[derive(Drop)]
pub struct Agenda {
    /// Those of the function that is gone over.
    pub near: VecDeque<usize>,
    /// All others.
    pub list: VecDeque<usize>,
    /// Whether a part is in one of these.
    pub waits: Vec<bool>,
}

/// All of so many parts, in their order.
pub fn all_parts(alloc: Global, parts: usize) -> Result<Agenda, NoMemory> {
    let mut list = VecDeque::new(alloc);
    let mut waits = Vec::new(alloc);
    for part in 0..parts {
        list.push_back(part)?;
        waits.push(true)?;
    }
    Ok(Agenda {
        near: VecDeque::new(alloc),
        list,
        waits,
    })
}

/// Takes out the number of the next one.
fn take(agenda: &mut Agenda) -> Option<usize>
    ensures { OnSome result (length agenda.new.near.items + length agenda.new.list.items < length agenda.old.near.items + length agenda.old.list.items) }
{
    match agenda.near.pop_front() {
        Some(number) => Some(number),
        None => agenda.list.pop_front(),
    }
}

/// Takes out the next one.
pub fn next_of(agenda: &mut Agenda, map: &Map) -> Option<Part>
    ensures { OnSome result (length agenda.new.near.items + length agenda.new.list.items < length agenda.old.near.items + length agenda.old.list.items) }
{
    let Some(number) = take(agenda) else {
        return None;
    };
    if number < agenda.waits.len() {
        agenda.waits[number] = false;
    }
    map.parts.as_slice().get(number).copied()
}

/// Puts a part in, unless it is there.
fn put(agenda: &mut Agenda, part: usize) -> Result<(), NoMemory> {
    if part < agenda.waits.len() && !agenda.waits[part] {
        agenda.waits[part] = true;
        agenda.list.push_back(part)?;
    }
    Ok(())
}

/// Puts in a part of the function that is gone over, unless it is there.
fn put_near(agenda: &mut Agenda, part: usize) -> Result<(), NoMemory> {
    if part < agenda.waits.len() && !agenda.waits[part] {
        agenda.waits[part] = true;
        agenda.near.push_back(part)?;
    }
    Ok(())
}

/// Puts in the part at the entry of a function.
fn put_entry(agenda: &mut Agenda, map: &Map, function: usize) -> Result<(), NoMemory> {
    if function >= map.functions.len() {
        return Ok(());
    }
    match map.functions[function].entry {
        None => Ok(()),
        Some(part) => put(agenda, part),
    }
}

/// Puts in the part at a target of the function that is gone over.
fn put_target(
    agenda: &mut Agenda,
    map: &Map,
    function: usize,
    target: usize,
) -> Result<(), NoMemory> {
    if function >= map.functions.len() {
        return Ok(());
    }
    match map.functions[function].targets.as_slice().get(target) {
        None => Ok(()),
        Some(part) => put_near(agenda, *part),
    }
}

/// Puts in the parts that call a function.
fn put_callers(agenda: &mut Agenda, map: &Map, function: usize) -> Result<(), NoMemory> {
    if function >= map.functions.len() {
        return Ok(());
    }
    for part in map.functions[function].callers.as_slice() {
        put(agenda, *part)?;
    }
    Ok(())
}

/// Puts in the parts that read a set, one of a function or that of the entry of another.
fn put_readers(agenda: &mut Agenda, map: &Map, function: usize, set: Loss) -> Result<(), NoMemory> {
    match set {
        Loss::Entry(callee) => put_entry(agenda, map, callee),
        Loss::Exit => put_callers(agenda, map, function),
        Loss::Target(target) => put_target(agenda, map, function, target),
    }
}

/// Puts in the parts that read the sets that lost facts when a part of a function was gone over.
pub fn put_losses(
    agenda: &mut Agenda,
    map: &Map,
    function: usize,
    losses: &Losses,
) -> Result<(), NoMemory> {
    for set in losses.sets.as_slice() {
        put_readers(agenda, map, function, *set)?;
    }
    Ok(())
}
