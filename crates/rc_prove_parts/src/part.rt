// The parts of the way through a function: each from the entry or a target to the next target.
ghost use Rattle.std.specs.Prelude.{◌≤◌, length};

use crate::route::Route;
use crate::spot::Spot;

/// Where a part begins.
#[derive(Clone, Copy)]
pub enum Start {
    /// At the entry. It ends there if the first instruction is a target.
    Entry,
    /// At the first instruction, which is a target.
    First,
    /// At the target that stands behind an instruction.
    Behind(usize),
}

/// A part of the way through a function.
#[derive(Clone, Copy)]
pub struct Part {
    /// The number of the way.
    pub route: usize,
    /// The number of the function.
    pub function: usize,
    /// Where it begins.
    pub start: Start,
}

/// Where the part ends that begins at an instruction.
pub fn end_of(spots: &[Spot], from: usize) -> usize
    requires { from ≤ length spots.now }
    ensures after { from ≤ result }
    ensures inside { result ≤ length spots.now }
{
    for at in from..spots.len() {
        if spots[at].next.set().is_some() {
            return at + 1;
        }
    }
    spots.len()
}

/// Where the part at the entry ends.
pub fn entry_end(route: &Route) -> usize
    ensures { result ≤ length route.now.spots.items }
{
    match route.first {
        None => end_of(route.spots.as_slice(), 0),
        Some(_target) => 0,
    }
}
