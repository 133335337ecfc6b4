// Which stops lead to a stop.
ghost use Rattle.std.specs.Prelude.{◌≡◌, ◌<◌, ◌+◌, List, IfOk, IfSome, length, get_or, replicate};
ghost use Rattle.rc_stops.specs.declared.stop.Stop.{Stop as AnyStop};
ghost use Rattle.rc_stops.specs.Waits.{AreLinks, LinksFrom};
ghost use Rattle.rc_stops.specs.Paths.{stop_at};
ghost use Rattle.rc_stops.specs.Rows.{AllFit};

use crate::looking::stop_of;
use crate::stop::Stop;
use rc_base::NoMemory;
use std::alloc::Global;

/// The stops that lead to each, other than by falling: lists in increasing order. The number of all stops
/// stands at the end of a list.
#[derive(Drop)]
pub(crate) struct Links {
    /// The first that leads to a stop.
    pub first: Vec<usize>,
    /// Behind a stop, the next that leads where it leads.
    pub next: Vec<usize>,
}

/// The number at that place.
fn get(list: &[usize], at: usize) -> usize
    requires { at < length list.now }
    ensures { result ≡ get_or list.now at 0 }
{
    list[at]
}

/// Puts a stop before the others that lead where it leads, if it leads anywhere.
fn link_to(first: &mut [usize], next: &mut [usize], leads: Option<usize>, at: usize)
    requires at { at < length next.old }
    requires to { IfSome leads (λ to. to < length first.old) }
    ensures first { length first.new ≡ length first.old }
    ensures next { length next.new ≡ length next.old }
    ensures links { (stops : List AnyStop) → at < length stops → length first.old ≡ length stops → length next.old ≡ length stops → (stop_at stops at).leads ≡ leads → LinksFrom stops (at + 1) first.old next.old → LinksFrom stops at first.new next.new }
{
    match leads {
        None => {}
        Some(to) => {
            let before = get(first, to);
            next[at] = before;
            first[to] = at;
        }
    }
}

/// Puts a stop before the others that lead where it leads.
fn link(first: &mut [usize], next: &mut [usize], stops: &[Stop], at: usize)
    requires at { at < length stops.now }
    requires first { length first.old ≡ length stops.now }
    requires next { length next.old ≡ length stops.now }
    requires fits { AllFit stops.now }
    ensures first { length first.new ≡ length first.old }
    ensures next { length next.new ≡ length next.old }
    ensures links { LinksFrom stops.now (at + 1) first.old next.old → LinksFrom stops.now at first.new next.new }
{
    let stop = stop_of(stops, at);
    link_to(first, next, stop.leads, at);
}

/// Links all stops.
fn link_all(first: &mut [usize], next: &mut [usize], stops: &[Stop])
    requires first { length first.old ≡ length stops.now }
    requires next { length next.old ≡ length stops.now }
    requires fits { AllFit stops.now }
    requires links { LinksFrom stops.now (length stops.now) first.old next.old }
    ensures first { length first.new ≡ length first.old }
    ensures next { length next.new ≡ length next.old }
    ensures links { LinksFrom stops.now 0 first.new next.new }
{
    let mut left = stops.len();
    'stops: while left > 0 {
        let at = left - 1;
        link(first, next, stops, at);
        left = at;
    }
}

/// A list of as many ends.
fn ends(alloc: Global, count: usize) -> Result<Vec<usize>, NoMemory>
    ensures { IfOk result (λ list. list.items ≡ replicate count count) }
{
    Ok(Vec::from_elem(alloc, count, count)?)
}

/// The links of the stops.
pub(crate) fn links_of(alloc: Global, stops: &[Stop]) -> Result<Links, NoMemory>
    requires fits { AllFit stops.now }
    ensures { IfOk result (λ links. AreLinks stops.now links.first.items links.next.items) }
{
    let mut first = ends(alloc, stops.len())?;
    let mut next = ends(alloc, stops.len())?;
    link_all(&mut first, &mut next, stops);
    Ok(Links { first, next })
}

impl Links {
    /// The first that leads to a stop, or the number of all.
    pub(crate) fn first_to(&self, at: usize) -> usize
        requires { at < length self.now.first.items }
        ensures { result ≡ get_or self.now.first.items at 0 }
    {
        get(&self.first, at)
    }

    /// Behind a stop, the next that leads where it leads, or the number of all.
    pub(crate) fn next_of(&self, at: usize) -> usize
        requires { at < length self.now.next.items }
        ensures { result ≡ get_or self.now.next.items at 0 }
    {
        get(&self.next, at)
    }
}
