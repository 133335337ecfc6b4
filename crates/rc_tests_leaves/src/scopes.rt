// Names get numbers, and inner names hide outer ones.
use rc_base::NoMemory;
use rc_scope::{Names, Scopes};
use std::alloc::Global;
use std::test::Fail;

/// What is done with scopes, or what they are to answer.
#[derive(Clone, Copy)]
enum Step {
    /// The name stands for this, or for nothing.
    Find(&'static [u8], Option<u32>),
    /// The name is put inside all others.
    Push(&'static [u8], u32),
    /// The innermost names are taken away until so many are left.
    Leave(usize),
    /// There are so many names.
    Count(usize),
}

fn finds(scopes: &Scopes<u32>, name: &[u8], number: Option<u32>) -> bool {
    match scopes.find(name) {
        Some(found) => number == Some(*found),
        None => number.is_none(),
    }
}

/// Takes a step, and says whether the answer is as wanted.
fn takes(scopes: &mut Scopes<u32>, step: Step) -> Result<bool, NoMemory> {
    match step {
        Step::Find(name, number) => Ok(finds(scopes, name, number)),
        Step::Push(name, number) => {
            scopes.push(name, number)?;
            Ok(true)
        }
        Step::Leave(depth) => {
            scopes.leave(depth);
            Ok(true)
        }
        Step::Count(count) => Ok(scopes.len() == count),
    }
}

/// The first step that isn't answered as wanted, if there is one.
fn first_wrong(alloc: Global, steps: &[Step]) -> Result<Option<usize>, NoMemory> {
    let mut scopes = Scopes::<u32>::new(alloc);
    for (place, step) in steps.iter().enumerate() {
        if !takes(&mut scopes, *step)? {
            return Ok(Some(place));
        }
    }
    Ok(None)
}

/// The names of an inner scope hide those of the outer one until it is left.
#[test]
fn inner_names_hide_outer_ones_until_their_scope_is_left(rt: HostRuntime) -> Result<(), Fail> {
    let steps: &[Step] = &[
        Step::Find(b"x", None),
        Step::Push(b"x", 1),
        Step::Push(b"y", 2),
        Step::Count(2),
        Step::Push(b"x", 3),
        Step::Push(b"", 4),
        Step::Find(b"x", Some(3)),
        Step::Find(b"y", Some(2)),
        Step::Find(b"", Some(4)),
        Step::Leave(2),
        Step::Find(b"x", Some(1)),
        Step::Find(b"", None),
        Step::Leave(5),
        Step::Count(2),
        Step::Leave(0),
        Step::Find(b"x", None),
    ];
    assert_eq!(rt; first_wrong(rt.alloc(), steps)?, None);
    Ok(())
}

/// What names are to answer.
#[derive(Clone, Copy)]
enum Ask {
    /// The name has this number, or none.
    Find(&'static [u8], Option<u32>),
    /// The name gets this number.
    Number(&'static [u8], u32),
    /// There are so many names.
    Count(usize),
}

/// The number that a name gets, where there are few names.
fn number(names: &mut Names, name: &[u8]) -> Result<Option<u32>, NoMemory> {
    if names.len() >= 100 {
        return Ok(None);
    }
    Ok(Some(names.number(name)?))
}

fn answers(names: &mut Names, ask: Ask) -> Result<bool, NoMemory> {
    match ask {
        Ask::Find(name, wanted) => Ok(names.find(name) == wanted),
        Ask::Number(name, wanted) => Ok(number(names, name)? == Some(wanted)),
        Ask::Count(count) => Ok(names.len() == count),
    }
}

/// The first question that isn't answered as wanted, if there is one.
fn first_misnamed(alloc: Global, asks: &[Ask]) -> Result<Option<usize>, NoMemory> {
    let mut names = Names::new(alloc);
    for (place, ask) in asks.iter().enumerate() {
        if !answers(&mut names, *ask)? {
            return Ok(Some(place));
        }
    }
    Ok(None)
}

/// A name keeps the number that it got at first sight.
#[test]
fn numbers_go_up_in_order_of_first_sight(rt: HostRuntime) -> Result<(), Fail> {
    let asks: &[Ask] = &[
        Ask::Count(0),
        Ask::Find(b"main", None),
        Ask::Number(b"main", 0),
        Ask::Number(b"", 1),
        Ask::Number(b"mai", 2),
        Ask::Number(b"main", 0),
        Ask::Count(3),
        Ask::Find(b"mai", Some(2)),
        Ask::Find(b"", Some(1)),
        Ask::Find(b"mains", None),
    ];
    assert_eq!(rt; first_misnamed(rt.alloc(), asks)?, None);
    Ok(())
}
