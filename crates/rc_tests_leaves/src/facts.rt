// Small sets worked by hand.
ghost use Rattle.std.specs.Prelude.{◌≡◌};
ghost use Rattle.rc_facts.specs.Facts.{is_over};

use rc_base::NoMemory;
use rc_facts::{Fact, FactSet};
use std::alloc::Global;
use std::test::Fail;

/// How many facts over three variables the set has.
fn count(set: &FactSet) -> u32
    requires { set.now.variables ≡ 3 }
{
    let mut found = 0u32;
    for x in 0..3 {
        found = found.saturating_add(u32::from(set.has(Fact::Trad(x))));
        found = found.saturating_add(u32::from(set.has(Fact::NonNull(x))));
        for y in 0..3 {
            found = found.saturating_add(u32::from(set.has(Fact::In(x, y))));
            found = found.saturating_add(u32::from(set.has(Fact::Up(x, y))));
        }
    }
    found
}

/// What is done with a set over three variables, or what it is to answer.
#[derive(Clone, Copy)]
enum Step {
    Add(Fact),
    /// All that follows is put in.
    Close,
    /// The facts of one name become those of another.
    Rename(u32, u32),
    Forget(u32),
    Has(Fact),
    HasNot(Fact),
    /// It has so many facts.
    Count(u32),
}

/// Whether a fact is one over three variables.
fn is_over_three(fact: Fact) -> bool
    ensures { result ≡ is_over 3 fact }
{
    match fact {
        Fact::In(x, y) => x < 3 && y < 3,
        Fact::Up(x, y) => x < 3 && y < 3,
        Fact::Trad(x) => x < 3,
        Fact::NonNull(x) => x < 3,
    }
}

fn adds(set: &mut FactSet, fact: Fact) -> bool
    requires { set.old.variables ≡ 3 }
    ensures { set.new.variables ≡ 3 }
{
    if !is_over_three(fact) {
        return false;
    }
    set.add(fact);
    true
}

fn renames(set: &mut FactSet, from: u32, to: u32) -> bool
    requires { set.old.variables ≡ 3 }
    ensures { set.new.variables ≡ 3 }
{
    if from >= 3 || to >= 3 || from == to {
        return false;
    }
    set.rename(from, to);
    true
}

fn forgets(set: &mut FactSet, x: u32) -> bool
    requires { set.old.variables ≡ 3 }
    ensures { set.new.variables ≡ 3 }
{
    if x >= 3 {
        return false;
    }
    set.forget(x);
    true
}

/// Whether the set has the fact, or hasn't it.
fn tells(set: &FactSet, fact: Fact, has: bool) -> bool
    requires { set.now.variables ≡ 3 }
{
    if !is_over_three(fact) {
        return false;
    }
    set.has(fact) == has
}

/// Takes a step, and says whether the answer is as wanted.
fn takes(set: &mut FactSet, step: Step) -> bool
    requires { set.old.variables ≡ 3 }
    ensures { set.new.variables ≡ 3 }
{
    match step {
        Step::Add(fact) => adds(set, fact),
        Step::Close => {
            set.close();
            true
        }
        Step::Rename(from, to) => renames(set, from, to),
        Step::Forget(x) => forgets(set, x),
        Step::Has(fact) => tells(set, fact, true),
        Step::HasNot(fact) => tells(set, fact, false),
        Step::Count(number) => count(set) == number,
    }
}

/// The first step that isn't answered as wanted, if there is one.
fn first_wrong(set: &mut FactSet, steps: &[Step]) -> Option<usize>
    requires { set.old.variables ≡ 3 }
{
    let mut place = 0usize;
    for step in steps {
        if !takes(set, *step) {
            return Some(place);
        }
        place = place.saturating_add(1);
    }
    None
}

/// The same from an empty set on.
fn wrong_from_none(alloc: Global, steps: &[Step]) -> Result<Option<usize>, NoMemory> {
    let mut set = FactSet::empty(alloc, 3)?;
    Ok(first_wrong(&mut set, steps))
}

/// The same from the set of all facts on.
fn wrong_from_all(alloc: Global, steps: &[Step]) -> Result<Option<usize>, NoMemory> {
    let mut set = FactSet::full(alloc, 3)?;
    Ok(first_wrong(&mut set, steps))
}

/// Whether two sets meet in one fact, and don't change when they meet again.
fn meet_in_one(set: &mut FactSet, other: &FactSet) -> bool
    requires set { set.old.variables ≡ 3 }
    requires other { other.now.variables ≡ 3 }
    ensures { set.new.variables ≡ 3 }
{
    set.meet(other) && tells(set, Fact::In(0, 1), true) && count(set) == 1 && !set.meet(other)
}

/// Whether the set of all facts keeps a set as it is when they meet, and comes to be like it.
fn becomes_one(set: &mut FactSet, all: &mut FactSet) -> bool
    requires set { set.old.variables ≡ 3 }
    requires all { all.old.variables ≡ 3 }
{
    !set.meet(all) && all.meet(set) && count(all) == 1
}

/// The common facts are kept, and a meeting says whether it dropped one.
fn common_facts_are_kept(alloc: Global) -> Result<bool, NoMemory> {
    let mut set = FactSet::empty(alloc, 3)?;
    let mut other = FactSet::empty(alloc, 3)?;
    let all = FactSet::full(alloc, 3)?;
    set.add(Fact::In(0, 1));
    set.add(Fact::Trad(2));
    other.add(Fact::In(0, 1));
    if !meet_in_one(&mut set, &other) {
        return Ok(false);
    }
    other.copy(&all);
    Ok(becomes_one(&mut set, &mut other))
}

/// Two variables name one region: five links In, of which three are of a variable to itself, the same Up,
/// and two NonNull.
const ONE_REGION: [Step; 11] = [
    Step::Add(Fact::In(0, 1)),
    Step::Add(Fact::NonNull(0)),
    Step::Count(2),
    Step::Close,
    Step::Has(Fact::In(1, 0)),
    Step::Has(Fact::NonNull(1)),
    Step::Has(Fact::Up(0, 1)),
    Step::Has(Fact::Up(1, 0)),
    Step::HasNot(Fact::In(0, 2)),
    Step::HasNot(Fact::NonNull(2)),
    Step::Count(12),
];

/// What is above the traditional region is traditional: each variable In itself, the same Up with three
/// links more, two Trad and one NonNull; and then all three.
const TRADITIONAL: [Step; 15] = [
    Step::Add(Fact::Up(0, 1)),
    Step::Add(Fact::Trad(1)),
    Step::Add(Fact::NonNull(2)),
    Step::Close,
    Step::Has(Fact::Trad(0)),
    Step::Has(Fact::Up(0, 2)),
    Step::Has(Fact::Up(1, 2)),
    Step::HasNot(Fact::In(0, 1)),
    Step::Count(12),
    Step::Add(Fact::Trad(2)),
    Step::Close,
    Step::Has(Fact::In(0, 2)),
    Step::Has(Fact::In(1, 2)),
    Step::HasNot(Fact::In(2, 0)),
    Step::Count(15),
];

const CLOSED: [Step; 3] = [Step::Count(24), Step::Close, Step::Count(24)];

/// The facts of one name become those of another, and are forgotten.
const RENAMED: [Step; 14] = [
    Step::Add(Fact::In(0, 0)),
    Step::Add(Fact::Up(0, 1)),
    Step::Add(Fact::In(2, 0)),
    Step::Add(Fact::Trad(0)),
    Step::Add(Fact::NonNull(2)),
    Step::Rename(0, 2),
    Step::Has(Fact::In(2, 2)),
    Step::Has(Fact::Up(2, 1)),
    Step::Has(Fact::Trad(2)),
    Step::Count(3),
    Step::Forget(1),
    Step::Count(2),
    Step::Forget(2),
    Step::Count(0),
];

#[test]
fn what_follows_from_small_sets(rt: HostRuntime) -> Result<(), Fail> {
    assert_eq!(rt; wrong_from_none(rt.alloc(), &ONE_REGION)?, None);
    assert_eq!(rt; wrong_from_none(rt.alloc(), &TRADITIONAL)?, None);
    assert_eq!(rt; wrong_from_all(rt.alloc(), &CLOSED)?, None);
    Ok(())
}

#[test]
fn sets_meet(rt: HostRuntime) -> Result<(), Fail> {
    assert!(rt; common_facts_are_kept(rt.alloc())?);
    Ok(())
}

#[test]
fn names_change(rt: HostRuntime) -> Result<(), Fail> {
    assert_eq!(rt; wrong_from_none(rt.alloc(), &RENAMED)?, None);
    Ok(())
}
