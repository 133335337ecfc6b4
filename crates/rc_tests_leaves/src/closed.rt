// Closed sets that gain a fact, or in which a variable is assigned, beside sets that are closed anew.
ghost use Rattle.std.specs.Prelude.{◌≡◌, ◌<◌};
ghost use Rattle.rc_facts.specs.Facts.{holds, is_over};
ghost use Rattle.rc_facts.specs.Shut.{IsClean, IsShut};

use rc_base::NoMemory;
use rc_facts::{Fact, FactSet};
use std::alloc::Global;
use std::test::Fail;

/// What a set over four variables goes through, of which 3 is scratch: variable 0 gains a fact, or is
/// assigned by what is known of variable 1.
#[derive(Clone, Copy)]
enum Growth {
    Within,
    Above,
    Traditional,
    Present,
    Null,
    AssignedUnknown,
    AssignedMade,
    AssignedFixed,
    AssignedTraditional,
    AssignedWithin,
    AssignedAbove,
    AssignedUnder,
    AssignedMoved,
    AssignedNull,
}

const GROWTHS: [Growth; 14] = [
    Growth::Within,
    Growth::Above,
    Growth::Traditional,
    Growth::Present,
    Growth::Null,
    Growth::AssignedUnknown,
    Growth::AssignedMade,
    Growth::AssignedFixed,
    Growth::AssignedTraditional,
    Growth::AssignedWithin,
    Growth::AssignedAbove,
    Growth::AssignedUnder,
    Growth::AssignedMoved,
    Growth::AssignedNull,
];

/// The facts that it begins with, before they are closed.
const STARTS: [[Fact; 3]; 5] = [
    [Fact::In(0, 0), Fact::In(1, 1), Fact::In(2, 2)],
    [Fact::In(1, 2), Fact::NonNull(1), Fact::Up(0, 2)],
    [Fact::Up(1, 2), Fact::Trad(2), Fact::NonNull(2)],
    [Fact::In(0, 1), Fact::Up(2, 1), Fact::NonNull(2)],
    [Fact::Trad(1), Fact::NonNull(0), Fact::Up(0, 1)],
];

/// Closes a set, and forgets the scratch variable.
fn settle(set: &mut FactSet)
    requires { set.old.variables ≡ 4 }
    ensures variables { set.new.variables ≡ 4 }
    ensures shut { IsShut 4 3 (holds set.new) }
    ensures clean { IsClean 3 (holds set.new) }
{
    set.close();
    set.forget(3);
}

/// Adds what is over four variables.
fn add(set: &mut FactSet, fact: Fact)
    requires { set.old.variables ≡ 4 }
    ensures { set.new.variables ≡ 4 }
{
    if is_over_four(fact) {
        set.add(fact);
    }
}

fn is_over_four(fact: Fact) -> bool
    ensures { result ≡ is_over 4 fact }
{
    match fact {
        Fact::In(x, y) => x < 4 && y < 4,
        Fact::Up(x, y) => x < 4 && y < 4,
        Fact::Trad(x) => x < 4,
        Fact::NonNull(x) => x < 4,
    }
}

/// Lets a closed set go through it.
fn grow(set: &mut FactSet, growth: Growth)
    requires variables { set.old.variables ≡ 4 }
    requires shut { IsShut 4 3 (holds set.old) }
    requires clean { IsClean 3 (holds set.old) }
    ensures { set.new.variables ≡ 4 }
{
    match growth {
        Growth::Within => set.add_within(0, 1, 3),
        Growth::Above => set.add_above(0, 1, 3),
        Growth::Traditional => set.add_traditional(0),
        Growth::Present => set.add_present(0),
        Growth::Null => be_null(set),
        Growth::AssignedUnknown => set.assign_unknown(0, 3),
        Growth::AssignedMade => set.assign_made(0, 3),
        Growth::AssignedFixed => set.assign_fixed(0, 3),
        Growth::AssignedTraditional => set.assign_traditional(0, 3),
        Growth::AssignedWithin => set.assign_within(0, 1, 3),
        Growth::AssignedAbove => set.assign_above(0, 1, 3),
        Growth::AssignedUnder => set.assign_under(0, 1, 3),
        Growth::AssignedMoved => set.assign_moved(0, 1, 3),
        Growth::AssignedNull => set.assign_null(0, 3),
    }
}

/// Variable 0 is null, where it may be.
fn be_null(set: &mut FactSet)
    requires variables { set.old.variables ≡ 4 }
    requires shut { IsShut 4 3 (holds set.old) }
    requires clean { IsClean 3 (holds set.old) }
    ensures { set.new.variables ≡ 4 }
{
    if set.has(Fact::NonNull(0)) {
        add_null_facts(set, 0);
        settle(set);
        return;
    }
    set.add_null(0, 3);
}

/// Adds that a variable is traditional, and in the region of each.
fn add_null_facts(set: &mut FactSet, x: u32)
    requires variables { set.old.variables ≡ 4 }
    requires x { x < 4 }
    ensures { set.new.variables ≡ 4 }
{
    set.add(Fact::Trad(x));
    for other in 0..4 {
        set.add(Fact::In(x, other));
    }
}

/// Adds the facts of it, those of an assignment on the scratch variable.
fn add_facts(set: &mut FactSet, growth: Growth)
    requires { set.old.variables ≡ 4 }
    ensures { set.new.variables ≡ 4 }
{
    match growth {
        Growth::Within => set.add(Fact::In(0, 1)),
        Growth::Above => set.add(Fact::Up(0, 1)),
        Growth::Traditional => set.add(Fact::Trad(0)),
        Growth::Present => set.add(Fact::NonNull(0)),
        Growth::Null => add_null_facts(set, 0),
        Growth::AssignedUnknown => (),
        Growth::AssignedMade => set.add(Fact::NonNull(3)),
        Growth::AssignedFixed => {
            set.add(Fact::Trad(3));
            set.add(Fact::NonNull(3));
        }
        Growth::AssignedTraditional => set.add(Fact::Trad(3)),
        Growth::AssignedWithin => set.add(Fact::In(3, 1)),
        Growth::AssignedAbove => set.add(Fact::Up(3, 1)),
        Growth::AssignedUnder => {
            set.add(Fact::NonNull(3));
            set.add(Fact::Up(1, 3));
        }
        Growth::AssignedMoved => {
            set.add(Fact::In(3, 1));
            set.add(Fact::In(1, 3));
        }
        Growth::AssignedNull => add_null_facts(set, 3),
    }
}

/// Whether a variable is assigned.
fn assigns(growth: Growth) -> bool {
    match growth {
        Growth::Within => false,
        Growth::Above => false,
        Growth::Traditional => false,
        Growth::Present => false,
        Growth::Null => false,
        _ => true,
    }
}

/// The same by closing the set anew.
fn close_again(set: &mut FactSet, growth: Growth)
    requires { set.old.variables ≡ 4 }
    ensures { set.new.variables ≡ 4 }
{
    add_facts(set, growth);
    set.close();
    if assigns(growth) {
        set.rename(3, 0);
        return;
    }
    set.forget(3);
}

/// Whether both ways lead from these facts to one set.
fn lead_to_one(alloc: Global, start: &[Fact], growth: Growth) -> Result<bool, NoMemory> {
    let mut set = FactSet::empty(alloc, 4)?;
    let mut other = FactSet::empty(alloc, 4)?;
    for fact in start {
        add(&mut set, *fact);
    }
    settle(&mut set);
    other.copy(&set);
    grow(&mut set, growth);
    close_again(&mut other, growth);
    let kept = !set.meet(&other);
    Ok(kept && !other.meet(&set) && set.count() == 4)
}

/// How many growths from how many starts lead to another set.
fn differ(alloc: Global) -> Result<u32, NoMemory> {
    let mut found = 0u32;
    for start in &STARTS {
        for growth in &GROWTHS {
            if !lead_to_one(alloc, start, *growth)? {
                found = found.saturating_add(1);
            }
        }
    }
    Ok(found)
}

#[test]
fn closed_sets_grow_as_they_close(rt: HostRuntime) -> Result<(), Fail> {
    assert_eq!(rt; differ(rt.alloc())?, 0);
    Ok(())
}
