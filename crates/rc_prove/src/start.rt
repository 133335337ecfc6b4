// Where the search begins: with all facts.
ghost use Rattle.std.specs.Prelude.{◌≡◌, ◌<◌, ◌≤◌, ◌+◌, ℕ, suc, length, get_or, IfOk, OnOk};
ghost use Rattle.std.specs.List.{All};
ghost use Rattle.rc_facts.specs.declared.fact.Fact.{Fact};
ghost use Rattle.rc_facts.specs.Facts.{holds, is_over};
ghost use Rattle.rc_prove.specs.declared.start.Counts.{Counts as AnyCounts};
ghost use Rattle.rc_prove.specs.Family.{family_of};
ghost use Rattle.rc_prove.specs.Starting.{AreFull, CountsFit, IsBegun, IsFull, Pushed};

use rc_base::NoMemory;
use rc_facts::FactSet;
use rc_target_sets::TargetSet;
use std::alloc::Global;

/// How many variables the facts of a function's sets speak of.
#[derive(Clone, Copy)]
pub struct Counts {
    /// At its entry: its hidden copies.
    pub copies: u32,
    /// At its exit: these, and its result if that is a region or a pointer.
    pub answers: u32,
    /// Before its targets: its hidden copies and its locals.
    pub locals: u32,
    /// All of them.
    pub variables: u32,
    /// How many targets it has.
    pub targets: usize,
}

/// The sets that a search lowers: of the entries and the exits of all functions, and of the targets of
/// each.
#[derive(Drop)]
pub struct Claims {
    pub entries: Vec<FactSet>,
    pub exits: Vec<FactSet>,
    pub frames: Vec<Vec<FactSet>>,
}

/// The same, as a search has them.
#[derive(Drop)]
pub(crate) struct Sets {
    pub(crate) entries: Vec<FactSet>,
    pub(crate) exits: Vec<FactSet>,
    pub(crate) frames: Vec<Vec<TargetSet>>,
}

/// Drops the facts that name a variable behind the first `count` of them, from the last one down.
fn forget_behind(set: &mut FactSet, count: u32, variables: u32)
    requires room { count ≤ variables }
    requires full { IsFull variables variables set.old }
    ensures { IsFull count variables set.new }
{
    for gone in 0..variables - count {
        set.forget(variables - 1 - gone);
    }
}

/// All facts on the first of some variables.
fn all_over(alloc: Global, count: u32, variables: u32) -> Result<FactSet, NoMemory>
    requires room { count ≤ variables }
    requires few { variables ≤ 128 }
    ensures { IfOk result (IsFull count variables) }
{
    let mut set = FactSet::full(alloc, variables)?;
    forget_behind(&mut set, count, variables);
    Ok(set)
}

/// As many such sets.
fn frames_of(alloc: Global, counts: Counts) -> Result<Vec<TargetSet>, NoMemory>
    requires { CountsFit counts }
    ensures { IfOk result (λ all. AreFull counts.locals counts.variables counts.targets all.items) }
{
    let mut all = Vec::with_capacity(alloc, counts.targets)?;
    for _target in 0..counts.targets {
        let set = all_over(alloc, counts.locals, counts.variables)?;
        all.push(TargetSet::new(set))?;
    }
    Ok(all)
}

/// Puts a function's sets behind the others.
fn push_full(alloc: Global, claims: &mut Sets, counts: Counts) -> Result<(), NoMemory>
    requires { CountsFit counts }
    ensures { OnOk result (Pushed counts (family_of claims.old.entries.items claims.old.exits.items claims.old.frames.items) (family_of claims.new.entries.items claims.new.exits.items claims.new.frames.items)) }
{
    let entry = all_over(alloc, counts.copies, counts.copies)?;
    let exit = all_over(alloc, counts.answers, counts.copies + 1)?;
    let frames = frames_of(alloc, counts)?;
    claims.entries.push(entry)?;
    claims.exits.push(exit)?;
    claims.frames.push(frames)?;
    Ok(())
}

/// All facts that the sets of the functions may have.
pub(crate) fn full(alloc: Global, counts: &[Counts]) -> Result<Sets, NoMemory>
    requires { All (λ (c : AnyCounts). CountsFit c) counts.now }
    ensures { IfOk result (λ claims. IsBegun counts.now (length counts.now) (family_of claims.entries.items claims.exits.items claims.frames.items)) }
{
    let mut claims = Sets {
        entries: Vec::with_capacity(alloc, counts.len())?,
        exits: Vec::with_capacity(alloc, counts.len())?,
        frames: Vec::with_capacity(alloc, counts.len())?,
    };
    for at in 0..counts.len() {
        push_full(alloc, &mut claims, counts[at])?;
    }
    Ok(claims)
}
