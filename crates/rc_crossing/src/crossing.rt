// What an effect makes of a closed set, of which no fact names the scratch variable.
ghost use Rattle.std.specs.Prelude.{◌≡◌, ◌<◌, ◌↔◌, ◌∷◌, [], Some, IsTrue, OnOk, suc, map};
ghost use Rattle.rc_facts.specs.declared.fact.Fact.{Fact as AnyFact};
ghost use Rattle.rc_facts.specs.declared.fact.Fact.TheVariants.{In, NonNull, Up};
ghost use Rattle.rc_facts.specs.Facts.{holds};
ghost use Rattle.rc_facts.specs.Shut.{IsBehind};
ghost use Rattle.rc_facts.specs.Flow.{set_at, Behind, IsClosed};
ghost use Rattle.rc_rlang.specs.RegionFlow.{assigned};
ghost use Rattle.rc_graph.specs.Nodes.{effect_of, entry_of};
ghost use Rattle.rc_edges.specs.Edges.{renewed, pairs_below, EffectBelow};
ghost use Rattle.rc_edges.specs.News.{news_of, note_news, pair_news};
ghost use Rattle.rc_crossing.specs.Fitting.{CallFits};

use crate::calls::{call, learn_null};
use rc_base::NoMemory;
use rc_core::ty::Note;
use rc_facts::{Fact, FactSet};
use rc_graph::{Effect, Entry};
use std::alloc::Global;

/// A variable isn't null.
fn look_at(set: &mut FactSet, y: u32, scratch: u32)
    requires y { y < scratch }
    requires scratch { scratch < set.old.variables }
    requires closed { IsClosed set.old.variables scratch (holds set.old) }
    ensures variables { set.new.variables ≡ set.old.variables }
    ensures facts { (fact : AnyFact) → IsTrue (holds set.new fact) ↔ IsBehind set.old.variables scratch (holds set.old) (NonNull y ∷ []) fact }
{
    if set.has(Fact::NonNull(y)) {
        return;
    }
    set.add_present(y);
}

/// A value may stand in a cell with this annotation, of an object of the region of `y`.
fn note(set: &mut FactSet, value: u32, y: u32, note: Note, scratch: u32)
    requires value { value < scratch }
    requires y { y < scratch }
    requires scratch { scratch < set.old.variables }
    requires closed { IsClosed set.old.variables scratch (holds set.old) }
    ensures variables { set.new.variables ≡ set.old.variables }
    ensures facts { (fact : AnyFact) → IsTrue (holds set.new fact) ↔ IsBehind set.old.variables scratch (holds set.old) (note_news note value y) fact }
{
    match note {
        Note::Plain => (),
        Note::SameRegion => set.add_within(value, y, scratch),
        Note::ParentPtr => set.add_above(value, y, scratch),
        Note::Traditional => set.add_traditional(value),
    }
}

/// A variable gets what may stand in a cell with this annotation.
fn assign_noted(set: &mut FactSet, x: u32, y: u32, note: Note, scratch: u32)
    requires x { x < scratch }
    requires y { y < scratch }
    requires scratch { scratch < set.old.variables }
    requires closed { IsClosed set.old.variables scratch (holds set.old) }
    ensures variables { set.new.variables ≡ set.old.variables }
    ensures facts { (fact : AnyFact) → IsTrue (holds set.new fact) ↔ Behind set.old.variables scratch (Some x) (note_news note scratch y) (holds set.old) fact }
{
    match note {
        Note::Plain => set.assign_unknown(x, scratch),
        Note::SameRegion => set.assign_within(x, y, scratch),
        Note::ParentPtr => set.assign_above(x, y, scratch),
        Note::Traditional => set.assign_traditional(x, scratch),
    }
}

/// A value is stored into a cell with this annotation, to which `y` points.
fn store(set: &mut FactSet, value: u32, y: u32, annotation: Note, scratch: u32)
    requires value { value < scratch }
    requires y { y < scratch }
    requires scratch { scratch < set.old.variables }
    requires closed { IsClosed set.old.variables scratch (holds set.old) }
    ensures variables { set.new.variables ≡ set.old.variables }
    ensures facts { (fact : AnyFact) → IsTrue (holds set.new fact) ↔ IsBehind set.old.variables scratch (holds set.old) (NonNull y ∷ note_news annotation value y) fact }
{
    look_at(set, y, scratch);
    note(set, value, y, annotation, scratch);
}

/// A variable gets what stands in a cell with this annotation, to which `y` points.
fn load(set: &mut FactSet, x: u32, y: u32, annotation: Note, scratch: u32)
    requires x { x < scratch }
    requires y { y < scratch }
    requires scratch { scratch < set.old.variables }
    requires closed { IsClosed set.old.variables scratch (holds set.old) }
    ensures variables { set.new.variables ≡ set.old.variables }
    ensures facts { (fact : AnyFact) → IsTrue (holds set.new fact) ↔ Behind set.old.variables scratch (Some x) (NonNull y ∷ note_news annotation scratch y) (holds set.old) fact }
{
    look_at(set, y, scratch);
    assign_noted(set, x, y, annotation, scratch);
}

/// A variable gets a new object of the region of `y`.
fn assign_beside(set: &mut FactSet, x: u32, y: u32, scratch: u32)
    requires x { x < scratch }
    requires y { y < scratch }
    requires scratch { scratch < set.old.variables }
    requires closed { IsClosed set.old.variables scratch (holds set.old) }
    ensures variables { set.new.variables ≡ set.old.variables }
    ensures facts { (fact : AnyFact) → IsTrue (holds set.new fact) ↔ Behind set.old.variables scratch (Some x) (NonNull y ∷ NonNull scratch ∷ In scratch y ∷ []) (holds set.old) fact }
{
    look_at(set, y, scratch);
    set.assign_moved(x, y, scratch);
}

/// A variable gets a new region under that of `y`.
fn assign_below(set: &mut FactSet, x: u32, y: u32, scratch: u32)
    requires x { x < scratch }
    requires y { y < scratch }
    requires scratch { scratch < set.old.variables }
    requires closed { IsClosed set.old.variables scratch (holds set.old) }
    ensures variables { set.new.variables ≡ set.old.variables }
    ensures facts { (fact : AnyFact) → IsTrue (holds set.new fact) ↔ Behind set.old.variables scratch (Some x) (NonNull y ∷ NonNull scratch ∷ Up y scratch ∷ []) (holds set.old) fact }
{
    look_at(set, y, scratch);
    set.assign_under(x, y, scratch);
}

/// A variable is in the region of another, or null.
fn link(set: &mut FactSet, x: u32, y: u32, scratch: u32)
    requires x { x < scratch }
    requires y { y < scratch }
    requires scratch { scratch < set.old.variables }
    requires closed { IsClosed set.old.variables scratch (holds set.old) }
    ensures variables { set.new.variables ≡ set.old.variables }
    ensures facts { (fact : AnyFact) → IsTrue (holds set.new fact) ↔ IsBehind set.old.variables scratch (holds set.old) (In x y ∷ []) fact }
{
    if set.has(Fact::In(x, y)) {
        return;
    }
    set.add_within(x, y, scratch);
}

/// Parameters and their hidden copies are in each other's regions.
fn enter(set: &mut FactSet, entries: &[Entry], scratch: u32)
    requires below { pairs_below scratch (map entry_of entries.now) }
    requires scratch { scratch < set.old.variables }
    requires closed { IsClosed set.old.variables scratch (holds set.old) }
    ensures variables { set.new.variables ≡ set.old.variables }
    ensures facts { (fact : AnyFact) → IsTrue (holds set.new fact) ↔ IsBehind set.old.variables scratch (holds set.old) (pair_news (map entry_of entries.now)) fact }
{
    let Some((first, rest)) = entries.split_first() else {
        return;
    };
    link(set, first.local, first.copy, scratch);
    link(set, first.copy, first.local, scratch);
    enter(set, rest, scratch);
}

/// What may stand behind an effect: the facts before and the new ones, and all that is derivable then, in
/// which the scratch variable stands for the one that is assigned.
pub fn cross(
    alloc: Global,
    set: &mut FactSet,
    effect: &Effect,
    exits: &[FactSet],
    scratch: u32,
) -> Result<(), NoMemory>
    requires scratch { suc scratch ≡ set.old.variables }
    requires below { EffectBelow scratch (effect_of effect.now) }
    requires call { CallFits exits.now (effect_of effect.now) }
    requires closed { IsClosed set.old.variables scratch (holds set.old) }
    ensures variables { set.new.variables ≡ set.old.variables }
    ensures facts { OnOk result ((fact : AnyFact) → IsTrue (holds set.new fact) ↔ Behind set.old.variables scratch (assigned (effect_of effect.now)) (news_of set.old.variables (set_at exits.now) (renewed scratch (effect_of effect.now))) (holds set.old) fact) }
{
    match effect {
        Effect::Nothing => (),
        Effect::Nulled(x) => set.assign_null(*x, scratch),
        Effect::Moved(x, y) => set.assign_moved(*x, *y, scratch),
        Effect::Fixed(x) => set.assign_fixed(*x, scratch),
        Effect::Beside(x, y) => assign_beside(set, *x, *y, scratch),
        Effect::Made(x) => set.assign_made(*x, scratch),
        Effect::Under(x, y) => assign_below(set, *x, *y, scratch),
        Effect::Loaded(x, y, note) => load(set, *x, *y, *note, scratch),
        Effect::LookedAt(y) => look_at(set, *y, scratch),
        Effect::Stored(z, y, note) => store(set, *z, *y, *note, scratch),
        Effect::Present(y) => look_at(set, *y, scratch),
        Effect::Absent(y) => learn_null(alloc, set, *y, scratch)?,
        Effect::Called {
            result,
            function,
            arguments,
        } => call(
            alloc,
            set,
            &exits[*function as usize],
            arguments,
            *result,
            scratch,
        )?,
        Effect::Entered { entries } => enter(set, entries, scratch),
    }
    Ok(())
}
