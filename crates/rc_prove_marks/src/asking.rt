// What the check of a store asks.
ghost use Rattle.std.specs.Prelude.{◌≡◌, is_some, IfSome, IsTrue};
ghost use Rattle.std.specs.List.{list_any};
ghost use Rattle.rc_facts.specs.Facts.{holds, is_over};
ghost use Rattle.rc_annotations.specs.Annotations.{asked, asked_of};
ghost use Rattle.rc_graph.specs.Nodes.{effect_of};
ghost use Rattle.rc_prove_marks.specs.Going.{asks, has_it};

use rc_core::ty::Note;
use rc_facts::{Fact, FactSet};
use rc_graph::Effect;
use rc_prove_parts::Spot;

/// The fact that the check of a store asks, where its cell has an annotation.
fn asked(note: Note, value: u32, holder: u32) -> Option<Fact>
    ensures { result ≡ asked note value holder }
{
    match note {
        Note::Plain => None,
        Note::SameRegion => Some(Fact::In(value, holder)),
        Note::ParentPtr => Some(Fact::Up(value, holder)),
        Note::Traditional => Some(Fact::Trad(value)),
    }
}

/// The fact that an effect asks, if it does.
fn asked_of(effect: &Effect) -> Option<Fact>
    ensures { result ≡ asked_of (effect_of effect.now) }
{
    match effect {
        Effect::Stored(value, holder, note) => asked(*note, *value, *holder),
        _ => None,
    }
}

fn asks(effect: &Effect) -> bool
    ensures { result ≡ is_some (asked_of (effect_of effect.now)) }
{
    asked_of(effect).is_some()
}

/// Whether one of these instructions asks a fact.
pub(crate) fn some_asks(spots: &[Spot]) -> bool
    ensures { result ≡ list_any asks spots.now }
{
    for spot in spots {
        if asks(&spot.effect) {
            return true;
        }
    }
    false
}

/// Whether a set has the fact that an effect asks.
pub(crate) fn proves(work: &FactSet, effect: &Effect) -> bool
    requires { IfSome (asked_of (effect_of effect.now)) (λ fact. IsTrue (is_over work.now.variables fact)) }
    ensures { result ≡ has_it (holds work.now) (asked_of (effect_of effect.now)) }
{
    match asked_of(effect) {
        None => false,
        Some(fact) => work.has(fact),
    }
}
