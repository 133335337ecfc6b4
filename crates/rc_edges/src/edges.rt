// Region code as edges that carry facts. `specs/Edges` says when an edge carries facts as an effect of
// region code does, and `specs/EdgeLaws` what follows. `specs/Families` says when facts that are kept for
// all functions are settled.
ghost use Rattle.std.specs.Prelude.{◌≡◌, ℕ, slice_get, Some};
ghost use Rattle.rc_rlang.specs.RegionCode.{Routine, Rlang};
ghost use Rattle.rc_rlang.specs.IsRlang.{IsRlang};
ghost use Rattle.rc_annotations.specs.Heights.{temporaries_of};
ghost use Rattle.rc_rlang.specs.RegionFlow.{Effect};
ghost use Rattle.rc_annotations.specs.Annotations.{Annotation, exit_facts};
ghost use Rattle.rc_edges.specs.Edges.{AreNews, EffectBelow};
ghost use Rattle.rc_edges.specs.News.{news_of};
ghost use Rattle.rc_edges.specs.EdgeLaws.{EdgesAllow, FewerDerive};
ghost use Rattle.rc_edges.specs.Families.{Owned, SettledConsistent, SearchKeeps};

/// What an edge carries is what is allowed behind its effect: facts may be kept without the result, which
/// no point speaks of (`edges`). Over fewer variables as much is derivable of what is spoken of (`fewer`).
pub fn edges_carry_what_effects_allow()
    ensures edges { EdgesAllow }
    ensures fewer { FewerDerive }
{}

/// What an effect adds on its own variables is a list of facts, each of which is written out.
pub fn effects_add_lists()
    ensures { (n : ℕ) (a : Annotation) (effect : Effect) → EffectBelow n effect → AreNews n (exit_facts a) effect (news_of n a.exit effect) }
{}

/// In region code whose parts fit together the effects of each function speak of its own variables, before
/// its result, its edges lead to its points, and it has no more variables than a set of facts can have.
pub fn effects_speak_of_own_variables()
    ensures { (r : Rlang) → IsRlang r → (g : ℕ) (f : Routine) → slice_get r.functions g ≡ Some f → Owned r (temporaries_of r) g f }
{}

/// Facts that are kept for all functions, of which no edge, call, entry or return drops one, are a
/// consistent annotation (`consistent`). A search for them that goes downward from all facts keeps each
/// consistent annotation inside (`kept`).
pub fn settled_families_are_consistent()
    ensures consistent { (r : Rlang) (temporaries : ℕ → ℕ) → SettledConsistent r temporaries }
    ensures kept { (r : Rlang) (temporaries : ℕ → ℕ) → SearchKeeps r temporaries }
{}
