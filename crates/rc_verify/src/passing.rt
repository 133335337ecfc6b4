// One pass over a function, with one set of facts.
ghost use Rattle.std.specs.Prelude.{◌≡◌, ◌<◌, ◌≤◌, ◌+◌, ◌↔◌, true, false, IsTrue, IfOk, MatchBool, MatchOption, length};
ghost use Rattle.std.specs.List.{All};
ghost use Rattle.rc_facts.specs.declared.fact.Fact.{Fact as AnyFact};
ghost use Rattle.rc_facts.specs.Facts.{holds, is_over};
ghost use Rattle.rc_facts.specs.Derivable.{Derivable};
ghost use Rattle.rc_facts.specs.Flow.{set_at};
ghost use Rattle.rc_claims.specs.Claims.{ProofsFit};
ghost use Rattle.rc_sealed.specs.ImageVariables.{scratch, variables};
ghost use Rattle.rc_sealed.specs.Carrying.{height as height_at};
ghost use Rattle.rc_sealed.specs.Claimed.{annotation_of};
ghost use Rattle.rc_sealed.specs.Proved.{EntryIsProved};
ghost use Rattle.rc_carrying.specs.Asked.{Passed};
ghost use Rattle.rc_carrying.specs.Passing.{listed};
ghost use Rattle.rc_image_steps.specs.Sites.{function_in, image_of, AreExits, IsSite};
ghost use Rattle.rc_verify.specs.Firsts.{TellsUnproved};
ghost use Rattle.rc_verify.specs.Passes.{claimed, count, Entered, IsAt, IsPass, Taken};
ghost use Rattle.rc_crossing.specs.Fitting.{lacks};

use crate::numbers::number_of;
use rc_base::NoMemory;
use rc_carrying::{restart, visit};
use rc_claims::Proofs;
use rc_crossing::lacks;
use rc_facts::{Fact, FactSet};
use rc_image_counts::function_of;
use rc_image_steps::{Site, begins, frame_of, next_height, step_of};
use std::alloc::Global;

/// What a pass goes by.
#[derive(Clone, Copy)]
pub(crate) struct Pass<'a> {
    pub(crate) alloc: Global,
    pub(crate) site: Site<'a>,
    pub(crate) proofs: &'a Proofs,
    /// The facts of the exits of all functions.
    pub(crate) exits: &'a [FactSet],
    /// The set of no fact.
    pub(crate) none: &'a FactSet,
}

/// How many variables there are before the scratch variable.
fn scratch_of(pass: &Pass<'_>) -> u32
    requires { IsPass pass.now }
    ensures { result ≡ scratch (image_of pass.now.site) (function_in pass.now.site) }
{
    pass.site.shape.result + 1
}

/// Takes the facts of a frame in place of the set's own, if there is one.
fn restart_at(set: &mut FactSet, none: &FactSet, frame: &Option<Vec<Fact>>)
    requires variables { none.now.variables ≡ set.old.variables }
    requires none { (fact : AnyFact) → holds none.now fact ≡ false }
    requires over { MatchOption frame.now (Unit {0}) (λ facts. All (λ p. IsTrue (is_over set.old.variables p)) facts.items) }
    ensures variables { set.new.variables ≡ set.old.variables }
    ensures facts { MatchOption frame.now (set.new ≡ set.old) (λ facts. (fact : AnyFact) → IsTrue (holds set.new fact) ↔ Derivable set.old.variables (listed facts.items) fact) }
{
    match frame {
        None => (),
        Some(facts) => restart(set, none, facts.as_slice()),
    }
}

/// Goes on over an instruction, before which so many operands stand, if all follows that it asks.
fn go_on(pass: &Pass<'_>, set: &mut FactSet, at: u32, height: usize) -> Result<bool, NoMemory>
    requires pass { IsPass pass.now }
    requires there { at < length (function_in pass.now.site).code }
    requires height { height ≡ height_at (image_of pass.now.site) (function_in pass.now.site) at }
    requires here { IsAt pass.now at set.old }
    ensures { IfOk result (λ passed. MatchBool passed (IsAt pass.now (at + 1) set.new) (Passed (image_of pass.now.site) (claimed pass.now) pass.now.site.number at → ⊥)) }
{
    let step = step_of(pass.alloc, &pass.site, pass.proofs, at, height)?;
    if !visit(pass.alloc, set, &step, pass.exits, scratch_of(pass))? {
        return Ok(false);
    }
    restart_at(set, pass.none, &step.frame);
    Ok(true)
}

/// Takes what follows from the facts of a frame in place of the set's own, if that has them, and says
/// whether it has.
fn take_frame(set: &mut FactSet, none: &FactSet, frame: &[Fact]) -> bool
    requires variables { none.now.variables ≡ set.old.variables }
    requires none { (fact : AnyFact) → holds none.now fact ≡ false }
    requires over { All (λ p. IsTrue (is_over set.old.variables p)) frame.now }
    ensures variables { set.new.variables ≡ set.old.variables }
    ensures told { MatchBool result (Taken (holds set.old) frame.now set.new) (lacks (holds set.old) frame.now ≡ true) }
{
    if lacks(set, frame) {
        return false;
    }
    restart(set, none, frame);
    true
}

/// Takes what follows from what is known where the function begins; or from the first frame, if that
/// follows from it.
fn enter(pass: &Pass<'_>, set: &mut FactSet) -> Result<bool, NoMemory>
    requires pass { IsPass pass.now }
    requires variables { set.old.variables ≡ count pass.now }
    ensures { IfOk result (λ proved. MatchBool proved (Entered pass.now set.new) (EntryIsProved (image_of pass.now.site) (claimed pass.now) pass.now.site.number 0 → ⊥)) }
{
    let facts = begins(pass.alloc, &pass.site, pass.proofs)?;
    restart(set, pass.none, facts.as_slice());
    let first = frame_of(pass.alloc, &pass.site, pass.proofs, 0)?;
    match first {
        None => Ok(true),
        Some(frame) => Ok(take_frame(set, pass.none, frame.as_slice())),
    }
}

/// How many instructions there are.
fn size_of(pass: &Pass<'_>) -> usize
    requires { IsPass pass.now }
    ensures { result ≡ length (function_in pass.now.site).code }
{
    function_of(pass.site.parts, pass.site.number)
        .code
        .as_slice()
        .len()
}

/// The first instruction that isn't proved, from the first on, at which the set is.
fn first_from(pass: &Pass<'_>, set: &mut FactSet) -> Result<Option<u32>, NoMemory>
    requires pass { IsPass pass.now }
    requires entered { Entered pass.now set.old }
    ensures { IfOk result (λ found. TellsUnproved pass.now.site.parts.now (claimed pass.now) pass.now.site.number found) }
{
    let mut height = 0usize;
    for at in 0..size_of(pass) {
        let number = number_of(at)?;
        if !go_on(pass, set, number, height)? {
            return Ok(Some(number));
        }
        let next = next_height(&pass.site, number, height);
        height = next;
    }
    Ok(None)
}

/// The first instruction that isn't proved.
fn first_in(pass: &Pass<'_>, set: &mut FactSet) -> Result<Option<u32>, NoMemory>
    requires pass { IsPass pass.now }
    requires variables { set.old.variables ≡ count pass.now }
    ensures { IfOk result (λ found. TellsUnproved pass.now.site.parts.now (claimed pass.now) pass.now.site.number found) }
{
    if !enter(pass, set)? {
        return Ok(Some(0));
    }
    first_from(pass, set)
}

/// How many variables the function has.
fn variables_of(site: &Site<'_>) -> u32
    requires { IsSite site.now }
    ensures count { result ≡ variables (image_of site.now) (function_in site.now) }
    ensures few { result ≤ 128 }
{
    site.shape.result + 2
}

/// The first instruction of a function that the proofs don't prove, if there is one. The exits have the
/// facts that the proofs claim. It takes one set of facts, and the facts that one instruction asks.
///
/// # Errors
///
/// Out of memory.
pub fn first_unproved(
    alloc: Global,
    site: &Site<'_>,
    proofs: &Proofs,
    exits: &[FactSet],
) -> Result<Option<u32>, NoMemory>
    requires site { IsSite site.now }
    requires claims { ProofsFit site.now.parts.now proofs.now }
    requires exits { AreExits site.now.parts.now exits.now }
    requires leaves { (h : _) (fact : AnyFact) → set_at exits.now h fact ≡ (annotation_of site.now.parts.now proofs.now).exit h fact }
    ensures { IfOk result (λ found. TellsUnproved site.now.parts.now (annotation_of site.now.parts.now proofs.now) site.now.number found) }
{
    let count = variables_of(site);
    let none = FactSet::empty(alloc, count)?;
    let mut set = FactSet::empty(alloc, count)?;
    let pass = Pass {
        alloc,
        site: *site,
        proofs,
        exits,
        none: &none,
    };
    first_in(&pass, &mut set)
}
