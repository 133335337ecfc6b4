// What a pass does at one instruction.
ghost use Rattle.std.specs.Prelude.{◌≡◌, ◌↔◌, false, IsTrue, IfOk};
ghost use Rattle.std.specs.List.{All};
ghost use Rattle.rc_facts.specs.declared.fact.Fact.{Fact as AnyFact};
ghost use Rattle.rc_facts.specs.Derivable.{Derivable};
ghost use Rattle.rc_facts.specs.Facts.{holds, is_over};
ghost use Rattle.rc_carrying.specs.Left.{IsReady};
ghost use Rattle.rc_carrying.specs.Passing.{listed, Fits, Visited};

use crate::leaving::carry;
use crate::step::Step;
use rc_base::NoMemory;
use rc_crossing::{fill, lacks};
use rc_facts::{Fact, FactSet};
use std::alloc::Global;

/// Takes what follows from the facts in place of its own.
pub fn restart(set: &mut FactSet, none: &FactSet, facts: &[Fact])
    requires variables { none.now.variables ≡ set.old.variables }
    requires none { (fact : AnyFact) → holds none.now fact ≡ false }
    requires over { All (λ p. IsTrue (is_over set.old.variables p)) facts.now }
    ensures variables { set.new.variables ≡ set.old.variables }
    ensures facts { (fact : AnyFact) → IsTrue (holds set.new fact) ↔ Derivable set.old.variables (listed facts.now) fact }
{
    set.copy(none);
    fill(set, facts);
    set.close();
}

/// Carries the set over an instruction, and says whether all follows that it asks: before it, and behind
/// it.
///
/// # Errors
///
/// Out of memory.
pub fn visit(
    alloc: Global,
    set: &mut FactSet,
    step: &Step,
    exits: &[FactSet],
    scratch: u32,
) -> Result<bool, NoMemory>
    requires ready { IsReady set.old.variables scratch (holds set.old) }
    requires fits { Fits set.old.variables scratch exits.now step.now }
    ensures variables { set.new.variables ≡ set.old.variables }
    ensures told { IfOk result (λ passed. Visited set.old.variables scratch exits.now step.now (holds set.old) (holds set.new) passed) }
{
    if lacks(set, step.before.as_slice()) {
        return Ok(false);
    }
    carry(alloc, set, &step.effect, exits, scratch, step.low, step.top)?;
    Ok(!lacks(set, step.behind.as_slice()))
}
