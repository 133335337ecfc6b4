// Sets of the targets to which the run goes from an instruction.
ghost use Rattle.std.specs.Prelude.{◌≡◌, ◌<◌, ◌^◌, ℕ, suc, length};
ghost use Rattle.rc_code.specs.Running.{Reading, function_at};
ghost use Rattle.rc_code.specs.Soundness.{instruction_at};
ghost use Rattle.rc_prove.specs.Spots.{LeadsFrom};
ghost use Rattle.rc_prove_ways.specs.Leading.{IsJumped};
ghost use Rattle.rc_prove_ways.specs.Ranks.{AreRanks, AreTargets};

use crate::ranks::set_of;
use crate::ways::{falls, target_of};
use rc_code::Instruction;

/// The numbers of these sets.
#[derive(Clone, Copy)]
pub struct Leads {
    /// Of the target that the instruction names and goes to.
    pub jumped: Option<u32>,
    /// Of the next instruction, if that is a target and the run may go on there.
    pub fallen: Option<u32>,
    /// Of the next instruction, if that is a target.
    pub next: Option<u32>,
}

/// The set of the target that an instruction names.
fn jumped_from(instruction: &Instruction, targets: &[bool], ranks: &[u32]) -> Option<u32>
    requires { AreRanks targets.now ranks.now }
    ensures { IsJumped targets.now instruction.now result }
{
    match target_of(instruction) {
        None => None,
        Some(to) => set_of(targets, ranks, true, to as usize),
    }
}

/// The sets to which an instruction of that number leads.
pub fn leads_at(instruction: &Instruction, at: usize, targets: &[bool], ranks: &[u32]) -> Leads
    requires ranks { AreRanks targets.now ranks.now }
    requires small { at < 2 ^ 32 }
    ensures { (image : Reading) (g : ℕ) → AreTargets (function_at image g) targets.now → instruction.now ≡ instruction_at (function_at image g) at → LeadsFrom image g at result.jumped result.fallen result.next }
{
    let jumped = jumped_from(instruction, targets, ranks);
    let so = falls(instruction);
    let fallen = set_of(targets, ranks, so, at + 1);
    let next = set_of(targets, ranks, true, at + 1);
    Leads {
        jumped,
        fallen,
        next,
    }
}
