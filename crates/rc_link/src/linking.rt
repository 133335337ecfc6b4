// Files that are each fine by themselves, to one program.
ghost use Rattle.std.specs.Prelude.{◌≡◌, ◌≤◌, List, None, IfErr, IfOk, length};
ghost use Rattle.std.specs.List.{AllByRecursion as Every};
ghost use Rattle.rc_syntax.specs.Shape.{tree_of};
ghost use Rattle.rc_syntax.specs.Tree.{Tree as WrittenTree};
ghost use Rattle.rc_linking.specs.Joined.{joined};
ghost use Rattle.rc_linking.specs.Limits.{most_files};
ghost use Rattle.rc_link.specs.Answers.{IsLinked, LinkRefuses, reason_of, trees_of};
ghost use Rattle.rc_typing.specs.Checks.{Refuses};
ghost use Rattle.rc_units.specs.Units.{IsLinkable};

use crate::fault::LinkFault;
use crate::joining::joined;
use crate::reasons::reason;
use rc_answers::LinkRefusal;
use rc_core::program::Program;
use rc_linked_files::{
    a_joined_program_is_not_large, files_have_a_program_together, joined_files_keep_limits,
};
use rc_syntax::tree::Tree;
use rc_typing::{TypeFault, check_limited};
use rc_units::Unit;
use std::alloc::Global;

/// Looks at each unit, and does nothing else: each is linkable.
#[tactic(auto, using(crate::proofs::Walking::linkable_on, crate::proofs::Walking::linkable_end))]
fn are_linkable(units: &[Unit])
    ensures { Every IsLinkable (trees_of units.now) }
{
    for unit in units {
        let _tree = unit.tree();
    }
}

/// Why the tree of all files is refused, where nothing else keeps them apart: their globals have too
/// many cells.
fn fault_of(fault: TypeFault) -> LinkFault
    ensures { (trees : List WrittenTree) → Every IsLinkable trees → reason_of trees ≡ None → Refuses (joined trees) fault → LinkRefuses trees result }
{
    match fault {
        TypeFault::Memory => LinkFault::Memory,
        _ => LinkFault::Refused(LinkRefusal::Large),
    }
}

/// The program of the tree of all files.
fn typed(alloc: Global, units: &[Unit], whole: &Tree) -> Result<Program, LinkFault>
    requires few { length units.now ≤ most_files }
    requires apart { reason_of (trees_of units.now) ≡ None }
    requires joined { tree_of whole.now ≡ joined (trees_of units.now) }
    ensures ok { IfOk result (IsLinked (trees_of units.now)) }
    ensures err { IfErr result (LinkRefuses (trees_of units.now)) }
{
    are_linkable(units);
    joined_files_keep_limits();
    a_joined_program_is_not_large();
    match check_limited(alloc, whole) {
        Ok(program) => Ok(program),
        Err(fault) => Err(fault_of(fault)),
    }
}

/// Links files, of which none is refused by itself, to the program of the tree that they are together.
/// There are 16 of them at most.
///
/// # Errors
///
/// The first thing that keeps them apart: an item that clashes with one of an earlier file, the first
/// of all files; a call of a function that none defines; no `main`; too many cells of globals. Or out
/// of memory.
pub fn link(alloc: Global, units: &[Unit]) -> Result<Program, LinkFault>
    requires { length units.now ≤ most_files }
    ensures ok { IfOk result (IsLinked (trees_of units.now)) }
    ensures err { IfErr result (LinkRefuses (trees_of units.now)) }
{
    if let Some(refusal) = reason(alloc, units)? {
        return Err(LinkFault::Refused(refusal));
    }
    let whole = joined(alloc, units)?;
    typed(alloc, units, &whole)
}
