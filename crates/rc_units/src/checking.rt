// Checks a file by itself.
ghost use Rattle.std.specs.Prelude.{◌≡◌, IfErr, IfOk};
ghost use Rattle.rc_syntax.specs.Shape.{tree_of};
ghost use Rattle.rc_linking.specs.Limits.{IsFileLimited};
ghost use Rattle.rc_linking.specs.Stubs.{stubbed};
ghost use Rattle.rc_typing.specs.Checks.{Refuses};
ghost use Rattle.rc_units.specs.Units.{HasProgramOn};

use crate::stubs::stubbed;
use crate::units::{Unit, without_stubs};
use rc_linked_files::stubs_keep_limits;
use rc_syntax::tree::Tree;
use rc_typing::{TypeFault, check_limited};
use std::alloc::Global;

/// Checks a file by itself: with a stub for each function that it only declares, and for `main` where
/// it declares none, on the line of its last word.
///
/// # Errors
///
/// As `check_limited` of the tree with its stubs.
pub fn unit(alloc: Global, tree: &Tree) -> Result<Unit, TypeFault>
    requires { IsFileLimited (tree_of tree.now) }
    ensures tree { IfOk result (λ u. tree_of u ≡ tree_of tree.now) }
    ensures line { IfOk result (λ u. u.last ≡ tree.now.last) }
    ensures typed { IfOk result (λ _. HasProgramOn tree.now.last (tree_of tree.now)) }
    ensures err { IfErr result (Refuses (stubbed tree.now.last (tree_of tree.now))) }
{
    let Ok(whole) = stubbed(alloc, tree) else {
        return Err(TypeFault::Memory);
    };
    stubs_keep_limits();
    match check_limited(alloc, &whole) {
        Ok(_program) => Ok(without_stubs(whole, tree)),
        Err(fault) => Err(fault),
    }
}
