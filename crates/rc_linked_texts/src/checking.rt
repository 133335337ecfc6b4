// One text as a file of several.
ghost use Rattle.rc_syntax.specs.Shape.{tree_of};
ghost use Rattle.rc_syntax.specs.Tree.{Tree as WrittenTree};
ghost use Rattle.rc_typing.specs.Checks.{Refuses};
ghost use Rattle.rc_compile.specs.Answers.{IsOnlyTree};
ghost use Rattle.rc_compile.specs.Compiles.{EndsOnLine};
ghost use Rattle.rc_linked_texts.specs.Units.{FindsUnit, RefusedByRules};

use rc_compile::{CompileFault, Refusal, tree};
use rc_syntax::tree::Tree;
use rc_typing::TypeFault;
use rc_units::{Unit, unit};
use std::alloc::Global;

/// The refusal of a text by what the rules refuse of its tree with the stubs.
fn reason(fault: TypeFault) -> CompileFault
    ensures { (tree : WrittenTree) → Refuses tree fault → RefusedByRules tree result }
{
    match fault {
        TypeFault::Unknown(line) => CompileFault::Refused(Refusal::Unknown(line)),
        TypeFault::Twice(line) => CompileFault::Refused(Refusal::Twice(line)),
        TypeFault::Mistyped(line) => CompileFault::Refused(Refusal::Mistyped(line)),
        TypeFault::Arity(line) => CompileFault::Refused(Refusal::Arity(line)),
        TypeFault::AnnotationPlace(line) => CompileFault::Refused(Refusal::AnnotationPlace(line)),
        TypeFault::NotDeletes(line) => CompileFault::Refused(Refusal::NotDeletes(line)),
        TypeFault::DeletesPlace(line) => CompileFault::Refused(Refusal::DeletesPlace(line)),
        TypeFault::Main(line) => CompileFault::Refused(Refusal::Main(line)),
        TypeFault::TooBig(line) => CompileFault::Refused(Refusal::TooBig(line)),
        TypeFault::Memory => CompileFault::Memory,
    }
}

/// The unit of the tree of a text.
fn tree_unit(alloc: Global, _text: &[u8], tree: &Tree) -> Result<Unit, CompileFault>
    requires tree { IsOnlyTree _text.now (tree_of tree.now) }
    requires line { EndsOnLine _text.now tree.now.last }
    ensures { FindsUnit _text.now result }
{
    match unit(alloc, tree) {
        Ok(unit) => Ok(unit),
        Err(fault) => Err(reason(fault)),
    }
}

/// What a text is as a file of several: its tree, which is checked with a stub for each function that the
/// text only declares, and for `main` where it declares none.
///
/// # Errors
///
/// `Refused` where the text has no tree, or the rules refuse it with its stubs. A function that is called
/// and nowhere defined is no reason, nor are the counts of what a program needs. `Memory` when out of
/// memory.
#[tactic(auto, using(crate::proofs::OneText::unread_of))]
pub fn text_unit(alloc: Global, text: &[u8]) -> Result<Unit, CompileFault>
    ensures { FindsUnit text.now result }
{
    let tree = tree(alloc, text)?;
    tree_unit(alloc, text, &tree)
}
