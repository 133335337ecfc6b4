// The program of a text: its words, its tree, the rules of types, and the counts of what it needs.
ghost use Rattle.std.specs.Prelude.{◌≡◌, ◌≤◌, ℕ, List, length, Err};
ghost use Rattle.rc_syntax.specs.Shape.{tree_of};
ghost use Rattle.rc_syntax.specs.Tree.{Tree as WrittenTree};
ghost use Rattle.rc_syntax.specs.WordShapes.{tokens_of};
ghost use Rattle.rc_core.specs.Programs.{Program as WrittenProgram};
ghost use Rattle.rc_core.specs.Shapes.{program_of};
ghost use Rattle.rc_elab.specs.Counting.{Counts};
ghost use Rattle.rc_typing.specs.Checks.{Refuses};
ghost use Rattle.rc_compile.specs.Acceptance.{HasWords};
ghost use Rattle.rc_compile.specs.Answers.{IsOnlyTree};
ghost use Rattle.rc_compile.specs.Compiles.{Compiles, FindsProgram, FindsTree, FindsWords, IsReason, KeepsWithin};

use crate::fault::CompileFault;
use crate::refusal::Refusal;
use rc_core::program::Program;
use rc_elab::{ElabFault, count};
use rc_lexer::fault::LexFault;
use rc_lexer::lex::lex;
use rc_parser::parse;
use rc_syntax::fault::ParseFault;
use rc_syntax::tree::Tree;
use rc_syntax::word::Token;
use rc_typing::{TypeFault, check};
use std::alloc::Global;

/// The words of a text.
fn words(alloc: Global, text: &[u8]) -> Result<Vec<Token>, CompileFault>
    ensures { FindsWords text.now result }
{
    match lex(alloc, text) {
        Ok(tokens) => Ok(tokens),
        Err(LexFault::TooLong) => Err(CompileFault::Refused(Refusal::TooLong)),
        Err(LexFault::Byte(line)) => Err(CompileFault::Refused(Refusal::Byte(line))),
        Err(LexFault::Token(line)) => Err(CompileFault::Refused(Refusal::Token(line))),
        Err(LexFault::Memory) => Err(CompileFault::Memory),
    }
}

/// The tree of the words of a text.
fn tree_behind(alloc: Global, _text: &[u8], tokens: &[Token]) -> Result<Tree, CompileFault>
    requires { HasWords _text.now (tokens_of tokens.now) }
    ensures { FindsTree _text.now result }
{
    match parse(alloc, tokens) {
        Ok(tree) => Ok(tree),
        Err(ParseFault::Syntax(line)) => Err(CompileFault::Refused(Refusal::Syntax(line))),
        Err(ParseFault::Deep(line)) => Err(CompileFault::Refused(Refusal::Deep(line))),
        Err(ParseFault::Memory) => Err(CompileFault::Memory),
    }
}

/// The tree of a text, with the line of its last word, by its length, its words and its syntax alone.
///
/// # Errors
///
/// `Refused` with the text's one refusal, where it is one of the first five: `TooLong`, `Byte`,
/// `Token`, `Syntax` or `Deep`. `Memory` when out of memory.
pub fn tree(alloc: Global, text: &[u8]) -> Result<Tree, CompileFault>
    ensures { FindsTree text.now result }
{
    let tokens = words(alloc, text)?;
    tree_behind(alloc, text, tokens.as_slice())
}

/// Why a text is refused whose tree the rules of types, of `main` or of deletions refuse.
fn reason(fault: TypeFault) -> CompileFault
    ensures { (text : List ℕ) (tree : WrittenTree) → IsOnlyTree text tree → Refuses tree fault → IsReason text result }
{
    match fault {
        TypeFault::Unknown(line) => CompileFault::Refused(Refusal::Unknown(line)),
        TypeFault::Twice(line) => CompileFault::Refused(Refusal::Twice(line)),
        TypeFault::Mistyped(line) => CompileFault::Refused(Refusal::Mistyped(line)),
        TypeFault::Arity(line) => CompileFault::Refused(Refusal::Arity(line)),
        TypeFault::AnnotationPlace(line) => CompileFault::Refused(Refusal::AnnotationPlace(line)),
        TypeFault::NotDeletes(line) => CompileFault::Refused(Refusal::NotDeletes(line)),
        TypeFault::DeletesPlace(line) => CompileFault::Refused(Refusal::DeletesPlace(line)),
        TypeFault::Main(line) => CompileFault::Refused(Refusal::Main(line)),
        TypeFault::TooBig(line) => CompileFault::Refused(Refusal::TooBig(line)),
        TypeFault::Memory => CompileFault::Memory,
    }
}

/// The program of the tree of a text by the rules of types, of `main` and of deletions.
fn typed(alloc: Global, _text: &[u8], tree: &Tree) -> Result<Program, CompileFault>
    requires { IsOnlyTree _text.now (tree_of tree.now) }
    ensures { FindsProgram _text.now result }
{
    match check(alloc, tree) {
        Ok(program) => Ok(program),
        Err(fault) => Err(reason(fault)),
    }
}

/// The program of a text, by its words, its tree, and the rules of types, of `main` and of deletions.
/// What its translation needs isn't counted yet.
///
/// # Errors
///
/// `Refused` with the text's one refusal, where it is one of the first fourteen: not `Variables` and
/// not `Points`. `Memory` when out of memory.
pub fn typed_program(alloc: Global, text: &[u8]) -> Result<Program, CompileFault>
    ensures { FindsProgram text.now result }
{
    let tree = tree(alloc, text)?;
    typed(alloc, text, &tree)
}

/// Why a text is refused whose program needs more region variables or points than one may.
pub fn too_much(fault: ElabFault) -> CompileFault
    ensures { (program : WrittenProgram) → Counts {T = Unit {0}} program (Err fault) → KeepsWithin {T = Unit {0}} program (Err result) }
{
    match fault {
        ElabFault::Variables(line) => CompileFault::Refused(Refusal::Variables(line)),
        ElabFault::Points => CompileFault::Refused(Refusal::Points),
        ElabFault::Memory => CompileFault::Memory,
    }
}

/// Whether a program needs no more than one may: at most 128 region variables in each function, and
/// 65,536 points in all of them.
///
/// # Errors
///
/// `Refused` with `Variables` on the line of the first function that needs too many, or else with
/// `Points`. `Memory` when out of memory.
pub fn within_bounds(alloc: Global, program: &Program) -> Result<(), CompileFault>
    ensures { KeepsWithin (program_of program.now) result }
{
    match count(alloc, program) {
        Ok(()) => Ok(()),
        Err(fault) => Err(too_much(fault)),
    }
}

/// The program of a text, or why it has none.
///
/// A text goes through its words, its tree, the rules of types, of `main` and of deletions, and the
/// counts of what its translation needs. It is refused by the first of these that it fails, and at no
/// other place: a text has one program or one refusal. Want of memory is the one other answer.
#[tactic(auto, using(crate::proofs::OneAnswer::typed_only, crate::proofs::OneAnswer::much_only))]
pub fn program(alloc: Global, text: &[u8]) -> Result<Program, CompileFault>
    ensures { Compiles text.now result }
{
    let program = typed_program(alloc, text)?;
    within_bounds(alloc, &program)?;
    Ok(program)
}
