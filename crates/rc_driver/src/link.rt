// Stores the image of the program that several files are together.
ghost use Rattle.std.specs.Prelude.{◌≡◌, ◌≤◌, ℕ, List, Option, IfOk, length};
ghost use Rattle.rc_base.specs.Sinks.{SinkState};
ghost use Rattle.rc_base.specs.Sources.{SourceState};
ghost use Rattle.rc_core.specs.Shapes.{program_of};
ghost use Rattle.rc_linking.specs.Limits.{most_files};
ghost use Rattle.rc_link.specs.Answers.{trees_of};
ghost use Rattle.rc_linked_texts.specs.Units.{FindsUnit};
ghost use Rattle.rc_outcomes.specs.Outside.{outside};
ghost use Rattle.rc_outcomes.specs.Performing.{Performs};
ghost use Rattle.rc_requests.specs.Asking.{bytes_of};
ghost use Rattle.rc_requests.specs.Request.{Request};
ghost use Rattle.rc_store.specs.Kept.{KeptStore};
ghost use Rattle.rc_files.specs.Texts.{IsTextOf};
ghost use Rattle.rc_driver.specs.Linking.{AreTextsOf, FindsUnits, LinkedTexts, LinksFiles, StoredProgram};

use rc_answers::{Done, Fault};
use rc_base::Shelf;
use rc_build::finish;
use rc_compile::{CompileFault, Refusal};
use rc_core::program::Program;
use rc_files::{FileText, load_texts, store_image};
use rc_link::{LinkFault, link};
use rc_linked_texts::text_unit;
use rc_units::Unit;
use std::alloc::Global;

/// Why there are no units of several texts.
#[derive(Clone, Copy)]
pub(crate) enum NoUnits {
    /// The text of this number, counted from 1, is the first that is refused by itself.
    Refused(u32, Refusal),
    /// Out of memory.
    Memory,
}

/// What is linked of one text. One that is too long is refused.
fn file_unit(alloc: Global, text: &FileText) -> Result<Unit, CompileFault>
    ensures { (bytes : List ℕ) → IsTextOf text.now bytes → FindsUnit bytes result }
{
    match text {
        FileText::Whole(bytes) => text_unit(alloc, bytes.as_slice()),
        FileText::TooLong => Err(CompileFault::Refused(Refusal::TooLong)),
    }
}

/// What is linked of several texts, in their order.
///
/// # Errors
///
/// The first that is refused by itself, or out of memory.
fn units(alloc: Global, texts: &[FileText]) -> Result<Vec<Unit>, NoUnits>
    requires { length texts.now ≤ most_files }
    ensures units { (all : List (List ℕ)) → AreTextsOf texts.now all → FindsUnits all result }
    ensures count { IfOk result (λ units. length units.items ≡ length texts.now) }
{
    let mut units = Vec::new(alloc);
    for text in texts {
        let unit = match file_unit(alloc, text) {
            Ok(unit) => unit,
            Err(CompileFault::Refused(refusal)) => {
                return Err(NoUnits::Refused(units.len() as u32 + 1, refusal));
            }
            Err(CompileFault::Memory) => return Err(NoUnits::Memory),
        };
        let Ok(()) = units.push(unit) else {
            return Err(NoUnits::Memory);
        };
    }
    Ok(units)
}

/// Stores the image of a program under this name, or refuses it for what it needs too much of.
fn store_program<F: Shelf>(
    alloc: Global,
    program: &Program,
    to: &str,
    files: &mut F,
) -> Result<Done, Fault>
    ensures { StoredProgram (program_of program.now) to.now (F.state files.old) (F.state files.new) result }
{
    match finish(alloc, program) {
        Ok(image) => store_image(alloc, &image, to, files),
        Err(CompileFault::Refused(refusal)) => Ok(Done::Refused(refusal)),
        Err(CompileFault::Memory) => Err(Fault::Memory),
    }
}

/// Links texts that were loaded, and stores the image of their program under this name.
fn link_texts<F: Shelf>(
    alloc: Global,
    texts: &[FileText],
    to: &str,
    files: &mut F,
) -> Result<Done, Fault>
    requires { length texts.now ≤ most_files }
    ensures { LinkedTexts texts.now to.now (F.state files.old) (F.state files.new) result }
{
    let units = match units(alloc, texts) {
        Ok(units) => units,
        Err(NoUnits::Refused(number, refusal)) => return Ok(Done::UnitRefused(number, refusal)),
        Err(NoUnits::Memory) => return Err(Fault::Memory),
    };
    match link(alloc, units.as_slice()) {
        Ok(program) => store_program(alloc, &program, to, files),
        Err(LinkFault::Refused(refusal)) => Ok(Done::LinkRefused(refusal)),
        Err(LinkFault::Memory) => Err(Fault::Memory),
    }
}

/// Loads the texts of several files, each before anything else is done, links them, and stores the image
/// of the program that they are together under another name, for a request that asks that. In memory are
/// the texts, the tree of each, the tree of all, and the program.
pub fn link_files<F: Shelf>(
    alloc: Global,
    names: &[String],
    to: &str,
    files: &mut F,
) -> Result<Done, Fault>
    requires { length names.now ≤ most_files }
    ensures { (request : Option Request) (input : SourceState) (out err : SinkState) (heap : KeptStore) → LinksFiles request to.now (bytes_of names.now) → Performs request (outside (F.state files.old) input out err heap) (outside (F.state files.new) input out err heap) result }
{
    match load_texts(alloc, names, files) {
        Ok(texts) => link_texts(alloc, texts.as_slice(), to, files),
        Err(fault) => Err(fault),
    }
}
