// Texts in several files.
ghost use Rattle.std.specs.Prelude.{IfErr, IfOk};
ghost use Rattle.rc_outcomes.specs.Loading.{LoadedAll, NotLoadedAll};
ghost use Rattle.rc_requests.specs.Asking.{bytes_of};
ghost use Rattle.rc_files.specs.Texts.{IsTextOf, LoadedOne};

use crate::text_file::{NoText, load_text};
use rc_answers::Fault;
use rc_base::{Octets, Shelf};
use std::alloc::Global;

/// What was loaded of one of several files.
#[derive(Drop)]
pub enum FileText {
    /// All of it.
    Whole(Octets),
    /// Nothing: the file has more bytes than are loaded of a text, so at least two more than a text may
    /// have.
    TooLong,
}

/// Loads one of several files.
fn load_one<F: Shelf>(alloc: Global, name: &str, files: &mut F) -> Result<FileText, Fault>
    ensures { LoadedOne name.now (F.state files.old) (F.state files.new) result }
{
    match load_text(alloc, name, files) {
        Ok(text) => Ok(FileText::Whole(text)),
        Err(NoText::TooLong) => Ok(FileText::TooLong),
        Err(NoText::Failed(fault)) => Err(fault),
    }
}

/// Loads the texts of several files, in their order. One that is too long doesn't stop the loading: a
/// file behind it that isn't there is a fault all the same.
///
/// # Errors
///
/// `FileFault` where one of the files is not there or could not be loaded, `Memory` where there was
/// none. Of the files behind that one none is loaded.
pub fn load_texts<F: Shelf>(
    alloc: Global,
    names: &[String],
    files: &mut F,
) -> Result<Vec<FileText>, Fault>
    ensures loaded { IfOk result (λ texts. LoadedAll IsTextOf (bytes_of names.now) (F.state files.old) (F.state files.new) texts.items) }
    ensures failed { IfErr result (λ fault. NotLoadedAll (bytes_of names.now) (F.state files.old) (F.state files.new) fault) }
{
    let mut texts = Vec::new(alloc);
    for name in names {
        let text = match load_one(alloc, name, files) {
            Ok(text) => text,
            Err(fault) => return Err(fault),
        };
        let Ok(()) = texts.push(text) else {
            return Err(Fault::Memory);
        };
    }
    Ok(texts)
}
