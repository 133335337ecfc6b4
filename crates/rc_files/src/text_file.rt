// Texts in files.
ghost use Rattle.rc_files.specs.Texts.{LoadedText, ReadText};

use rc_answers::Fault;
use rc_base::{MOST_TEXT_BYTES, Octets, Piece, Shelf, ShelfFault};
use std::alloc::Global;

/// Why there is no text.
#[derive(Clone, Copy)]
pub enum NoText {
    /// The file has more bytes than are loaded of a text, so at least two more than a text may have.
    TooLong,
    /// The file is not there, could not be loaded, or there was no memory.
    Failed(Fault),
}

/// How many bytes of a text are loaded: one more than it may have.
const MOST: u32 = MOST_TEXT_BYTES + 1;

/// The text that was loaded, if that is all of the file. What is longer is no program; nor is what has
/// just the one byte too many, which the rules of texts refuse.
fn text_in_piece(piece: Piece) -> Result<Octets, NoText>
    ensures { ReadText piece result }
{
    if piece.whole {
        return Ok(piece.bytes);
    }
    Err(NoText::TooLong)
}

/// Loads the text of a file.
///
/// # Errors
///
/// Where the file is longer than what is loaded of a text, or why it could not be loaded.
pub fn load_text<F: Shelf>(alloc: Global, name: &str, files: &mut F) -> Result<Octets, NoText>
    ensures { LoadedText name.now (F.state files.old) (F.state files.new) result }
{
    match files.load(alloc, name, MOST) {
        Ok(piece) => text_in_piece(piece),
        Err(ShelfFault::Memory) => Err(NoText::Failed(Fault::Memory)),
        Err(ShelfFault::Absent) => Err(NoText::Failed(Fault::FileFault)),
        Err(ShelfFault::Failed) => Err(NoText::Failed(Fault::FileFault)),
    }
}
