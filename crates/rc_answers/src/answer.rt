// What the program answers.
ghost use Rattle.std.specs.Prelude.{◌≡◌};
ghost use Rattle.rc_answers.specs.Status.{status};

use crate::{ImageRefusal, LinkRefusal};
use rc_base::End;
use rc_compile::Refusal;
use thiserror::Error;

/// What was done.
#[derive(Clone, Copy, Debug, PartialEq, Eq)]
pub enum Done {
    /// A run came to its end.
    Ended(End),
    /// An image from elsewhere used a deleted region, on this line.
    StaleImage(u32),
    /// The text is refused.
    Refused(Refusal),
    /// The image is refused.
    ImageRefused(ImageRefusal),
    /// A file of several, counted from 1, is refused by itself.
    UnitRefused(u32, Refusal),
    /// Files are not linked.
    LinkRefused(LinkRefusal),
    /// An image was stored.
    Wrote,
    /// A report, a listing or a summary was written.
    Reported,
    /// The words ask nothing that there is.
    Usage,
}

/// What the outside or want of memory cut short.
#[derive(Clone, Copy, Debug, PartialEq, Eq, Error)]
pub enum Fault {
    /// A file is not there, or loading or storing it failed.
    #[error("file fault")]
    FileFault,
    /// The input failed.
    #[error("read fault")]
    ReadFault,
    /// The output failed.
    #[error("write fault")]
    WriteFault,
    /// The error stream failed.
    #[error("error stream fault")]
    ErrFault,
    /// There was no memory.
    #[error("no memory")]
    Memory,
}

/// The status that the program ends with.
pub fn status_of(answer: &Result<Done, Fault>) -> u8
    ensures { result ≡ status answer.now }
{
    match answer {
        Ok(Done::Ended(End::Exit(value))) => value.rem_euclid(256) as u8,
        Ok(Done::Ended(End::Trapped(..))) => 120,
        Ok(Done::Ended(End::Spent)) => 121,
        Ok(
            Done::Refused(_) | Done::ImageRefused(_) | Done::UnitRefused(..) | Done::LinkRefused(_),
        ) => 122,
        Ok(Done::Usage) => 123,
        Err(Fault::FileFault | Fault::ReadFault | Fault::WriteFault | Fault::ErrFault) => 124,
        Err(Fault::Memory) => 125,
        Ok(Done::StaleImage(_)) => 126,
        Ok(Done::Wrote | Done::Reported) => 0,
    }
}
