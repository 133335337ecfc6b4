// Why files are not linked.
use thiserror::Error;

/// Why files that are each a unit make no program together: a file, counted from 1, and a line of it,
/// where there is one. The numbers and names are those of the line that is printed.
#[derive(Clone, Copy, Debug, PartialEq, Eq, Error)]
pub enum LinkRefusal {
    /// A struct or a function is declared otherwise than in an earlier file.
    #[error("32 disagree")]
    Disagree(u32, u32),
    /// A function or a global is defined in an earlier file too.
    #[error("33 double")]
    Double(u32, u32),
    /// A call names a function that no file defines.
    #[error("34 missing")]
    Missing(u32, u32),
    /// No file defines `main`.
    #[error("35 entry")]
    Entry,
    /// The globals of all files have too many cells.
    #[error("36 large")]
    Large,
}
