// Why a text gives no program.

use crate::refusal::Refusal;

/// Why a text gives no program.
#[derive(Clone, Copy, Debug, PartialEq, Eq)]
pub enum CompileFault {
    /// The rules of the language refuse the text.
    Refused(Refusal),
    /// There is no memory.
    Memory,
}
