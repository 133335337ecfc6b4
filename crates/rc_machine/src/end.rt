// How the run of an image ends.

use rc_base::End;

/// How the run of an image ends.
#[derive(Clone, Copy, Debug, PartialEq, Eq)]
pub enum ImageEnd {
    /// As the run of a program does.
    Ended(End),
    /// A deleted region would have been touched, at this line.
    Stale(u32),
}
