/// A version of the format.
#[derive(Clone, Copy, Debug, PartialEq, Eq)]
pub enum Version {
    /// Each instruction has a line.
    One,
    /// Instructions with one line side by side share it.
    Two,
}
