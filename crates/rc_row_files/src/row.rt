// Rows.
use crate::found::Found;
use crate::values::unread;
use std::alloc::{AllocError, Global};
use std::io;

/// What the lines of a row say: what something is given, and what it must come to.
pub trait Row: Drop {
    /// What is tried of a row, as the line behind the rows of a file names it. Where it is nothing, that
    /// line says only how many rows there are.
    fn tried() -> &'static str {
        ""
    }

    /// A row of this name that says nothing else.
    fn new(alloc: Global, name: &str) -> Result<Self, AllocError>;

    /// Takes what a key gives.
    fn take(&mut self, alloc: Global, key: &str, value: &str) -> io::Result<()>;

    /// Takes what the key `same` stands for, of the row before.
    fn take_same(&mut self, _before: &Self) -> io::Result<()> {
        unread()
    }

    /// Compares what the row says with what it comes to, and prints what differs.
    fn compare(&self, rt: &HostRuntime, file: &str) -> io::Result<Found>;
}
