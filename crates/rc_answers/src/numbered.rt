// A part of a line.

/// A number, and the text behind it.
#[derive(Clone, Copy)]
pub(crate) struct Numbered {
    pub(crate) number: u64,
    pub(crate) text: &'static [u8],
}
