// Long texts.

use std::alloc::Global;
use std::test::Fail;

/// A text with a part of it so many times over.
#[derive(Clone, Copy)]
pub(crate) struct Repeated<'t> {
    pub(crate) front: &'t [u8],
    pub(crate) part: &'t [u8],
    pub(crate) times: u32,
    pub(crate) end: &'t [u8],
}

impl Repeated<'_> {
    /// The text.
    pub(crate) fn text(&self, alloc: Global) -> Result<Vec<u8>, Fail> {
        let mut text = self.front.to_vec(alloc)?;
        for _ in 0..self.times {
            text.extend_from_slice(self.part)?;
        }
        text.extend_from_slice(self.end)?;
        Ok(text)
    }
}
