// A line that is printed.
ghost use Rattle.std.specs.Prelude.{◌≡◌, IsTrue};
ghost use Rattle.rc_answers.specs.Pieces.{begins_with_text};

use crate::numbered::Numbered;

/// A text with up to two numbers in it.
#[derive(Clone, Copy)]
pub(crate) struct Line {
    pub(crate) text: &'static [u8],
    pub(crate) first: Option<Numbered>,
    pub(crate) second: Option<Numbered>,
    ghost begins_with_text: { IsTrue (begins_with_text text.now first) },
}

impl Line {
    ghost use Rattle.std.specs.Prelude.{◌↔◌, []};
    ghost use Rattle.rc_answers.specs.LineBytes.{line_bytes};

    /// Whether there is nothing to print.
    #[tactic(auto, using(crate::proofs::EmptyLines::empty_line, crate::proofs::EmptyLines::empty_text))]
    pub(crate) fn is_empty(&self) -> bool
        ensures { IsTrue result ↔ (line_bytes self.now ≡ []) }
    {
        self.text.is_empty()
    }
}
