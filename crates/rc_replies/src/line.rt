// Cutting a text into lines.
ghost use Rattle.std.specs.Prelude.{◌≡◌, ◌≢◌, ◌<◌, [], ◌∷◌, length};
ghost use Rattle.rc_replies.specs.Commands.{lines_of};

/// A line without its line feed, and the text behind it.
#[derive(Clone, Copy)]
pub struct Line<'a> {
    pub bytes: &'a [u8],
    pub rest: &'a [u8],
}

/// The first line of a text that isn't empty.
pub fn next_line<'a>(text: &'a [u8]) -> Line<'a>
    requires { text.now ≢ [] }
    ensures first { lines_of text.now ≡ result.bytes.now ∷ lines_of result.rest.now }
    ensures shorter { length result.rest.now < length text.now }
{
    for at in 0..text.len() {
        if text[at] == b'\n' {
            return Line {
                bytes: &text[..at],
                rest: &text[at + 1..],
            };
        }
    }
    Line {
        bytes: text,
        rest: &text[text.len()..],
    }
}
