// Bytes by what they can begin.
ghost use Rattle.std.specs.Prelude.{◌≡◌};
ghost use Rattle.rc_syntax.specs.reader.Look.{class_of};
ghost use Rattle.rc_lexer.specs.Shapes.{class_shape};

/// What a byte can begin.
#[derive(Clone, Copy, PartialEq, Eq)]
pub enum Class {
    Blank,
    Letter,
    Digit,
    Quote,
    DoubleQuote,
    Slash,
    Hash,
    /// A mark, or nothing.
    Other,
}

pub fn class_of(b: u8) -> Class
    ensures { class_shape result ≡ class_of b }
{
    match b {
        b' ' | 9..=13 => Class::Blank,
        b'a'..=b'z' | b'A'..=b'Z' | b'_' => Class::Letter,
        b'0'..=b'9' => Class::Digit,
        b'\'' => Class::Quote,
        b'"' => Class::DoubleQuote,
        b'/' => Class::Slash,
        b'#' => Class::Hash,
        _ => Class::Other,
    }
}
