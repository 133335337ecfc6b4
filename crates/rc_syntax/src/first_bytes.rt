// The reserved words and the marks by their first byte.
ghost use Rattle.std.specs.Prelude.{◌≡◌};
ghost use Rattle.rc_syntax.specs.Spellings.{keys_from, marks_from};

use crate::word::{Key, Mark};

/// The reserved words whose spelling begins with that byte.
#[tactic(auto, unfolding(crate::specs::Spellings::keys))]
pub(crate) fn keys_from(first: u8) -> &'static [Key]
    ensures { result.now ≡ keys_from first }
{
    match first {
        b'E' => &[Key::Eof],
        b'N' => &[Key::Null],
        b'a' => &[Key::Auto],
        b'b' => &[Key::Break],
        b'c' => &[Key::Char, Key::Continue, Key::Case, Key::Const],
        b'd' => &[Key::Deletes, Key::Do, Key::Default, Key::Double],
        b'e' => &[Key::Else, Key::Enum, Key::Extern],
        b'f' => &[Key::For, Key::Float],
        b'g' => &[Key::Goto],
        b'i' => &[Key::If, Key::Int, Key::Inline],
        b'l' => &[Key::Long],
        b'p' => &[Key::ParentPtr],
        b'r' => &[
            Key::Ralloc,
            Key::RarrayAlloc,
            Key::Region,
            Key::Return,
            Key::Register,
            Key::Restrict,
        ],
        b's' => &[
            Key::SameRegion,
            Key::Struct,
            Key::Short,
            Key::Signed,
            Key::Sizeof,
            Key::Static,
            Key::Switch,
        ],
        b't' => &[Key::Traditional, Key::Typedef],
        b'u' => &[Key::Unsigned, Key::Union],
        b'v' => &[Key::Void, Key::Volatile],
        b'w' => &[Key::While],
        _ => &[],
    }
}

/// The marks whose spelling begins with that byte, the longer ones first.
#[tactic(auto, unfolding(crate::specs::Spellings::marks))]
pub(crate) fn marks_from(first: u8) -> &'static [Mark]
    ensures { result.now ≡ marks_from first }
{
    match first {
        b'!' => &[Mark::ExclamationEqual, Mark::Exclamation],
        b'%' => &[Mark::PercentEqual, Mark::Percent],
        b'&' => &[
            Mark::AmpersandAmpersand,
            Mark::AmpersandEqual,
            Mark::Ampersand,
        ],
        b'(' => &[Mark::OpenParenthesis],
        b')' => &[Mark::CloseParenthesis],
        b'*' => &[Mark::StarEqual, Mark::Star],
        b'+' => &[Mark::PlusPlus, Mark::PlusEqual, Mark::Plus],
        b',' => &[Mark::Comma],
        b'-' => &[Mark::Arrow, Mark::MinusMinus, Mark::MinusEqual, Mark::Minus],
        b'.' => &[Mark::Dot],
        b'/' => &[Mark::SlashEqual, Mark::Slash],
        b':' => &[Mark::Colon],
        b';' => &[Mark::Semicolon],
        b'<' => &[
            Mark::ShiftLeftEqual,
            Mark::ShiftLeft,
            Mark::LessEqual,
            Mark::Less,
        ],
        b'=' => &[Mark::EqualEqual, Mark::Equal],
        b'>' => &[
            Mark::ShiftRightEqual,
            Mark::ShiftRight,
            Mark::GreaterEqual,
            Mark::Greater,
        ],
        b'?' => &[Mark::Question],
        b'[' => &[Mark::OpenBracket],
        b']' => &[Mark::CloseBracket],
        b'^' => &[Mark::CaretEqual, Mark::Caret],
        b'{' => &[Mark::OpenBrace],
        b'|' => &[Mark::BarBar, Mark::BarEqual, Mark::Bar],
        b'}' => &[Mark::CloseBrace],
        b'~' => &[Mark::Tilde],
        _ => &[],
    }
}
