// Words.
ghost use Rattle.std.specs.Prelude.{◌≡◌, List, ℕ, IfOk, find, bytes_eq, nat_eq};
ghost use Rattle.std.specs.List.{starts_with};
ghost use Rattle.rc_syntax.specs.Spellings.{key_spelling, mark_spelling, keys, marks, key_named, mark_named};

use crate::first_bytes::{keys_from, marks_from};
use std::alloc::{AllocError, Global};
use std::marker::Model;
use std::rc::RcSlice;

/// The bytes of a name or of a string literal, which contracts see as a list of bytes. Texts may share
/// their bytes.
#[derive(Debug, Drop)]
pub struct Text {
    bytes: RcSlice<u8, Global>,
}

impl Model for Text {
    ghost use Rattle.std.specs.Prelude.{List, ℕ};
    ghost use Rattle.std.specs.Rc.{rc_slice_items};

    ghost Value = { List ℕ };

    ghost view = { λ t. rc_slice_items t.bytes };
}

impl Text {
    /// Takes the bytes as they are. To share them it takes a little memory.
    pub fn new(bytes: Vec<u8>) -> Result<Text, AllocError>
        ensures { IfOk result (λ t. t ≡ bytes.items) }
    {
        let bytes = RcSlice::from_vec(bytes)?;
        Ok(Text { bytes })
    }

    /// A text that shares its bytes with this one, in constant time. It takes no memory for them.
    pub fn share(&self) -> Result<Text, AllocError>
        ensures { IfOk result (λ t. t ≡ self.now) }
    {
        let bytes = self.bytes.clone()?;
        Ok(Text { bytes })
    }

    /// The bytes, in their order.
    pub fn as_slice(&self) -> &[u8]
        ensures { result.now ≡ self.now }
    {
        self.bytes.as_slice()
    }
}

/// A reserved word (ISO C 6.4.1, and RC's).
#[derive(Clone, Copy, Debug, PartialEq, Eq)]
pub enum Key {
    Break,
    Char,
    Continue,
    Deletes,
    Do,
    Else,
    Eof,
    For,
    If,
    Int,
    Null,
    ParentPtr,
    Ralloc,
    RarrayAlloc,
    Region,
    Return,
    SameRegion,
    Struct,
    Traditional,
    Unsigned,
    Void,
    While,
    // Reserved, and part of no rule of the grammar.
    Auto,
    Case,
    Const,
    Default,
    Double,
    Enum,
    Extern,
    Float,
    Goto,
    Inline,
    Long,
    Register,
    Restrict,
    Short,
    Signed,
    Sizeof,
    Static,
    Switch,
    Typedef,
    Union,
    Volatile,
}

const KEYS: [Key; 43] = [
    Key::Break,
    Key::Char,
    Key::Continue,
    Key::Deletes,
    Key::Do,
    Key::Else,
    Key::Eof,
    Key::For,
    Key::If,
    Key::Int,
    Key::Null,
    Key::ParentPtr,
    Key::Ralloc,
    Key::RarrayAlloc,
    Key::Region,
    Key::Return,
    Key::SameRegion,
    Key::Struct,
    Key::Traditional,
    Key::Unsigned,
    Key::Void,
    Key::While,
    Key::Auto,
    Key::Case,
    Key::Const,
    Key::Default,
    Key::Double,
    Key::Enum,
    Key::Extern,
    Key::Float,
    Key::Goto,
    Key::Inline,
    Key::Long,
    Key::Register,
    Key::Restrict,
    Key::Short,
    Key::Signed,
    Key::Sizeof,
    Key::Static,
    Key::Switch,
    Key::Typedef,
    Key::Union,
    Key::Volatile,
];

impl Key {
    /// Every reserved word.
    #[tactic(auto, unfolding(crate::specs::Spellings::keys))]
    pub fn all() -> &'static [Key]
        ensures { result.now ≡ keys }
    {
        &KEYS
    }

    /// The bytes that spell it.
    pub fn spelling(self) -> &'static [u8]
        ensures { result.now ≡ key_spelling self }
    {
        match self {
            Key::Break => b"break",
            Key::Char => b"char",
            Key::Continue => b"continue",
            Key::Deletes => b"deletes",
            Key::Do => b"do",
            Key::Else => b"else",
            Key::Eof => b"EOF",
            Key::For => b"for",
            Key::If => b"if",
            Key::Int => b"int",
            Key::Null => b"NULL",
            Key::ParentPtr => b"parentptr",
            Key::Ralloc => b"ralloc",
            Key::RarrayAlloc => b"rarrayalloc",
            Key::Region => b"region",
            Key::Return => b"return",
            Key::SameRegion => b"sameregion",
            Key::Struct => b"struct",
            Key::Traditional => b"traditional",
            Key::Unsigned => b"unsigned",
            Key::Void => b"void",
            Key::While => b"while",
            Key::Auto => b"auto",
            Key::Case => b"case",
            Key::Const => b"const",
            Key::Default => b"default",
            Key::Double => b"double",
            Key::Enum => b"enum",
            Key::Extern => b"extern",
            Key::Float => b"float",
            Key::Goto => b"goto",
            Key::Inline => b"inline",
            Key::Long => b"long",
            Key::Register => b"register",
            Key::Restrict => b"restrict",
            Key::Short => b"short",
            Key::Signed => b"signed",
            Key::Sizeof => b"sizeof",
            Key::Static => b"static",
            Key::Switch => b"switch",
            Key::Typedef => b"typedef",
            Key::Union => b"union",
            Key::Volatile => b"volatile",
        }
    }

    /// The first of them that is spelled so.
    #[tactic(auto, using(crate::proofs::Finds::find_step, crate::proofs::Finds::find_here, crate::proofs::Finds::find_past))]
    fn among(keys: &[Key], bytes: &[u8]) -> Option<Key>
        ensures { result ≡ find (λ k. bytes_eq (key_spelling k) bytes.now) keys.now }
    {
        for key in keys {
            if key.spelling() == bytes {
                return Some(*key);
            }
        }
        None
    }

    /// The reserved word that is spelled so. Only those that begin with its first byte are looked at.
    #[tactic(auto, using(crate::proofs::FirstBytes::no_key))]
    pub fn named(bytes: &[u8]) -> Option<Key>
        ensures { result ≡ key_named bytes.now }
    {
        match bytes {
            [] => None,
            [first, ..] => Key::among(keys_from(*first), bytes),
        }
    }
}

/// A mark (ISO C 6.4.6, without those that no rule uses).
#[derive(Clone, Copy, Debug, PartialEq, Eq)]
pub enum Mark {
    OpenBrace,
    CloseBrace,
    OpenParenthesis,
    CloseParenthesis,
    OpenBracket,
    CloseBracket,
    Semicolon,
    Comma,
    Dot,
    Arrow,
    PlusPlus,
    MinusMinus,
    Ampersand,
    Star,
    Plus,
    Minus,
    Tilde,
    Exclamation,
    Slash,
    Percent,
    ShiftLeft,
    ShiftRight,
    Less,
    Greater,
    LessEqual,
    GreaterEqual,
    EqualEqual,
    ExclamationEqual,
    Caret,
    Bar,
    AmpersandAmpersand,
    BarBar,
    Question,
    Colon,
    Equal,
    StarEqual,
    SlashEqual,
    PercentEqual,
    PlusEqual,
    MinusEqual,
    ShiftLeftEqual,
    ShiftRightEqual,
    AmpersandEqual,
    CaretEqual,
    BarEqual,
}

const MARKS: [Mark; 45] = [
    Mark::ShiftLeftEqual,
    Mark::ShiftRightEqual,
    Mark::Arrow,
    Mark::PlusPlus,
    Mark::MinusMinus,
    Mark::ShiftLeft,
    Mark::ShiftRight,
    Mark::LessEqual,
    Mark::GreaterEqual,
    Mark::EqualEqual,
    Mark::ExclamationEqual,
    Mark::AmpersandAmpersand,
    Mark::BarBar,
    Mark::StarEqual,
    Mark::SlashEqual,
    Mark::PercentEqual,
    Mark::PlusEqual,
    Mark::MinusEqual,
    Mark::AmpersandEqual,
    Mark::CaretEqual,
    Mark::BarEqual,
    Mark::OpenBrace,
    Mark::CloseBrace,
    Mark::OpenParenthesis,
    Mark::CloseParenthesis,
    Mark::OpenBracket,
    Mark::CloseBracket,
    Mark::Semicolon,
    Mark::Comma,
    Mark::Dot,
    Mark::Ampersand,
    Mark::Star,
    Mark::Plus,
    Mark::Minus,
    Mark::Tilde,
    Mark::Exclamation,
    Mark::Slash,
    Mark::Percent,
    Mark::Less,
    Mark::Greater,
    Mark::Caret,
    Mark::Bar,
    Mark::Question,
    Mark::Colon,
    Mark::Equal,
];

impl Mark {
    /// Every mark, the longer ones first.
    #[tactic(auto, unfolding(crate::specs::Spellings::marks))]
    pub fn all() -> &'static [Mark]
        ensures { result.now ≡ marks }
    {
        &MARKS
    }

    /// The bytes that spell it.
    pub fn spelling(self) -> &'static [u8]
        ensures { result.now ≡ mark_spelling self }
    {
        match self {
            Mark::OpenBrace => b"{",
            Mark::CloseBrace => b"}",
            Mark::OpenParenthesis => b"(",
            Mark::CloseParenthesis => b")",
            Mark::OpenBracket => b"[",
            Mark::CloseBracket => b"]",
            Mark::Semicolon => b";",
            Mark::Comma => b",",
            Mark::Dot => b".",
            Mark::Arrow => b"->",
            Mark::PlusPlus => b"++",
            Mark::MinusMinus => b"--",
            Mark::Ampersand => b"&",
            Mark::Star => b"*",
            Mark::Plus => b"+",
            Mark::Minus => b"-",
            Mark::Tilde => b"~",
            Mark::Exclamation => b"!",
            Mark::Slash => b"/",
            Mark::Percent => b"%",
            Mark::ShiftLeft => b"<<",
            Mark::ShiftRight => b">>",
            Mark::Less => b"<",
            Mark::Greater => b">",
            Mark::LessEqual => b"<=",
            Mark::GreaterEqual => b">=",
            Mark::EqualEqual => b"==",
            Mark::ExclamationEqual => b"!=",
            Mark::Caret => b"^",
            Mark::Bar => b"|",
            Mark::AmpersandAmpersand => b"&&",
            Mark::BarBar => b"||",
            Mark::Question => b"?",
            Mark::Colon => b":",
            Mark::Equal => b"=",
            Mark::StarEqual => b"*=",
            Mark::SlashEqual => b"/=",
            Mark::PercentEqual => b"%=",
            Mark::PlusEqual => b"+=",
            Mark::MinusEqual => b"-=",
            Mark::ShiftLeftEqual => b"<<=",
            Mark::ShiftRightEqual => b">>=",
            Mark::AmpersandEqual => b"&=",
            Mark::CaretEqual => b"^=",
            Mark::BarEqual => b"|=",
        }
    }

    /// The first of them that the text begins with.
    #[tactic(auto, using(crate::proofs::Finds::find_step, crate::proofs::Finds::find_here, crate::proofs::Finds::find_past))]
    fn among(marks: &[Mark], text: &[u8]) -> Option<Mark>
        ensures { result ≡ find (λ m. starts_with nat_eq text.now (mark_spelling m)) marks.now }
    {
        for mark in marks {
            if text.starts_with(mark.spelling()) {
                return Some(*mark);
            }
        }
        None
    }

    /// The longest mark at the front of the text. Only those that begin with its first byte are looked at.
    #[tactic(auto, using(crate::proofs::FirstBytes::no_mark))]
    pub fn at_front(text: &[u8]) -> Option<Mark>
        ensures { result ≡ mark_named text.now }
    {
        match text {
            [] => None,
            [first, ..] => Mark::among(marks_from(*first), text),
        }
    }
}

/// A word of a text (ISO C 6.4).
#[derive(Debug, Drop)]
pub enum Word {
    /// A name that is no reserved word.
    Name(Text),
    /// The value of a number, and whether it is `unsigned`.
    Number(u32, bool),
    /// The byte of a character constant.
    Character(u8),
    /// The bytes of a string literal, without the 0 that ends the array.
    Str(Text),
    Key(Key),
    Mark(Mark),
}

/// A word with the line of its first byte, counted from 1.
#[derive(Debug, Drop)]
pub struct Token {
    pub word: Word,
    pub line: u32,
}
