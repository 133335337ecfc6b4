// What statements begin with.
ghost use Rattle.std.specs.Prelude.{◌≡◌, MatchOption, Some, true, false};
ghost use Rattle.rc_syntax.specs.declared.fault.ParseFault.TheVariants.{Deep, Syntax};
ghost use Rattle.rc_syntax.specs.Tokens as w;
ghost use Rattle.rc_words.specs.Words.{line_of, word_at, Stands};
ghost use Rattle.rc_words.specs.Begins.{begins_stmt, first_word, head_in};

use crate::words::{deep_at, refused_at, word_here};
use rc_syntax::fault::ParseFault;
use rc_syntax::word::{Key, Mark, Token, Word};

/// How a statement begins that is more than what it does by itself.
#[derive(Clone, Copy)]
pub enum Head {
    /// `;`
    Empty,
    /// `{`
    Block,
    If,
    While,
    Do,
    For,
    Break,
    Continue,
    Return,
}

/// How the statement at a place begins, where it is more than what it does by itself.
pub fn head_at(tokens: &[Token], at: u32) -> Option<Head>
    ensures value { result ≡ head_in (word_at tokens.now at) }
    ensures stands { MatchOption result (Unit {0}) (λ h. Stands tokens.now at (first_word h)) }
{
    match word_here(tokens, at) {
        Some(Word::Mark(Mark::Semicolon)) => Some(Head::Empty),
        Some(Word::Mark(Mark::OpenBrace)) => Some(Head::Block),
        Some(Word::Key(Key::If)) => Some(Head::If),
        Some(Word::Key(Key::While)) => Some(Head::While),
        Some(Word::Key(Key::Do)) => Some(Head::Do),
        Some(Word::Key(Key::For)) => Some(Head::For),
        Some(Word::Key(Key::Break)) => Some(Head::Break),
        Some(Word::Key(Key::Continue)) => Some(Head::Continue),
        Some(Word::Key(Key::Return)) => Some(Head::Return),
        _ => None,
    }
}

/// Whether a statement that is no declarator begins at a place.
fn statement_begins(tokens: &[Token], at: u32) -> bool
    ensures { result ≡ begins_stmt (word_at tokens.now at) }
{
    match word_here(tokens, at) {
        Some(Word::Name(_)) => true,
        Some(Word::Number(_, _)) => true,
        Some(Word::Character(_)) => true,
        Some(Word::Str(_)) => true,
        Some(Word::Key(key)) => key_begins(*key),
        Some(Word::Mark(mark)) => mark_begins(*mark),
        None => false,
    }
}

/// Whether a statement begins with this reserved word.
fn key_begins(key: Key) -> bool
    ensures { result ≡ begins_stmt (Some (w.key key)) }
{
    match key {
        Key::Null => true,
        Key::Eof => true,
        Key::Ralloc => true,
        Key::RarrayAlloc => true,
        Key::Break => true,
        Key::Continue => true,
        Key::Do => true,
        Key::For => true,
        Key::If => true,
        Key::Return => true,
        Key::While => true,
        _ => false,
    }
}

/// Whether a statement begins with this mark.
fn mark_begins(mark: Mark) -> bool
    ensures { result ≡ begins_stmt (Some (w.mark mark)) }
{
    match mark {
        Mark::Minus => true,
        Mark::Plus => true,
        Mark::Exclamation => true,
        Mark::Tilde => true,
        Mark::Star => true,
        Mark::Ampersand => true,
        Mark::OpenParenthesis => true,
        Mark::Semicolon => true,
        Mark::OpenBrace => true,
        Mark::PlusPlus => true,
        Mark::MinusMinus => true,
        _ => false,
    }
}

/// The refusal of what stands where a statement would be nested too deep.
pub fn too_deep(tokens: &[Token], at: u32) -> ParseFault
    ensures deep { begins_stmt (word_at tokens.now at) ≡ true → result ≡ Deep (line_of tokens.now at) }
    ensures none { begins_stmt (word_at tokens.now at) ≡ false → result ≡ Syntax (line_of tokens.now at) }
{
    if statement_begins(tokens, at) {
        deep_at(tokens, at)
    } else {
        refused_at(tokens, at)
    }
}
