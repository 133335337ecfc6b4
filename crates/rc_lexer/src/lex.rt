// A whole text.
ghost use Rattle.std.specs.Prelude.{ℕ, List, ◌≡◌, ◌==◌, ◌<◌, ◌≤◌, [], ◌++◌, length, count_by, IsErrOf, IfErr, OnOk};
ghost use Rattle.rc_base.specs.Limits.{most_text_bytes};
ghost use Rattle.rc_syntax.specs.Tokens.{Token};
ghost use Rattle.rc_syntax.specs.WordShapes.{tokens_of};
ghost use Rattle.rc_syntax.specs.Words.{with_line, Words, UnreadByte, UnreadToken};
ghost use Rattle.rc_lexer.specs.Lexes.{Lexes, GivesWords, Refuses};
ghost use Rattle.rc_lexer.specs.declared.fault.LexFault.TheVariants.{TooLong, Byte, Token as TokenFault, Memory};
ghost use Rattle.rc_lexer.specs.Shapes.{word_in};
ghost use Rattle.rc_syntax.specs.reader.Look.{class_of};
ghost use Rattle.rc_lexer.specs.Pieces.{fault_of};

use crate::class::{Class, class_of};
use crate::fault::LexFault;
use crate::piece::look;
use rc_base::MOST_TEXT_BYTES;
use rc_syntax::word;
use rc_syntax::word::Word;
use std::alloc::Global;

fn line_feeds(bytes: &[u8]) -> usize
    ensures count { result ≡ count_by (λ b. b == 10) bytes.now }
    ensures low { result ≤ length bytes.now }
{
    bytes.iter().filter(|b| **b == b'\n').count()
}

/// The refusal where no piece begins with the byte.
fn fault_at(b: u8, line: u32) -> LexFault
    ensures { result ≡ fault_of (class_of b) line }
{
    match class_of(b) {
        Class::Digit | Class::Quote | Class::DoubleQuote | Class::Slash => LexFault::Token(line),
        _ => LexFault::Byte(line),
    }
}

/// Adds the word of a piece, if it is one.
#[tactic(auto, using(crate::proofs::Lexed::tokens_of_push, crate::proofs::Lexed::tokens_of_none))]
fn push_word(tokens: &mut Vec<word::Token>, word: Option<Word>, line: u32) -> Result<(), LexFault>
    ensures ok { OnOk result (tokens_of tokens.new.items ≡ tokens_of tokens.old.items ++ with_line line (word_in word) []) }
    ensures err { IfErr result (λ e. e ≡ Memory) }
{
    match word {
        Some(word) => {
            tokens.push(word::Token { word, line })?;
            Ok(())
        }
        None => Ok(()),
    }
}

/// The words of a text that is not too long.
fn words_of(alloc: Global, text: &[u8]) -> Result<Vec<word::Token>, LexFault>
    requires { length text.now ≤ most_text_bytes }
    ensures { Lexes text.now result }
{
    let mut tokens = Vec::new(alloc);
    let mut at: usize = 0;
    let mut line: u32 = 1;
    'pieces: while at < text.len() {
        let (before, rest) = text.split_at(at);
        let Some(piece) = look(alloc, before, rest)? else {
            return Err(fault_at(text[at], line))
        };
        push_word(&mut tokens, piece.word, line)?;
        line += line_feeds(&rest[..piece.length]) as u32;
        at += piece.length;
    }
    Ok(tokens)
}

/// The words of a text, each with the line of its first byte.
///
/// A text of over 1,048,576 bytes is refused as TooLong. Every other text is either cut into words
/// whole, or refused with the line of the first place that can't be read: Byte where the byte there
/// begins no word, Token where a number, a literal or a comment begins there that is not well formed.
#[tactic(auto, using(crate::proofs::Lexed::words_given, crate::proofs::Lexed::byte_given, crate::proofs::Lexed::token_given))]
pub fn lex(alloc: Global, text: &[u8]) -> Result<Vec<word::Token>, LexFault>
    ensures answer { Lexes text.now result }
    ensures too_long { most_text_bytes < length text.now → IsErrOf result TooLong }
    ensures words { (tokens : List Token) → length text.now ≤ most_text_bytes → Words text.now tokens → GivesWords tokens result }
    ensures byte { (line : ℕ) → length text.now ≤ most_text_bytes → UnreadByte text.now line → Refuses (Byte line) result }
    ensures token { (line : ℕ) → length text.now ≤ most_text_bytes → UnreadToken text.now line → Refuses (TokenFault line) result }
{
    if text.len() > MOST_TEXT_BYTES as usize {
        return Err(LexFault::TooLong);
    }
    words_of(alloc, text)
}
