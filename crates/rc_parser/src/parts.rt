// Words and lists that several productions have.
ghost use Rattle.std.specs.Prelude.{◌≡◌, ◌≤◌, ◌++◌, ◌∷◌, [], IfOk, IfErr, OnOk, length};
ghost use Rattle.rc_base.specs.Limits.{most_words};
ghost use Rattle.rc_syntax.specs.declared.fault.ParseFault.TheVariants.{Memory};
ghost use Rattle.rc_words.specs.Words.{word_at, is_name};
ghost use Rattle.rc_parser.specs.Items.{IsNumber};

use rc_expr::add;
use rc_syntax::fault::ParseFault;
use rc_syntax::word::{Token, Word};
use rc_words::{refused_at, word_here};
use std::alloc::Global;

/// Whether a name stands at a place.
pub fn is_name_at(tokens: &[Token], at: u32) -> bool
    ensures { result ≡ is_name (word_at tokens.now at) }
{
    match word_here(tokens, at) {
        Some(Word::Name(_)) => true,
        _ => false,
    }
}

/// A number as it is written: its value, and whether it is `unsigned`.
#[derive(Clone, Copy)]
pub struct Numeral {
    pub value: u32,
    pub unsigned: bool,
}

/// Takes a number, and answers the place after it.
pub fn number(tokens: &[Token], at: u32) -> Result<(Numeral, u32), ParseFault>
    requires { length tokens.now ≤ most_words }
    ensures { IsNumber tokens.now at result }
{
    match word_here(tokens, at) {
        Some(Word::Number(value, unsigned)) => {
            let number = Numeral {
                value: *value,
                unsigned: *unsigned,
            };
            Ok((number, at + 1))
        }
        _ => Err(refused_at(tokens, at)),
    }
}

/// Puts values after those before them.
pub fn append<T: Drop>(values: &mut Vec<T>, more: Vec<T>) -> Result<(), ParseFault>
    ensures ok { OnOk result (values.new.items ≡ values.old.items ++ more.items) }
    ensures err { IfErr result (λ f. f ≡ Memory) }
{
    for value in more {
        add(values, value)?;
    }
    Ok(())
}

/// A list of one value.
pub fn only<T: Drop>(alloc: Global, value: T) -> Result<Vec<T>, ParseFault>
    ensures ok { IfOk result (λ v. v.items ≡ value ∷ []) }
    ensures err { IfErr result (λ f. f ≡ Memory) }
{
    let mut values = Vec::new(alloc);
    add(&mut values, value)?;
    Ok(values)
}
