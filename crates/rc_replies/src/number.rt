// Reading numbers.
ghost use Rattle.std.specs.Prelude.{◌≡◌, ◌≤◌, ℕ, Some};
ghost use Rattle.std.specs.Fmt.{decimal};
ghost use Rattle.std.specs.Str.{bytes_eq};
ghost use Rattle.rc_replies.specs.Commands.{number_of};

use itoa::Buffer;

fn is_printed(number: u32, word: &[u8]) -> bool
    ensures { result ≡ bytes_eq (decimal number) word.now }
{
    let mut buffer = Buffer::new();
    buffer.format(number).as_bytes() == word
}

/// The number that the word may print.
fn parsed(word: &[u8]) -> Option<u32>
    ensures { (n : ℕ) → n ≤ 4294967295 → word.now ≡ decimal n → result ≡ Some n }
{
    let Ok(text) = std::str::from_utf8(word) else {
        return None;
    };
    text.parse().ok()
}

/// The number that a word spells in decimal digits without a leading zero.
pub(crate) fn number_of(word: &[u8]) -> Option<u32>
    ensures { result ≡ number_of word.now }
{
    let number = parsed(word)?;
    if !is_printed(number, word) {
        return None;
    }
    Some(number)
}
