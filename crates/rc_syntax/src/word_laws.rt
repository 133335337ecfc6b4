// What the definition of words promises: laws without code.
ghost use Rattle.std.specs.Prelude.{ℕ, List, ◌≡◌, ◌⊎◌, All};
ghost use Rattle.rc_syntax.specs.Tokens.{Word, Token};
ghost use Rattle.rc_syntax.specs.Words.{Words, StopsAt};
ghost use Rattle.rc_syntax.specs.printing.Printing.{printed, IsPrintable, words_in, on_first_line};

/// A text has at most one list of words.
pub fn one_list_of_words()
    ensures { (text : List ℕ) (tokens others : List Token) → Words text tokens → Words text others → tokens ≡ others }
{}

/// A text has at most one first unread place: one byte on one line. So it is either a byte that begins
/// no word or a word or comment that is not well formed, and not both.
pub fn one_unread_place()
    ensures { (text : List ℕ) (byte other line below : ℕ) → StopsAt text byte line → StopsAt text other below → (byte ≡ other) × (line ≡ below) }
{}

/// Every text is a list of words or has a first unread place, and none is both.
pub fn words_or_unread_place()
    ensures either { (text : List ℕ) → ((tokens : List Token) × Words text tokens) ⊎ ((byte : ℕ) × (line : ℕ) × StopsAt text byte line) }
    ensures not_both { (text : List ℕ) (tokens : List Token) (byte line : ℕ) → Words text tokens → StopsAt text byte line → ⊥ }
{}

/// Words that can be printed, printed with a single blank between each two, are the words of that
/// text, all on line 1.
pub fn printed_words_are_read()
    ensures { (words : List Word) → All IsPrintable words → Words (printed words) (on_first_line words) }
{}

/// Each word of a text can be printed: no text has a word that `printed_words_are_read` leaves out.
pub fn words_of_texts_are_printable()
    ensures { (text : List ℕ) (tokens : List Token) → Words text tokens → All IsPrintable (words_in tokens) }
{}
