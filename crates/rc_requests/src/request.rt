// What the words on the command line ask.
ghost use Rattle.std.specs.Prelude.{◌≡◌, ◌≤◌, ℕ, ◌∷◌, Some, IfSome};
ghost use Rattle.std.specs.Char.{is_ascii_digit};
ghost use Rattle.std.specs.List.{list_all};
ghost use Rattle.std.specs.Option.{option_map};
ghost use Rattle.std.specs.Fmt.{decimal};
ghost use Rattle.std.specs.Str.{bytes_eq};
ghost use Rattle.rc_requests.specs.Asking.{asks, bytes_of, chosen};
ghost use Rattle.rc_requests.specs.Request.{Checks, Compile, Link, Listing, Seal, Soak, Tasks, Upgrade, are_choices, ending, ending_in_name, ending_number, limits_of, limits_within, number_within, option, request_of, with_choices, with_files};

use itoa::Buffer;
use rc_base::{Limits, MOST_BLOCKS, MOST_REGIONS, MOST_TURNS, USUAL_TURNS};

/// What the words ask, with the file's name.
#[derive(Clone, Copy)]
pub enum Request<'a> {
    /// To run a program.
    Run(&'a str, Limits),
    /// To run it node by node.
    Slow(&'a str, Limits),
    /// To store the image of the first file's program under the second name.
    Compile(&'a str, &'a str),
    /// To run an image.
    Exec(&'a str, Limits),
    /// To list an image.
    Listing(&'a str),
    /// To store the image of the first file under the second name, in the newest version of the format.
    Upgrade(&'a str, &'a str),
    /// To run the heap commands of the file. A script takes no turns.
    Script(&'a str, Limits),
    /// To report on the checks of the file's program.
    Checks(&'a str),
    /// To run the program that is made from this number, and to sum it up.
    Soak(u64),
    /// To run the tasks of the file by the choices, which are from 1 to 1,000 decimal digits.
    Tasks(&'a str, &'a str, Limits),
    /// To store the image of the program that the files are together under the name. There are from 1
    /// to 16 of them.
    Link(&'a str, &'a [String]),
    /// To store the image of the first file under the second name, with proofs of which of its checks
    /// are not needed.
    Seal(&'a str, &'a str),
}

/// How many choices there may be.
const MOST_CHOICES: usize = 1_000;

/// How many files there may be of one program.
const MOST_FILES: usize = 16;

/// The number of an option, and the words behind it.
#[derive(Clone, Copy)]
pub(crate) struct Chosen<'a> {
    pub(crate) number: u64,
    pub(crate) rest: &'a [String],
}

/// The number that the word may print.
fn parsed(word: &str) -> Option<u64>
    ensures { (n : ℕ) → n ≤ 18446744073709551615 → word.now ≡ decimal n → result ≡ Some n }
{
    word.parse().ok()
}

fn is_printed(number: u64, word: &str) -> bool
    ensures { result ≡ bytes_eq (decimal number) word.now }
{
    let mut buffer = Buffer::new();
    buffer.format(number).as_bytes() == word.as_bytes()
}

/// The number that a word spells in decimal digits without a leading zero, up to `most`.
fn number_within(most: u64, word: &str) -> Option<u64>
    ensures is { result ≡ number_within most word.now }
    ensures bound { IfSome result (λ n. n ≤ most) }
{
    let number = parsed(word)?;
    if !is_printed(number, word) {
        return None;
    }
    if number > most {
        return None;
    }
    Some(number)
}

/// Takes an option with its number, where it stands first.
fn option<'a>(name: &str, most: u64, default: u64, words: &'a [String]) -> Option<Chosen<'a>>
    requires { default ≤ most }
    ensures is { option_map chosen result ≡ option name.now most default (bytes_of words.now) }
    ensures bound { IfSome result (λ c. c.number ≤ most) }
{
    let [word, number, rest @ ..] = words else {
        return Some(Chosen {
            number: default,
            rest: words,
        });
    };
    if word.as_str() != name {
        return Some(Chosen {
            number: default,
            rest: words,
        });
    }
    let number = number_within(most, number.as_str())?;
    Some(Chosen { number, rest })
}

/// The limits that the options of a heap set, which stand in this order, beside so many turns.
fn limits_within(turns: u64, words: &[String]) -> Option<Limits>
    ensures { result ≡ limits_within turns (bytes_of words.now) }
{
    let most_regions = MOST_REGIONS as u64;
    let regions = option("--regions", most_regions, most_regions, words)?;
    let most_blocks = MOST_BLOCKS as u64;
    let blocks = option("--blocks", most_blocks, most_blocks, regions.rest)?;
    if !blocks.rest.is_empty() {
        return None;
    }
    Some(Limits {
        turns,
        regions: regions.number as u32,
        blocks: blocks.number as u32,
    })
}

/// The limits that the options of a run set: that of turns stands before those of the heap.
fn limits_of(words: &[String]) -> Option<Limits>
    ensures { result ≡ limits_of (bytes_of words.now) }
{
    let turns = option("--turns", MOST_TURNS, USUAL_TURNS, words)?;
    limits_within(turns.number, turns.rest)
}

/// To list this file, where no word stands behind.
fn listing<'a>(file: &'a str, rest: &[String]) -> Option<Request<'a>>
    ensures { option_map asks result ≡ ending (Listing file.now) (bytes_of rest.now) }
{
    match rest {
        [] => Some(Request::Listing(file)),
        _ => None,
    }
}

/// To compile this file, where one word stands behind: the name under which to store.
fn compile<'a>(from: &'a str, rest: &'a [String]) -> Option<Request<'a>>
    ensures { option_map asks result ≡ ending_in_name (Compile from.now) (bytes_of rest.now) }
{
    match rest {
        [to] => Some(Request::Compile(from, to.as_str())),
        _ => None,
    }
}

/// To upgrade this file, where one word stands behind: the name under which to store.
fn upgrade<'a>(from: &'a str, rest: &'a [String]) -> Option<Request<'a>>
    ensures { option_map asks result ≡ ending_in_name (Upgrade from.now) (bytes_of rest.now) }
{
    match rest {
        [to] => Some(Request::Upgrade(from, to.as_str())),
        _ => None,
    }
}

/// To report on this file, where no word stands behind.
fn checks<'a>(file: &'a str, rest: &[String]) -> Option<Request<'a>>
    ensures { option_map asks result ≡ ending (Checks file.now) (bytes_of rest.now) }
{
    match rest {
        [] => Some(Request::Checks(file)),
        _ => None,
    }
}

/// To run the program that is made from the number that this word spells, where no word stands behind.
fn soak<'a>(word: &str, rest: &[String]) -> Option<Request<'a>>
    ensures { option_map asks result ≡ ending_number Soak word.now (bytes_of rest.now) }
{
    if !rest.is_empty() {
        return None;
    }
    let number = number_within(u64::MAX, word)?;
    Some(Request::Soak(number))
}

fn are_digits(bytes: &[u8]) -> bool
    ensures { result ≡ list_all is_ascii_digit bytes.now }
{
    bytes.iter().all(|byte| byte.is_ascii_digit())
}

/// Whether the word is a list of choices.
fn are_choices(word: &str) -> bool
    ensures { result ≡ are_choices word.now }
{
    if word.is_empty() {
        return false;
    }
    if word.len() > MOST_CHOICES {
        return false;
    }
    are_digits(word.as_bytes())
}

/// To run the tasks of this file, where choices stand behind, and options of a run behind them.
fn tasks<'a>(file: &'a str, rest: &'a [String]) -> Option<Request<'a>>
    ensures { option_map asks result ≡ with_choices (Tasks file.now) (bytes_of rest.now) }
{
    let [choices, options @ ..] = rest else {
        return None;
    };
    if !are_choices(choices.as_str()) {
        return None;
    }
    let limits = limits_of(options)?;
    Some(Request::Tasks(file, choices.as_str(), limits))
}

/// To store the image of a program of several files under this name, where from 1 to 16 names stand
/// behind.
fn link<'a>(to: &'a str, rest: &'a [String]) -> Option<Request<'a>>
    ensures { option_map asks result ≡ with_files (Link to.now) (bytes_of rest.now) }
{
    if rest.is_empty() {
        return None;
    }
    if rest.len() > MOST_FILES {
        return None;
    }
    Some(Request::Link(to, rest))
}

/// To seal this file, where one word stands behind: the name under which to store.
fn seal<'a>(from: &'a str, rest: &'a [String]) -> Option<Request<'a>>
    ensures { option_map asks result ≡ ending_in_name (Seal from.now) (bytes_of rest.now) }
{
    match rest {
        [to] => Some(Request::Seal(from, to.as_str())),
        _ => None,
    }
}

fn asking<'a>(verb: &str, file: &'a str, rest: &'a [String]) -> Option<Request<'a>>
    ensures { option_map asks result ≡ request_of (verb.now ∷ file.now ∷ bytes_of rest.now) }
{
    if verb == "run" {
        let limits = limits_of(rest)?;
        return Some(Request::Run(file, limits));
    }
    if verb == "slow" {
        let limits = limits_of(rest)?;
        return Some(Request::Slow(file, limits));
    }
    if verb == "compile" {
        return compile(file, rest);
    }
    if verb == "exec" {
        let limits = limits_of(rest)?;
        return Some(Request::Exec(file, limits));
    }
    if verb == "list" {
        return listing(file, rest);
    }
    if verb == "upgrade" {
        return upgrade(file, rest);
    }
    if verb == "heap" {
        let limits = limits_within(0, rest)?;
        return Some(Request::Script(file, limits));
    }
    if verb == "checks" {
        return checks(file, rest);
    }
    if verb == "soak" {
        return soak(file, rest);
    }
    if verb == "tasks" {
        return tasks(file, rest);
    }
    if verb == "link" {
        return link(file, rest);
    }
    if verb == "seal" {
        return seal(file, rest);
    }
    None
}

/// What the words ask, if anything: a verb, a file's name, which may be any word, and options, other
/// names or choices; or a verb and a number.
pub fn request_of<'a>(words: &'a [String]) -> Option<Request<'a>>
    ensures { option_map asks result ≡ request_of (bytes_of words.now) }
{
    match words {
        [verb, file, rest @ ..] => asking(verb.as_str(), file.as_str(), rest),
        _ => None,
    }
}
