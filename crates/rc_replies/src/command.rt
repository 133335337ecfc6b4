// Reading commands.
ghost use Rattle.std.specs.Prelude.{◌≡◌, ℕ, map, option_map, Vec};
ghost use Rattle.std.specs.declared.alloc.Global.{Global as Alloc};
ghost use Rattle.rc_replies.specs.Commands.{command_in, command_of, command_of_verb, drop, link, numbers_of, one, target_of, two};
ghost use Rattle.rc_replies.specs.Reading.{Reads, asked};

use crate::number::number_of;
use crate::words::words_of;
use std::alloc::{AllocError, Global};

const NEW: &[u8] = b"new";

const CELL: &[u8] = b"cell";

const LINK: &[u8] = b"link";

const PIN: &[u8] = b"pin";

const UNPIN: &[u8] = b"unpin";

const DROP: &[u8] = b"drop";

/// What stands in the place of a region where a cell is to name none.
const NOWHERE: &[u8] = b"-";

/// What a line asks of a heap.
#[derive(Debug, Drop)]
pub enum Command {
    /// A region under this one.
    New(u32),
    /// An object in a region, of so many cells that each hold a region.
    Cells(u32, u32),
    /// A cell, by its region, its object and its number there, is to name a region, or none.
    Link(u32, u32, u32, Option<u32>),
    /// To pin a region.
    Pin(u32),
    /// To take one pin of a region away.
    Unpin(u32),
    /// To delete all these regions at once.
    Drop(Vec<u32>),
}

/// Why no command was read.
#[derive(Clone, Copy, Debug, PartialEq, Eq)]
pub enum NoCommand {
    /// The line spells none.
    Bad,
    /// There was no memory.
    Memory,
}

impl From<AllocError> for NoCommand {
    ghost use Rattle.std.specs.Prelude.{◌≡◌};
    ghost use Rattle.rc_replies.specs.declared.command.NoCommand.TheVariants.{Memory};

    ghost from_gives = { λ _ fault. fault ≡ Memory };

    fn from(_error: AllocError) -> NoCommand {
        NoCommand::Memory
    }
}

fn one(words: &[&[u8]]) -> Option<u32>
    ensures { result ≡ one (map (λ word. word.now) words.now) }
{
    match words {
        [word] => number_of(word),
        _ => None,
    }
}

fn two(words: &[&[u8]]) -> Option<(u32, u32)>
    ensures { result ≡ two (map (λ word. word.now) words.now) }
{
    match words {
        [first, second] => {
            let first = number_of(first)?;
            let second = number_of(second)?;
            Some((first, second))
        }
        _ => None,
    }
}

/// A number, or a dash for no region.
fn target_of(word: &[u8]) -> Option<Option<u32>>
    ensures { result ≡ target_of word.now }
{
    if word == NOWHERE {
        return Some(None);
    }
    let number = number_of(word)?;
    Some(Some(number))
}

fn link(words: &[&[u8]]) -> Option<Command>
    ensures { option_map asked result ≡ link (map (λ word. word.now) words.now) }
{
    match words {
        [region, object, index, target] => {
            let region = number_of(region)?;
            let object = number_of(object)?;
            let index = number_of(index)?;
            let target = target_of(target)?;
            Some(Command::Link(region, object, index, target))
        }
        _ => None,
    }
}

/// The numbers that all these words spell.
fn numbers_of(alloc: Global, words: &[&[u8]]) -> Result<Vec<u32>, NoCommand>
    ensures { Reads (λ (v : Vec ℕ Alloc). v.items) (numbers_of (map (λ word. word.now) words.now)) result }
{
    let mut numbers = Vec::new(alloc);
    for word in words {
        let Some(number) = number_of(word) else {
            return Err(NoCommand::Bad);
        };
        let Ok(()) = numbers.push(number) else {
            return Err(NoCommand::Memory);
        };
    }
    Ok(numbers)
}

fn drop(alloc: Global, words: &[&[u8]]) -> Result<Command, NoCommand>
    ensures { Reads asked (drop (map (λ word. word.now) words.now)) result }
{
    if words.is_empty() {
        return Err(NoCommand::Bad);
    }
    match numbers_of(alloc, words) {
        Ok(regions) => Ok(Command::Drop(regions)),
        Err(fault) => Err(fault),
    }
}

/// The command of a verb but `drop`.
fn command_of_verb(verb: &[u8], words: &[&[u8]]) -> Option<Command>
    ensures { option_map asked result ≡ command_of_verb verb.now (map (λ word. word.now) words.now) }
{
    if verb == NEW {
        let parent = one(words)?;
        return Some(Command::New(parent));
    }
    if verb == CELL {
        let (region, count) = two(words)?;
        return Some(Command::Cells(region, count));
    }
    if verb == LINK {
        return link(words);
    }
    if verb == PIN {
        let region = one(words)?;
        return Some(Command::Pin(region));
    }
    if verb == UNPIN {
        let region = one(words)?;
        return Some(Command::Unpin(region));
    }
    None
}

fn command_in(alloc: Global, verb: &[u8], words: &[&[u8]]) -> Result<Command, NoCommand>
    ensures { Reads asked (command_in verb.now (map (λ word. word.now) words.now)) result }
{
    if verb == DROP {
        return drop(alloc, words);
    }
    match command_of_verb(verb, words) {
        Some(command) => Ok(command),
        None => Err(NoCommand::Bad),
    }
}

/// The command that a line spells.
///
/// # Errors
///
/// `Bad` where it spells none, and `Memory`.
pub fn command_of(alloc: Global, line: &[u8]) -> Result<Command, NoCommand>
    ensures { Reads asked (command_of line.now) result }
{
    let words = words_of(alloc, line)?;
    match words.as_slice() {
        [verb, rest @ ..] => command_in(alloc, verb, rest),
        [] => Err(NoCommand::Bad),
    }
}
