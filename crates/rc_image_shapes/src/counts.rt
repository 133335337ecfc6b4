// How many variables a function has.
ghost use Rattle.std.specs.Prelude.{◌≡◌, ◌<◌, ◌≤◌, ◌+◌, ◌^◌, length, Decides, MatchOption};
ghost use Rattle.rc_code.specs.Image.{FieldsFit};
ghost use Rattle.rc_code.specs.Running.{function_at, reading_of};
ghost use Rattle.rc_claims.specs.Counts.{copies, regionals, trues};
ghost use Rattle.rc_sealed.specs.ImageVariables.{greater, height_within};
ghost use Rattle.rc_sealed.specs.Faults.{FirstWide, IsWide, NoneIsWide};
ghost use Rattle.rc_image_shapes.specs.Counted.{AreCounts, IsCountable};

use rc_code::{Function, Parts};
use rc_image_counts::{count_regional, function_of, height_behind};

/// What is counted of a function.
#[derive(Clone, Copy)]
pub(crate) struct Counts {
    /// How many hidden copies it has.
    pub(crate) copies: usize,
    /// The variable of its first stack place.
    pub(crate) first: usize,
    /// The variable of its result.
    pub(crate) result: usize,
}

fn greater(a: usize, b: usize) -> usize
    ensures { result ≡ greater a b }
{
    if a < b { b } else { a }
}

/// The most operands that stand before an instruction, or behind the last one.
fn greatest_height(parts: &Parts, function: &Function) -> usize
    requires { length function.now.code < 2 ^ 32 }
    ensures height { result ≡ height_within (reading_of parts.now) function.now (length function.now.code) }
    ensures most { result ≤ length function.now.code }
{
    let mut height = 0;
    let mut greatest = 0;
    for at in 0..function.code.as_slice().len() {
        let next = height_behind(parts, function, at, height);
        let most = greater(greatest, next);
        height = next;
        greatest = most;
    }
    greatest
}

/// How many hidden copies a function has.
pub(crate) fn copies_of(function: &Function) -> usize
    requires { IsCountable function.now }
    ensures copies { result ≡ copies function.now }
    ensures most { result < 2 ^ 32 }
{
    count_regional(&function.locals.as_slice()[..function.parameters as usize])
}

/// The counts of a function.
pub(crate) fn counts_of(parts: &Parts, function: &Function) -> Counts
    requires { IsCountable function.now }
    ensures counts { AreCounts (reading_of parts.now) function.now result }
    ensures most { result.result < 2 ^ 40 }
{
    let copies = copies_of(function);
    let locals = count_regional(function.locals.as_slice());
    let height = greatest_height(parts, function);
    Counts {
        copies,
        first: copies + locals,
        result: copies + (locals + height),
    }
}

/// Whether a function has more variables than a set of facts.
fn is_wide(parts: &Parts, number: u32) -> bool
    requires fields { FieldsFit parts.now }
    requires there { number < length parts.now.functions }
    ensures { Decides result (IsWide parts.now number) }
{
    let counts = counts_of(parts, function_of(parts, number));
    counts.result + 2 > 128
}

/// The first function of an image that has more variables than a set of facts, if there is one.
pub fn first_wide(parts: &Parts) -> Option<u32>
    requires { FieldsFit parts.now }
    ensures { MatchOption result (NoneIsWide parts.now) (λ f. FirstWide parts.now f) }
{
    for number in 0..parts.functions.as_slice().len() {
        if is_wide(parts, number as u32) {
            return Some(number as u32);
        }
    }
    None
}
