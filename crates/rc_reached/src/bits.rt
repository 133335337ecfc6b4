// Rows of bits.
ghost use Rattle.std.specs.Prelude.{◌≡◌, ◌≢◌, ◌+◌, ◌-◌, ◌*◌, ◌/◌, ◌^◌, ◌<◌, ◌≤◌, ◌&&◌, true, false, ℕ, length, get_or, IfOk};
ghost use Rattle.rc_reached.specs.Walks.{at_each};
ghost use Rattle.rc_reached.specs.Masks.{is_set, marks};

use rc_code::Index;
use std::alloc::{AllocError, Global};

/// The word of that number, 0 where there is none.
#[inline(always)]
fn word_at(words: &[u64], at: usize) -> u64
    ensures { result ≡ get_or words.now at 0 }
{
    match words.get(at) {
        None => 0,
        Some(word) => *word,
    }
}

/// The marks of 64 places from one on.
#[inline(always)]
pub(crate) fn word_from(words: &[u64], place: usize) -> u64
    ensures { (k : ℕ) → k < 64 → is_set result k ≡ marks words.now (place + k) }
{
    let at = place / 64;
    let by = place % 64;
    let low = word_at(words, at);
    if by == 0 {
        return low;
    }
    (low >> by) | (word_at(words, at + 1) << (64 - by))
}

/// Whether the words mark a place.
pub(crate) fn is_marked(words: &[u64], place: usize) -> bool
    ensures { result ≡ marks words.now place }
{
    (word_at(words, place / 64) >> (place % 64)) & 1 == 1
}

/// Words that mark no place.
pub(crate) fn no_marks(alloc: Global, count: usize) -> Result<Vec<u64>, AllocError>
    ensures long { IfOk result (λ words. length words.items ≡ count) }
    ensures none { IfOk result (λ words. (place : ℕ) → marks words.items place ≡ false) }
{
    let mut words = Vec::with_capacity(alloc, count)?;
    for _ in 0..count {
        words.push(0)?;
    }
    Ok(words)
}

/// Marks a place.
pub(crate) fn mark(words: &mut [u64], place: usize)
    requires room { place / 64 < length words.old }
    ensures marked { marks words.new place ≡ true }
    ensures others { (k : ℕ) → k ≢ place → marks words.new k ≡ marks words.old k }
{
    let at = place / 64;
    words[at] = words[at] | (1 << (place % 64));
}

/// The marks from a place on, in so many words.
pub(crate) fn words_from(
    alloc: Global,
    words: &[u64],
    place: usize,
    count: usize,
) -> Result<Vec<u64>, AllocError>
    requires small { place + 64 * count < 2 ^ 63 }
    ensures long { IfOk result (λ from. length from.items ≡ count) }
    ensures marks { IfOk result (λ from. (k : ℕ) → k < 64 * count → marks from.items k ≡ marks words.now (place + k)) }
{
    let mut from = Vec::with_capacity(alloc, count)?;
    for at in 0..count {
        from.push(word_from(words, place + 64 * at))?;
    }
    Ok(from)
}

/// Leaves of the marks in so many words those where a place so much further is marked too.
fn narrow(words: &mut [u64], distance: usize, count: usize)
    requires room { count ≤ length words.old }
    requires small { distance + 64 * count < 2 ^ 63 }
    ensures { (k : ℕ) → k < 64 * count → marks words.new k ≡ (marks words.old k && marks words.old (distance + k)) }
{
    for at in 0..count {
        let further = word_from(words, distance + 64 * at);
        words[at] = words[at] & further;
    }
}

/// Leaves the marks from which on all places along the index are marked, so far as the indices after it
/// may lead; and says how far that is, where all of them lead as far as `reach`.
pub(crate) fn narrow_along(words: &mut [u64], index: Index, reach: usize) -> usize
    requires some { 1 ≤ index.length }
    requires inside { (index.length - 1) * index.stride ≤ reach }
    requires room { reach / 64 < length words.old }
    requires small { reach < 2 ^ 32 }
    ensures rest { (index.length - 1) * index.stride + result ≡ reach }
    ensures along { (k : ℕ) → k ≤ result → marks words.new k ≡ at_each (marks words.old) index.length index.stride k }
{
    let mut left = index.length;
    let mut reach = reach;
    while left > 1 {
        let half = left / 2;
        let distance = half as usize * index.stride as usize;
        reach -= distance;
        narrow(words, distance, reach / 64 + 1);
        left -= half;
    }
    reach
}
