// Words in two lists.
ghost use Rattle.std.specs.Prelude.{◌≡◌, ◌<◌, ◌^◌, ◌++◌, IfOk, OnOk, OnErr, length, replicate, slice_index_or, slice_set};
ghost use Rattle.rc_pile.specs.Words.{zero_word};

use crate::word::Word;
use rc_base::NoMemory;
use std::alloc::Global;
use std::marker::Model;

/// Words as two lists, one of their lower and one of their upper halves: a half of eight bytes is found by
/// its place alone, and a word that is copied is read as it was written, half by half.
#[derive(Drop)]
pub(crate) struct Words {
    lows: Vec<u64>,
    highs: Vec<u64>,
}

impl Model for Words {
    ghost use Rattle.std.specs.Prelude.{◌≡◌, List, length};
    ghost use Rattle.rc_pile.specs.declared.word.Word.{Word};
    ghost use Rattle.rc_pile.specs.Words.{joined};

    ghost Value = { List Word };

    ghost view = { λ w. joined w.lows.items w.highs.items };

    ghost invariant = { λ w. length w.lows.items ≡ length w.highs.items };
}

impl Words {
    /// So many zeros.
    ///
    /// # Errors
    ///
    /// Out of memory.
    #[tactic(auto, using(crate::proofs::JoinedLaws::joined_zeros))]
    pub(crate) fn zeros(alloc: Global, count: usize) -> Result<Words, NoMemory>
        ensures { IfOk result (λ words. words ≡ replicate count zero_word) }
    {
        let lows = Vec::from_elem(alloc, 0, count)?;
        let highs = Vec::from_elem(alloc, 0, count)?;
        Ok(Words { lows, highs })
    }

    #[tactic(auto, using(crate::proofs::JoinedLaws::joined_length))]
    #[inline(always)]
    pub(crate) fn len(&self) -> usize
        ensures { result ≡ length self.now }
    {
        self.lows.len()
    }

    #[tactic(auto, using(crate::proofs::JoinedLaws::joined_length, crate::proofs::JoinedLaws::joined_at))]
    #[inline(always)]
    pub(crate) fn get(&self, place: usize) -> Word
        requires { place < length self.now }
        ensures { result ≡ slice_index_or self.now place zero_word }
    {
        Word {
            low: self.lows[place],
            high: self.highs[place],
        }
    }

    #[tactic(auto, using(crate::proofs::JoinedLaws::joined_length, crate::proofs::JoinedLaws::joined_set))]
    #[inline(always)]
    pub(crate) fn set(&mut self, place: usize, word: Word)
        requires { place < length self.old }
        ensures { self.new ≡ slice_set self.old place word }
    {
        self.lows[place] = word.low;
        self.highs[place] = word.high;
    }

    /// So many zeros more.
    ///
    /// # Errors
    ///
    /// Out of memory: nothing has changed.
    #[tactic(auto, using(crate::proofs::JoinedLaws::joined_length))]
    pub(crate) fn add_zeros(&mut self, count: usize) -> Result<(), NoMemory>
        ensures ok { OnOk result (self.new ≡ self.old ++ replicate count zero_word) }
        ensures fits { length self.new < 2 ^ 64 }
        ensures err { OnErr result (self.new ≡ self.old) }
    {
        let before = self.lows.len();
        let Some(after) = before.checked_add(count) else {
            return Err(NoMemory);
        };
        self.lows.resize(after, 0)?;
        match self.highs.resize(after, 0) {
            Ok(()) => Ok(()),
            Err(_error) => {
                self.lows.truncate(before);
                Err(NoMemory)
            }
        }
    }
}
