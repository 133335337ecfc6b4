// The locals and operands of all calls.
ghost use Rattle.std.specs.Prelude.{◌≡◌, ◌+◌, ◌-◌, ◌<◌, ◌≤◌, ◌∷◌, [], ℤ, IfOk, OnOk, OnErr, ◌&&◌, nat_eq, nat_le, nat_lt, length, map, slice_get, Some, slice_set, drop};
ghost use Rattle.rc_core.specs.Heap.{Number};
ghost use Rattle.rc_pile.specs.Words.{value_of};
ghost use Rattle.rc_pile.specs.Stacks.{begun, giving, setting, taking, with_locals, entered, left, first_caller, started, with_room, with_more};

use crate::caller::Caller;
use crate::word::Word;
use crate::words::Words;
use rc_base::NoMemory;
use std::alloc::Global;
use std::marker::Model;

/// A call that waits, and where its locals and its operands begin.
#[derive(Clone, Copy)]
struct Frame {
    caller: Caller,
    base: usize,
    first: usize,
}

/// A stack of calls. Only the latest one's locals and operands are read and written.
#[derive(Drop)]
pub struct Pile {
    words: Words,
    frames: Vec<Frame>,
    base: usize,
    first: usize,
    top: usize,
    depth: usize,
}

impl Model for Pile {
    ghost use Rattle.std.specs.Prelude.{◌≤◌, ◌<◌, ◌^◌, length, reverse, take};
    ghost use Rattle.rc_pile.specs.Stacks.{Stack, stack_of, IsStacked};

    ghost Value = { Stack };

    ghost view = { λ p. stack_of p.words p.frames.items p.base p.first p.top p.depth };

    ghost invariant = { λ p. (p.base ≤ p.first) × (p.first ≤ p.top) × (p.top ≤ length p.words) × (p.depth ≤ length p.frames.items) × IsStacked (reverse (take p.depth p.frames.items)) p.base × (length p.words < 2 ^ 64) };
}

impl Pile {
    /// One call with these locals, and with memory for so many words and waiting calls.
    ///
    /// # Errors
    ///
    /// Out of memory.
    pub fn start(
        alloc: Global,
        locals: &[Word],
        words: usize,
        frames: usize,
    ) -> Result<Pile, NoMemory>
        requires { length locals.now ≤ words }
        ensures { IfOk result (λ p. p ≡ started words frames (map value_of locals.now)) }
    {
        let mut pile = Pile::empty(alloc, words, frames)?;
        pile.add_locals(locals);
        Ok(pile)
    }

    #[tactic(auto, using(crate::proofs::StackLaws::empty_is))]
    fn empty(alloc: Global, words: usize, frames: usize) -> Result<Pile, NoMemory>
        ensures { IfOk result (λ p. p ≡ started words frames []) }
    {
        let zeros = Words::zeros(alloc, words)?;
        let waits = Vec::from_elem(
            alloc,
            Frame {
                caller: Caller {
                    function: 0,
                    place: 0,
                },
                base: 0,
                first: 0,
            },
            frames,
        )?;
        Ok(Pile {
            words: zeros,
            frames: waits,
            base: 0,
            first: 0,
            top: 0,
            depth: 0,
        })
    }

    /// The operand so far below the topmost.
    #[tactic(auto, using(crate::proofs::StackLaws::operand_at, crate::proofs::StackLaws::operands_length))]
    #[inline(always)]
    pub fn operand(&self, k: u32) -> Word
        requires { k < length self.now.operands }
        ensures { slice_get self.now.operands k ≡ Some (value_of result) }
    {
        self.words.get(self.top - 1 - k as usize)
    }

    /// The operand so far below the topmost, where that is a number.
    #[inline(always)]
    pub fn number(&self, k: u32) -> i64
        requires { k < length self.now.operands }
        ensures { (n : ℤ) → slice_get self.now.operands k ≡ Some (Number n) → result ≡ n }
    {
        self.operand(k).number()
    }

    /// Puts one operand in place of so many.
    #[tactic(auto, using(crate::proofs::StackLaws::given, crate::proofs::StackLaws::operands_length))]
    #[inline(always)]
    pub fn give(&mut self, k: u32, word: Word)
        requires there { k ≤ length self.old.operands }
        requires room { 0 < self.old.room + k }
        ensures { self.new ≡ giving k (value_of word) self.old }
    {
        self.words.set(self.top - k as usize, word);
        self.top = self.top - k as usize + 1;
    }

    /// Puts a number in place of so many operands.
    #[inline(always)]
    pub fn give_number(&mut self, k: u32, n: i64)
        requires there { k ≤ length self.old.operands }
        requires room { 0 < self.old.room + k }
        ensures { self.new ≡ giving k (Number n) self.old }
    {
        self.give(k, Word::of_number(n));
    }

    /// Takes so many operands away.
    #[tactic(auto, using(crate::proofs::StackLaws::taken, crate::proofs::StackLaws::operands_length))]
    #[inline(always)]
    pub fn take(&mut self, k: u32)
        requires { k ≤ length self.old.operands }
        ensures { self.new ≡ taking k self.old }
    {
        self.top -= k as usize;
    }

    #[tactic(auto, using(crate::proofs::StackLaws::local_at, crate::proofs::StackLaws::locals_length))]
    #[inline(always)]
    pub fn local(&self, x: u32) -> Word
        requires { x < length self.now.locals }
        ensures { slice_get self.now.locals x ≡ Some (value_of result) }
    {
        self.words.get(self.base + x as usize)
    }

    /// A local that is a number.
    #[inline(always)]
    pub fn local_number(&self, x: u32) -> i64
        requires { x < length self.now.locals }
        ensures { (n : ℤ) → slice_get self.now.locals x ≡ Some (Number n) → result ≡ n }
    {
        self.local(x).number()
    }

    #[tactic(auto, using(crate::proofs::StackLaws::local_set, crate::proofs::StackLaws::locals_length))]
    #[inline(always)]
    pub fn set_local(&mut self, x: u32, word: Word)
        requires { x < length self.old.locals }
        ensures { self.new ≡ setting x (value_of word) self.old }
    {
        self.words.set(self.base + x as usize, word);
    }

    #[inline(always)]
    pub fn set_number(&mut self, x: u32, n: i64)
        requires { x < length self.old.locals }
        ensures { self.new ≡ setting x (Number n) self.old }
    {
        self.set_local(x, Word::of_number(n));
    }

    #[tactic(auto, using(crate::proofs::StackLaws::begins, crate::proofs::StackLaws::begins_stacked, crate::proofs::StackLaws::operands_length))]
    #[inline(always)]
    fn begin(&mut self, caller: Caller, parameters: u32)
        requires there { parameters ≤ length self.old.operands }
        requires more { 0 < self.old.more }
        ensures { self.new ≡ begun caller parameters self.old }
    {
        self.frames[self.depth] = Frame {
            caller,
            base: self.base,
            first: self.first,
        };
        self.depth += 1;
        self.base = self.top - parameters as usize;
        self.first = self.top;
    }

    #[tactic(auto, using(crate::proofs::StackLaws::local_added, crate::proofs::StackLaws::operands_length))]
    #[inline(always)]
    fn add_local(&mut self, word: Word)
        requires room { 0 < self.old.room }
        requires none { self.old.operands ≡ [] }
        ensures { self.new ≡ with_locals (value_of word ∷ []) self.old }
    {
        self.words.set(self.top, word);
        self.top += 1;
        self.first = self.top;
    }

    #[inline(always)]
    fn add_locals(&mut self, locals: &[Word])
        requires room { length locals.now ≤ self.old.room }
        requires none { self.old.operands ≡ [] }
        ensures { self.new ≡ with_locals (map value_of locals.now) self.old }
    {
        for local in locals {
            self.add_local(*local);
        }
    }

    /// Begins a call: so many operands become its first locals, and these words the others. The caller
    /// waits.
    #[inline(always)]
    pub fn enter(&mut self, caller: Caller, parameters: u32, locals: &[Word])
        requires there { parameters ≤ length self.old.operands }
        requires room { length locals.now ≤ self.old.room }
        requires more { 0 < self.old.more }
        ensures { self.new ≡ entered caller parameters (map value_of locals.now) self.old }
    {
        self.begin(caller, parameters);
        self.add_locals(locals);
    }

    /// Ends the call: back to the caller that waits last. The answer is that caller.
    #[tactic(auto, using(crate::proofs::StackLaws::left_off, crate::proofs::StackLaws::left_caller, crate::proofs::StackLaws::left_stacked, crate::proofs::StackLaws::waits_length))]
    #[inline(always)]
    pub fn leave(&mut self) -> Caller
        requires { 0 < length self.old.waits }
        ensures caller { result ≡ first_caller self.old.waits }
        ensures stack { self.new ≡ left self.old }
    {
        self.depth -= 1;
        let frame = self.frames[self.depth];
        self.top = self.base;
        self.base = frame.base;
        self.first = frame.first;
        frame.caller
    }

    /// Whether no caller waits.
    #[tactic(auto, using(crate::proofs::StackLaws::waits_length))]
    #[inline(always)]
    pub fn is_last(&self) -> bool
        ensures { result ≡ nat_eq (length self.now.waits) 0 }
    {
        self.depth == 0
    }

    /// Whether there is room for so many words more, and for one call that waits.
    #[inline(always)]
    pub fn has_room(&self, words: u64) -> bool
        ensures { result ≡ (nat_le words self.now.room && nat_lt 0 self.now.more) }
    {
        words as usize <= self.words.len() - self.top && self.depth < self.frames.len()
    }

    /// Makes room for so many words more.
    ///
    /// # Errors
    ///
    /// Out of memory: nothing has changed.
    #[tactic(auto, using(crate::proofs::StackLaws::roomier))]
    pub fn add_room(&mut self, words: usize) -> Result<(), NoMemory>
        ensures ok { OnOk result (self.new ≡ with_room words self.old) }
        ensures err { OnErr result (self.new ≡ self.old) }
    {
        self.words.add_zeros(words)?;
        Ok(())
    }

    /// Makes room for so many waiting calls more.
    ///
    /// # Errors
    ///
    /// Out of memory: nothing has changed.
    #[tactic(auto, using(crate::proofs::StackLaws::deeper))]
    pub fn add_frames(&mut self, frames: usize) -> Result<(), NoMemory>
        ensures ok { OnOk result (self.new ≡ with_more frames self.old) }
        ensures err { OnErr result (self.new ≡ self.old) }
    {
        let Some(n) = self.frames.len().checked_add(frames) else {
            return Err(NoMemory);
        };
        let blank = Frame {
            caller: Caller {
                function: 0,
                place: 0,
            },
            base: 0,
            first: 0,
        };
        self.frames.resize(n, blank)?;
        Ok(())
    }
}
