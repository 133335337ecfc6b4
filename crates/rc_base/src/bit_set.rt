// A set of numbers below 128, as the bits of a number.
ghost use Rattle.std.specs.Prelude.{◌≡◌, ◌<◌, ◌≤◌, ◌==◌, ◌||◌, ◌&&◌, ℕ, not, nat_lt, false, IsTrue, MatchBool};
ghost use Rattle.rc_base.specs.BitSets.{marks, IsLeast, TellsDisjoint, TellsSubset};

use std::marker::Model;

/// A set of numbers below 128, which is copied as one number is.
#[derive(Clone, Copy, Debug, PartialEq, Eq)]
pub struct BitSet {
    bits: u128,
}

impl Model for BitSet {
    ghost Value = { ℕ };

    ghost view = { λ s. s.bits };

    ghost inverse = { λ n. record { bits = n } };
}

impl BitSet {
    /// The set of no number.
    #[tactic(auto, using(crate::proofs::Marks::marks_none))]
    pub fn empty() -> BitSet
        ensures { (x : ℕ) → marks result x ≡ false }
    {
        BitSet { bits: 0 }
    }

    /// The set of the numbers below `count`.
    #[tactic(auto, using(crate::proofs::Marks::marks_first, crate::proofs::Marks::marks_none))]
    pub fn below(count: usize) -> BitSet
        requires { count ≤ 128 }
        ensures { (x : ℕ) → marks result x ≡ nat_lt x count }
    {
        if count == 0 {
            return BitSet { bits: 0 };
        }
        BitSet {
            bits: u128::MAX >> (128 - count),
        }
    }

    /// Whether it has no number.
    #[tactic(auto, using(crate::proofs::Marks::empty_tells))]
    pub fn is_empty(self) -> bool
        ensures { MatchBool result ((x : ℕ) → marks self x ≡ false) ((x : ℕ) × IsTrue (marks self x)) }
    {
        self.bits == 0
    }

    /// Whether the number is in it.
    #[tactic(auto, using(crate::proofs::Marks::marks_has))]
    pub fn contains(self, x: usize) -> bool
        requires { x < 128 }
        ensures { result ≡ marks self x }
    {
        self.bits & (1 << x) != 0
    }

    /// The set with a number more.
    #[tactic(auto, using(crate::proofs::Marks::marks_with))]
    pub fn with(self, x: usize) -> BitSet
        requires { x < 128 }
        ensures { (y : ℕ) → marks result y ≡ (marks self y || y == x) }
    {
        BitSet {
            bits: self.bits | (1 << x),
        }
    }

    /// The set without a number.
    #[tactic(auto, using(crate::proofs::Marks::marks_without))]
    pub fn without(self, x: usize) -> BitSet
        requires { x < 128 }
        ensures { (y : ℕ) → marks result y ≡ (marks self y && not (y == x)) }
    {
        BitSet {
            bits: self.bits & !(1 << x),
        }
    }

    /// The numbers of either set.
    #[tactic(auto, using(crate::proofs::Marks::marks_either))]
    pub fn union(self, other: BitSet) -> BitSet
        ensures { (x : ℕ) → marks result x ≡ (marks self x || marks other x) }
    {
        BitSet {
            bits: self.bits | other.bits,
        }
    }

    /// The numbers of both sets.
    #[tactic(auto, using(crate::proofs::Marks::marks_both))]
    pub fn intersection(self, other: BitSet) -> BitSet
        ensures { (x : ℕ) → marks result x ≡ (marks self x && marks other x) }
    {
        BitSet {
            bits: self.bits & other.bits,
        }
    }

    /// The numbers of this set alone.
    #[tactic(auto, using(crate::proofs::Marks::marks_difference))]
    pub fn difference(self, other: BitSet) -> BitSet
        ensures { (x : ℕ) → marks result x ≡ (marks self x && not (marks other x)) }
    {
        BitSet {
            bits: self.bits & !other.bits,
        }
    }

    /// Whether each of its numbers is in the other set.
    #[tactic(auto, using(crate::proofs::Marks::excess_mark, crate::proofs::Marks::no_excess_mark))]
    pub fn is_subset(self, other: BitSet) -> bool
        ensures { TellsSubset result self other }
    {
        self.bits & !other.bits == 0
    }

    /// Whether none of its numbers is in the other set.
    #[tactic(auto, using(crate::proofs::Marks::common_mark, crate::proofs::Marks::no_common_mark))]
    pub fn is_disjoint(self, other: BitSet) -> bool
        ensures { TellsDisjoint result self other }
    {
        self.bits & other.bits == 0
    }

    /// Its least number. Taking it away until there is none goes over the set in increasing order.
    #[tactic(auto, using(crate::proofs::Marks::least_mark, crate::proofs::Marks::no_mark))]
    pub fn least(self) -> Option<usize>
        ensures { IsLeast self result }
    {
        if self.bits == 0 {
            return None;
        }
        Some(self.bits.trailing_zeros() as usize)
    }
}
