// Rows of bits for the locals of a function that are regions or pointers.
ghost use Rattle.std.specs.Prelude.{◌≡◌, ◌<◌, ◌≤◌, ◌||◌, ℕ, Bool, List, length, nat_eq, slice_get, Some, IfOk, MatchOption, map};
ghost use Rattle.rc_base.specs.BitSets.{marks};
ghost use Rattle.rc_core.specs.Shapes.{ty_of};
ghost use Rattle.rc_core.specs.Live.{Ways as LiveWays, at_end, round, then_live, unless_set};
ghost use Rattle.rc_rlang.specs.LiveMaps.{IsIncreasing};
ghost use Rattle.rc_rlang.specs.RegionCode.{kind_of};
ghost use Rattle.rc_live.specs.Rows.{is_regional, numbered, Shows, ShowWays, chosen};

use rc_base::{BitSet, NoMemory};
use rc_core::ty::Ty;
use smallvec::SmallVec;
use std::alloc::Global;

/// What is live at the ways on from a statement: to the next one, out of the loop around it, and to
/// that loop's next round.
#[derive(Clone, Copy)]
pub(crate) struct Ways {
    pub(crate) next: BitSet,
    pub(crate) broken: BitSet,
    pub(crate) continued: BitSet,
}

impl Ways {
    /// Nothing is live on any way.
    pub(crate) fn none() -> Ways
        ensures { (names : List ℕ) → ShowWays names result at_end }
    {
        Ways {
            next: BitSet::empty(),
            broken: BitSet::empty(),
            continued: BitSet::empty(),
        }
    }

    /// With this live at the next statement.
    pub(crate) fn then(&self, next: BitSet) -> Ways
        ensures { (names : List ℕ) (live : ℕ → Bool) (k : LiveWays) → ShowWays names self.now k → Shows names next live → ShowWays names result (then_live live k) }
    {
        Ways {
            next,
            broken: self.broken,
            continued: self.continued,
        }
    }

    /// Out of the body of a loop behind which this is, where this is live at its next round.
    pub(crate) fn round(&self, again: BitSet) -> Ways
        ensures { (names : List ℕ) (live : ℕ → Bool) (k : LiveWays) → ShowWays names self.now k → Shows names again live → ShowWays names result (round live k) }
    {
        Ways {
            next: again,
            broken: self.next,
            continued: again,
        }
    }
}

/// Whether values of this type are regions or pointers. No local is a struct.
fn is_reference(ty: &Ty) -> bool
    ensures { result ≡ is_regional (kind_of (ty_of ty.now)) }
{
    match ty {
        Ty::Int => false,
        Ty::Unsigned => false,
        Ty::Char => false,
        Ty::Region => true,
        Ty::Struct(_) => false,
        Ty::Pointer(..) => true,
    }
}

/// The locals that are regions or pointers, in increasing order.
///
/// # Errors
///
/// Out of memory, which is also said where one has a number that no `u32` is.
pub(crate) fn references(alloc: Global, types: &[Ty]) -> Result<Vec<u32>, NoMemory>
    ensures { IfOk result (λ names. names.items ≡ numbered (map ty_of types.now)) }
{
    let mut names = Vec::new(alloc);
    for (number, ty) in types.iter().enumerate() {
        if is_reference(ty) {
            let Ok(local) = u32::try_from(number) else {
                return Err(NoMemory);
            };
            names.push(local)?;
        }
    }
    Ok(names)
}

/// The bit of a local, where it has one.
fn bit_of(names: &[u32], local: u32) -> Option<usize>
    requires { length names.now ≤ 128 }
    ensures { MatchOption result ((j : ℕ) → slice_get names.now j ≡ Some local → ⊥) (λ j. (j < 128) × (slice_get names.now j ≡ Some local)) }
{
    for (bit, name) in names.iter().enumerate() {
        if *name == local {
            return Some(bit);
        }
    }
    None
}

/// The row with a local, where it has a bit.
pub(crate) fn with(names: &[u32], row: BitSet, local: u32) -> BitSet
    requires short { length names.now ≤ 128 }
    requires once { IsIncreasing names.now }
    ensures { (live : ℕ → Bool) → Shows names.now row live → Shows names.now result (λ x. nat_eq local x || live x) }
{
    match bit_of(names, local) {
        None => row,
        Some(bit) => row.with(bit),
    }
}

/// The row without a local.
pub(crate) fn without(names: &[u32], row: BitSet, local: u32) -> BitSet
    requires short { length names.now ≤ 128 }
    requires once { IsIncreasing names.now }
    ensures { (live : ℕ → Bool) → Shows names.now row live → Shows names.now result (λ x. unless_set local x (live x)) }
{
    match bit_of(names, local) {
        None => row,
        Some(bit) => row.without(bit),
    }
}

/// The locals of a row, in increasing order.
///
/// # Errors
///
/// Out of memory, which up to eight locals don't take.
pub(crate) fn locals_of(
    alloc: Global,
    names: &[u32],
    row: BitSet,
) -> Result<SmallVec<u32, 8>, NoMemory>
    requires { length names.now ≤ 128 }
    ensures { IfOk result (λ locals. locals.items ≡ chosen names.now (marks row) 0) }
{
    let mut locals = SmallVec::new(alloc);
    for (bit, name) in names.iter().enumerate() {
        if row.contains(bit) {
            locals.push(*name)?;
        }
    }
    Ok(locals)
}
