// Facts that are added to a set which is closed already.
ghost use Rattle.std.specs.Prelude.{◌≡◌, ◌≢◌, ◌<◌, ◌≤◌, ◌↔◌, ℕ, false, length, IsTrue, ◌∷◌, []};
ghost use Rattle.rc_facts.specs.declared.fact.Fact.{Fact};
ghost use Rattle.rc_facts.specs.declared.fact.Fact.TheVariants.{In, NonNull, Trad, Up};
ghost use Rattle.rc_base.specs.BitSets.{marks};
ghost use Rattle.rc_facts.specs.Rows.{links};
ghost use Rattle.rc_facts.specs.Derivable.{Derivable};
ghost use Rattle.rc_facts.specs.Facts.{names};
ghost use Rattle.rc_facts.specs.Null.{null_news};
ghost use Rattle.rc_facts.specs.Inside.{fields, test_of, IsSound};
ghost use Rattle.rc_facts.specs.Shut.{together, IsBehind, IsClean, IsShut};
ghost use Rattle.rc_facts.specs.Steps.{Settles};

use crate::rows::{extend, widen};
use crate::spread::led_back;
use rc_base::BitSet;

/// Adds what traditional variables say: what is above one is traditional, and each is above all that
/// aren't null, and in one region with the traditional ones among them.
fn settle(within: &mut [BitSet], above: &mut [BitSet], traditional: &mut BitSet, present: BitSet)
    requires few { length within.old ≤ 128 }
    requires same { length above.old ≡ length within.old }
    ensures { Settles (length within.old) (marks present) (links within.old) (links above.old) (marks traditional.old)
        (links within.new) (links above.new) (marks traditional.new) }
{
    *traditional = led_back(*traditional, above);
    extend(above, *traditional, present);
    extend(within, *traditional, traditional.intersection(present));
}

/// Adds that a variable isn't null, to facts that are closed already.
///
/// What it is above isn't null either. So the variables in the region of one of those are all in one
/// region, and what is above one of them is above what all of them are.
pub(crate) fn present_rows(
    within: &mut [BitSet],
    above: &mut [BitSet],
    traditional: &mut BitSet,
    present: &mut BitSet,
    x: usize,
)
    requires sound { IsSound (fields within.old above.old traditional.old present.old) }
    requires x { x < length within.old }
    ensures sound { IsSound (fields within.new above.new traditional.new present.new) }
    ensures facts { (s : ℕ) → s ≢ x
        → IsShut (length within.old) s (test_of (fields within.old above.old traditional.old present.old))
        → IsClean s (test_of (fields within.old above.old traditional.old present.old))
        → (fact : Fact) → IsTrue (test_of (fields within.new above.new traditional.new present.new) fact)
        ↔ (Derivable (length within.old) (together (test_of (fields within.old above.old traditional.old present.old)) (NonNull x ∷ [])) fact
        × (names s fact ≡ false)) }
{
    let wider = present.union(above[x]);
    let mut left = above[x].difference(*present);
    let count = within.len();
    for u in 0..count {
        if left.contains(u) {
            let class = within[u];
            let over = above[u];
            left = left.difference(class);
            widen(within, class, class);
            widen(above, class, over);
        }
    }
    *present = wider;
    settle(within, above, traditional, wider);
}

/// Adds that a variable is traditional, to facts that are closed already.
pub(crate) fn traditional_rows(
    within: &mut [BitSet],
    above: &mut [BitSet],
    traditional: &mut BitSet,
    present: BitSet,
    x: usize,
)
    requires sound { IsSound (fields within.old above.old traditional.old present) }
    requires x { x < length within.old }
    ensures sound { IsSound (fields within.new above.new traditional.new present) }
    ensures facts { (s : ℕ) → s ≢ x
        → IsShut (length within.old) s (test_of (fields within.old above.old traditional.old present))
        → IsClean s (test_of (fields within.old above.old traditional.old present))
        → (fact : Fact) → IsTrue (test_of (fields within.new above.new traditional.new present) fact)
        ↔ IsBehind (length within.old) s (test_of (fields within.old above.old traditional.old present)) (Trad x ∷ []) fact }
{
    *traditional = traditional.with(x);
    settle(within, above, traditional, present);
}

/// Adds that a variable is above another, to facts that are closed already. If the first isn't null,
/// the other isn't.
pub(crate) fn above_rows(
    within: &mut [BitSet],
    above: &mut [BitSet],
    traditional: &mut BitSet,
    present: BitSet,
    x: usize,
    y: usize,
)
    requires sound { IsSound (fields within.old above.old traditional.old present) }
    requires x { x < length within.old }
    requires y { y < length within.old }
    requires there { IsTrue (marks present x) → IsTrue (marks present y) }
    ensures sound { IsSound (fields within.new above.new traditional.new present) }
    ensures facts { (s : ℕ) → s ≢ x
        → s ≢ y
        → IsShut (length within.old) s (test_of (fields within.old above.old traditional.old present))
        → IsClean s (test_of (fields within.old above.old traditional.old present))
        → (fact : Fact) → IsTrue (test_of (fields within.new above.new traditional.new present) fact)
        ↔ IsBehind (length within.old) s (test_of (fields within.old above.old traditional.old present)) (Up x y ∷ []) fact }
{
    let row = above[y];
    widen(above, BitSet::empty().with(x), row);
    settle(within, above, traditional, present);
}

/// Adds that a variable which may be null is in another's region, to facts that are closed already.
pub(crate) fn null_within_rows(
    within: &mut [BitSet],
    above: &mut [BitSet],
    traditional: &mut BitSet,
    present: BitSet,
    x: usize,
    y: usize,
)
    requires sound { IsSound (fields within.old above.old traditional.old present) }
    requires x { x < length within.old }
    requires y { y < length within.old }
    requires null { marks present x ≡ false }
    ensures sound { IsSound (fields within.new above.new traditional.new present) }
    ensures facts { (s : ℕ) → s ≢ x → s ≢ y
        → IsShut (length within.old) s (test_of (fields within.old above.old traditional.old present))
        → IsClean s (test_of (fields within.old above.old traditional.old present))
        → (fact : Fact) → IsTrue (test_of (fields within.new above.new traditional.new present) fact)
        ↔ IsBehind (length within.old) s (test_of (fields within.old above.old traditional.old present)) (In x y ∷ []) fact }
{
    let class = within[y];
    let over = above[y];
    let entry = BitSet::empty().with(x);
    widen(within, entry, class);
    widen(above, entry, over);
    settle(within, above, traditional, present);
}

/// Adds that a variable is in another's region, where neither is null, to facts that are closed already:
/// their regions are one.
pub(crate) fn one_region_rows(
    within: &mut [BitSet],
    above: &mut [BitSet],
    traditional: &mut BitSet,
    present: BitSet,
    x: usize,
    y: usize,
)
    requires sound { IsSound (fields within.old above.old traditional.old present) }
    requires x { x < length within.old }
    requires y { y < length within.old }
    requires x_there { IsTrue (marks present x) }
    requires y_there { IsTrue (marks present y) }
    ensures sound { IsSound (fields within.new above.new traditional.new present) }
    ensures facts { (s : ℕ) → s ≢ x → s ≢ y
        → IsShut (length within.old) s (test_of (fields within.old above.old traditional.old present))
        → IsClean s (test_of (fields within.old above.old traditional.old present))
        → (fact : Fact) → IsTrue (test_of (fields within.new above.new traditional.new present) fact)
        ↔ IsBehind (length within.old) s (test_of (fields within.old above.old traditional.old present)) (In x y ∷ []) fact }
{
    let class = within[x].union(within[y]);
    let over = above[x].union(above[y]);
    widen(within, class, class);
    widen(above, class, over);
    settle(within, above, traditional, present);
}

/// Adds that a variable which may be null is null, to facts that are closed already: it is traditional,
/// and in the region of all others. `all` are the variables but the scratch one.
pub(crate) fn null_rows(
    within: &mut [BitSet],
    above: &mut [BitSet],
    traditional: &mut BitSet,
    present: BitSet,
    x: usize,
    scratch: usize,
)
    requires sound { IsSound (fields within.old above.old traditional.old present) }
    requires x { x < length within.old }
    requires scratch { scratch < length within.old }
    requires null { marks present x ≡ false }
    ensures sound { IsSound (fields within.new above.new traditional.new present) }
    ensures facts { scratch ≢ x
        → IsShut (length within.old) scratch (test_of (fields within.old above.old traditional.old present))
        → IsClean scratch (test_of (fields within.old above.old traditional.old present))
        → (fact : Fact) → IsTrue (test_of (fields within.new above.new traditional.new present) fact)
        ↔ IsBehind (length within.old) scratch (test_of (fields within.old above.old traditional.old present)) (null_news (length within.old) x) fact }
{
    let all = BitSet::below(within.len()).without(scratch);
    let entry = BitSet::empty().with(x);
    widen(within, entry, all);
    widen(above, entry, all);
    *traditional = traditional.with(x);
    settle(within, above, traditional, present);
}
