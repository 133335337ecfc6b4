// What a row leads to along links.
ghost use Rattle.std.specs.Prelude.{◌≡◌, ◌<◌, ◌≤◌, ◌↔◌, ◌⊎◌, ℕ, length, IsTrue};
ghost use Rattle.rc_base.specs.BitSets.{marks};
ghost use Rattle.rc_facts.specs.Rows.{links, either_step, Reached};

use rc_base::BitSet;

/// What the start and one step from it lead to, and some of what more steps lead to.
fn swept(start: BitSet, within: &[BitSet], above: &[BitSet]) -> BitSet
    requires few { length within.now ≤ 128 }
    requires same { length above.now ≡ length within.now }
    ensures kept { (x : ℕ) → IsTrue (marks start x) → IsTrue (marks result x) }
    ensures one { (x y : ℕ) → IsTrue (marks start x)
        → IsTrue (either_step (links within.now) (links above.now) x y) → IsTrue (marks result y) }
    ensures sound { (x : ℕ) → IsTrue (marks result x)
        → Reached (marks start) (either_step (links within.now) (links above.now)) x }
{
    let mut reached = start;
    for x in 0..within.len() {
        if reached.contains(x) {
            reached = reached.union(within[x].union(above[x]));
        }
    }
    reached
}

/// What the start leads to by links of either.
pub(crate) fn spread(start: BitSet, within: &[BitSet], above: &[BitSet]) -> BitSet
    requires few { length within.now ≤ 128 }
    requires same { length above.now ≡ length within.now }
    ensures { (x : ℕ) → IsTrue (marks result x)
        ↔ Reached (marks start) (either_step (links within.now) (links above.now)) x }
{
    let mut reached = start;
    'rounds: loop {
        let wider = swept(reached, within, above);
        if wider.is_subset(reached) {
            return reached;
        }
        reached = wider;
    }
}

/// The start, and what is linked to one of it.
pub(crate) fn led_back(start: BitSet, rows: &[BitSet]) -> BitSet
    requires { length rows.now ≤ 128 }
    ensures { (x : ℕ) → IsTrue (marks result x)
        ↔ (IsTrue (marks start x) ⊎ ((y : ℕ) × IsTrue (links rows.now x y) × IsTrue (marks start y))) }
{
    let mut all = start;
    for (x, row) in rows.iter().enumerate() {
        if !row.is_disjoint(start) {
            all = all.with(x);
        }
    }
    all
}
