// Lists of rows, which link x to each variable that row x has. Links lead to variables that have a row.
ghost use Rattle.std.specs.Prelude.{◌≡◌, ◌≢◌, ◌<◌, ◌≤◌, ◌==◌, ◌||◌, ◌&&◌, ◌↔◌, ℕ, not, nat_lt, false, true, length, IsTrue, MatchBool};
ghost use Rattle.rc_base.specs.BitSets.{marks};
ghost use Rattle.rc_facts.specs.Rows.{links, Chain, IsWithin, TellsExcess, TellsLost};
ghost use Rattle.rc_facts.specs.Facts.{replaced};
ghost use Rattle.rc_facts.specs.Shut.{one_by, pair_by, spot, IsBelow};
ghost use Rattle.rc_facts.specs.Steps.{IsWidened};

use rc_base::BitSet;

/// Links one variable to another.
#[tactic(auto, using(crate::proofs::RowLaws::link_one))]
pub(crate) fn link(rows: &mut [BitSet], from: usize, to: usize)
    requires few { length rows.old ≤ 128 }
    requires from { from < length rows.old }
    requires to { to < length rows.old }
    ensures { (x y : ℕ) → links rows.new x y ≡ (links rows.old x y || (from == x && to == y)) }
{
    rows[from] = rows[from].with(to);
}

/// What a variable is linked to.
pub(crate) fn row_of(rows: &[BitSet], x: usize) -> BitSet
    requires { x < length rows.now }
    ensures { (y : ℕ) → marks result y ≡ links rows.now x y }
{
    rows[x]
}

/// Whether one is linked to another.
pub(crate) fn linked(rows: &[BitSet], from: usize, to: usize) -> bool
    requires few { length rows.now ≤ 128 }
    requires from { from < length rows.now }
    requires to { to < length rows.now }
    ensures { result ≡ links rows.now from to }
{
    rows[from].contains(to)
}

/// Links each variable of `which` that has a row to those of `more`.
#[tactic(auto, using(crate::proofs::RowLaws::extends_nothing))]
pub(crate) fn extend(rows: &mut [BitSet], which: BitSet, more: BitSet)
    requires { length rows.old ≤ 128 }
    ensures { (x y : ℕ) → links rows.new x y
        ≡ (links rows.old x y || (nat_lt x (length rows.old) && (marks which x && marks more y))) }
{
    if which.is_empty() {
        return;
    }
    for (x, row) in rows.iter_mut().enumerate() {
        if which.contains(x) {
            *row = row.union(more);
        }
    }
}

/// Adds the links of other rows.
#[tactic(auto, using(crate::proofs::RowLoops::links_beyond, rc_base::proofs::Marks::marks_none))]
pub(crate) fn join(rows: &mut [BitSet], others: &[BitSet])
    requires { length others.now ≡ length rows.old }
    ensures { (x y : ℕ) → links rows.new x y ≡ (links rows.old x y || links others.now x y) }
{
    for (x, row) in rows.iter_mut().enumerate() {
        *row = row.union(others[x]);
    }
}

/// Links what is linked to `middle` to all that `middle` is linked to.
#[tactic(auto, using(crate::proofs::RowLoops::links_beyond, rc_base::proofs::Marks::marks_none))]
fn pass(rows: &mut [BitSet], middle: usize)
    requires few { length rows.old ≤ 128 }
    requires middle { middle < length rows.old }
    ensures { (x y : ℕ) → links rows.new x y
        ≡ (links rows.old x y || (links rows.old x middle && links rows.old middle y)) }
{
    let behind = rows[middle];
    if behind.without(middle).is_empty() {
        return;
    }
    for row in rows.iter_mut() {
        if row.contains(middle) {
            *row = row.union(behind);
        }
    }
}

/// Links each variable to all that a chain of links leads to.
pub(crate) fn chain(rows: &mut [BitSet])
    requires few { length rows.old ≤ 128 }
    requires within { IsWithin rows.old }
    ensures { (x y : ℕ) → IsTrue (links rows.new x y) ↔ Chain (links rows.old) x y }
{
    for middle in 0..rows.len() {
        pass(rows, middle);
    }
}

/// Links each variable to itself, and back to each of `which` that is linked to it.
pub(crate) fn mirror(rows: &mut [BitSet], which: BitSet)
    requires { length rows.old ≤ 128 }
    ensures { (x y : ℕ) → links rows.new x y
        ≡ (links rows.old x y
        || (nat_lt x (length rows.old) && (x == y || (links rows.old y x && marks which y)))) }
{
    for x in 0..rows.len() {
        if which.contains(x) {
            let linked = rows[x].without(x);
            extend(rows, linked, BitSet::empty().with(x));
        }
        rows[x] = rows[x].with(x);
    }
}

/// Drops the links from and to a variable.
pub(crate) fn cut(rows: &mut [BitSet], gone: usize)
    requires few { length rows.old ≤ 128 }
    requires gone { gone < length rows.old }
    ensures { (x y : ℕ) → links rows.new x y
        ≡ (links rows.old x y && not (x == gone || y == gone)) }
{
    for row in rows.iter_mut() {
        *row = row.without(gone);
    }
    rows[gone] = BitSet::empty();
}

/// The row with `to` in place of `from`.
pub(crate) fn moved(row: BitSet, from: usize, to: usize) -> BitSet
    requires from { from < 128 }
    requires to { to < 128 }
    requires apart { from ≢ to }
    ensures { (y : ℕ) → marks result y ≡ (marks row (replaced to from y) && not (y == from)) }
{
    let rest = row.without(to).without(from);
    if row.contains(from) {
        rest.with(to)
    } else {
        rest
    }
}

/// Makes the links from and to `from` links of `to`, which loses its own.
pub(crate) fn shift(rows: &mut [BitSet], from: usize, to: usize)
    requires few { length rows.old ≤ 128 }
    requires from { from < length rows.old }
    requires to { to < length rows.old }
    requires apart { from ≢ to }
    ensures { (x y : ℕ) → links rows.new x y
        ≡ (links rows.old (replaced to from x) (replaced to from y) && not (x == from || y == from)) }
{
    for row in rows.iter_mut() {
        *row = moved(*row, from, to);
    }
    rows[to] = rows[from];
    rows[from] = BitSet::empty();
}

/// The row that has `to` exactly where it has `from`.
pub(crate) fn aliased(row: BitSet, from: usize, to: usize) -> BitSet
    requires from { from < 128 }
    requires to { to < 128 }
    ensures { (y : ℕ) → marks result y ≡ marks row (replaced to from y) }
{
    if row.contains(from) {
        row.with(to)
    } else {
        row.without(to)
    }
}

/// Gives `to` the links from and to `from`, in place of its own.
pub(crate) fn double(rows: &mut [BitSet], from: usize, to: usize)
    requires few { length rows.old ≤ 128 }
    requires from { from < length rows.old }
    requires to { to < length rows.old }
    ensures { (x y : ℕ) → links rows.new x y
        ≡ links rows.old (replaced to from x) (replaced to from y) }
{
    for row in rows.iter_mut() {
        *row = aliased(*row, from, to);
    }
    rows[to] = rows[from];
}

/// The row that has a variable where that is wanted.
pub(crate) fn marked(row: BitSet, x: usize, wanted: bool) -> BitSet
    requires { x < 128 }
    ensures { (y : ℕ) → marks result y ≡ one_by (marks row) wanted (spot x y) }
{
    if wanted { row.with(x) } else { row.without(x) }
}

/// Links those of `column` to `x`, and no others, and `x` to itself and to those of `row` alone.
pub(crate) fn write(rows: &mut [BitSet], x: usize, row: BitSet, column: BitSet)
    requires few { length rows.old ≤ 128 }
    requires x { x < length rows.old }
    requires column { IsBelow (length rows.old) column }
    ensures { (a b : ℕ) → links rows.new a b
        ≡ pair_by (links rows.old) (marks row) (marks column) (spot x a) (spot x b) }
{
    for (at, cells) in rows.iter_mut().enumerate() {
        *cells = marked(*cells, x, column.contains(at));
    }
    rows[x] = row.with(x);
}

/// Links those that are linked to one of `entry` to all of `more`.
pub(crate) fn widen(rows: &mut [BitSet], entry: BitSet, more: BitSet)
    requires { length rows.old ≤ 128 }
    ensures { IsWidened (links rows.old) (links rows.new) (marks entry) (marks more) }
{
    for row in rows.iter_mut() {
        if !row.is_disjoint(entry) {
            *row = row.union(more);
        }
    }
}

/// Keeps what is in both, and says whether something was dropped.
pub(crate) fn keep(row: &mut BitSet, other: BitSet) -> bool
    ensures both { (x : ℕ) → marks row.new x ≡ (marks row.old x && marks other x) }
    ensures dropped { TellsExcess result row.old other }
{
    let dropped = !row.is_subset(other);
    *row = row.intersection(other);
    dropped
}

/// Keeps the links of both, and says whether one was dropped.
#[tactic(auto, using(crate::proofs::RowLoops::links_beyond, rc_base::proofs::Marks::marks_none))]
pub(crate) fn keep_links(rows: &mut [BitSet], others: &[BitSet]) -> bool
    requires { length others.now ≡ length rows.old }
    ensures both { (x y : ℕ) → links rows.new x y ≡ (links rows.old x y && links others.now x y) }
    ensures dropped { TellsLost result rows.old others.now }
{
    let mut dropped = false;
    for (x, row) in rows.iter_mut().enumerate() {
        dropped |= keep(row, others[x]);
    }
    dropped
}
