// What a look at one stop adds to its row.
ghost use Rattle.std.specs.Prelude.{◌≡◌, ◌<◌, ◌||◌, ◌&&◌, ℕ, suc, not, length, IfSome, MatchBool};
ghost use Rattle.rc_base.specs.BitSets.{marks};
ghost use Rattle.rc_stops.specs.Paths.{is_it, stop_at};
ghost use Rattle.rc_stops.specs.Rows.{before_marks, leads_marks, missing, row_at, StopFits};

use crate::stop::Stop;
use rc_base::BitSet;

/// Without a thing, if there is one.
fn without(row: BitSet, thing: Option<u32>) -> BitSet
    requires { IfSome thing (λ x. x < 128) }
    ensures { (x : ℕ) → marks result x ≡ (marks row x && not (is_it thing x)) }
{
    match thing {
        None => row,
        Some(x) => row.without(x as usize),
    }
}

/// With a thing, if there is one.
fn with(row: BitSet, thing: Option<u32>) -> BitSet
    requires { IfSome thing (λ x. x < 128) }
    ensures { (x : ℕ) → marks result x ≡ (marks row x || is_it thing x) }
{
    match thing {
        None => row,
        Some(x) => row.with(x as usize),
    }
}

/// What is used where it leads, but for the next stop.
fn led(rows: &[BitSet], leads: Option<usize>) -> BitSet
    requires { IfSome leads (λ to. to < length rows.now) }
    ensures { (x : ℕ) → marks result x ≡ leads_marks rows.now leads x }
{
    match leads {
        None => BitSet::empty(),
        Some(to) => rows[to],
    }
}

/// What is used behind a stop.
fn behind(rows: &[BitSet], at: usize, stop: &Stop) -> BitSet
    requires { StopFits (length rows.now) at stop.now }
    ensures { (x : ℕ) → marks result x ≡ (leads_marks rows.now stop.now.leads x || (stop.now.falls && marks (row_at rows.now (suc at)) x)) }
{
    let row = led(rows, stop.leads);
    if stop.falls {
        row.union(rows[at + 1])
    } else {
        row
    }
}

/// What is used from a stop on.
fn before(rows: &[BitSet], at: usize, stop: &Stop) -> BitSet
    requires { StopFits (length rows.now) at stop.now }
    ensures { (x : ℕ) → marks result x ≡ before_marks rows.now at stop.now x }
{
    with(without(behind(rows, at, stop), stop.sets), stop.gets)
}

/// Adds what is used from a stop on, and says whether something was lacking.
pub(crate) fn look(rows: &mut [BitSet], at: usize, stop: &Stop) -> bool
    requires at { at < length rows.old }
    requires fits { StopFits (length rows.old) at stop.now }
    ensures long { length rows.new ≡ length rows.old }
    ensures others { (k : ℕ) → (k ≡ at → ⊥) → row_at rows.new k ≡ row_at rows.old k }
    ensures there { (x : ℕ) → marks (row_at rows.new at) x ≡ (marks (row_at rows.old at) x || before_marks rows.old at stop.now x) }
    ensures told { MatchBool result (missing rows.new < missing rows.old) (rows.new ≡ rows.old) }
{
    let row = before(rows, at, stop);
    if row.is_subset(rows[at]) {
        return false;
    }
    rows[at] = rows[at].union(row);
    true
}

/// The stop of that number.
pub(crate) fn stop_of(stops: &[Stop], at: usize) -> Stop
    requires { at < length stops.now }
    ensures { result ≡ stop_at stops.now at }
{
    stops[at]
}
