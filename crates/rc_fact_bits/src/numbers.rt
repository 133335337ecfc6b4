// Which fact a bit stands for.
ghost use Rattle.std.specs.Prelude.{◌≡◌, ◌<◌, ◌≤◌, ◌+◌, suc};
ghost use Rattle.rc_fact_bits.specs.Standing.{number_at, FactAt};

use rc_facts::Fact;

/// Where a bit stands, in rows of as many bits as there are variables: a row for each variable that
/// comes first in a pair, for pairs in one region and then for those above, and two for single ones.
#[derive(Clone, Copy)]
pub(crate) struct Place {
    pub(crate) row: u32,
    pub(crate) column: u32,
}

/// Where the first bit stands.
pub(crate) fn first_place() -> Place
    ensures row { result.row ≡ 0 }
    ensures column { result.column ≡ 0 }
{
    Place { row: 0, column: 0 }
}

/// Where the next bit stands.
pub(crate) fn place_behind(n: u32, place: Place) -> Place
    requires few { n ≤ 128 }
    requires inside { place.column < n }
    requires small { place.row < 100000 }
    ensures inside { result.column < n }
    ensures rows { result.row ≤ place.row + 1 }
    ensures next { number_at n result ≡ suc (number_at n place) }
{
    let Place { row, column } = place;
    if column + 1 < n {
        return Place {
            row,
            column: column + 1,
        };
    }
    Place {
        row: row + 1,
        column: 0,
    }
}

/// The fact over `n` variables whose bit stands there, if there is one.
pub(crate) fn fact_at(n: u32, place: Place) -> Option<Fact>
    requires few { n ≤ 128 }
    requires inside { place.column < n }
    ensures { FactAt n (number_at n place) result }
{
    let Place { row, column } = place;
    if row < n {
        return Some(Fact::In(row, column));
    }
    if row < 2 * n {
        return Some(Fact::Up(row - n, column));
    }
    if row == 2 * n {
        return Some(Fact::Trad(column));
    }
    if row == 2 * n + 1 {
        return Some(Fact::NonNull(column));
    }
    None
}
