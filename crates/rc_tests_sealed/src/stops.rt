// A loop of three stops.

use rc_base::{BitSet, NoMemory};
use rc_stops::{Stop, used};
use std::alloc::Global;
use std::test::Fail;

/// The first gets 1, the second sets 0, and the third gets 0 and leads back to the first.
#[tactic(auto, using(crate::proofs::Three::three_fit))]
fn rows_of_a_loop(alloc: Global) -> Result<Vec<BitSet>, NoMemory> {
    used(
        alloc,
        &[
            Stop {
                gets: Some(1),
                sets: None,
                falls: true,
                leads: None,
            },
            Stop {
                gets: None,
                sets: Some(0),
                falls: true,
                leads: None,
            },
            Stop {
                gets: Some(0),
                sets: None,
                falls: false,
                leads: Some(0),
            },
        ],
    )
}

/// The row of that number has these of the things 0 and 1, and not 2.
fn shows(rows: &[BitSet], at: usize, zero: bool, one: bool) -> bool {
    match rows.get(at) {
        None => false,
        Some(row) => row.contains(0) == zero && row.contains(1) == one && !row.contains(2),
    }
}

#[test]
fn a_step_back_is_followed(rt: HostRuntime) -> Result<(), Fail> {
    let rows = rows_of_a_loop(rt.alloc())?;
    assert!(rt; rows.len() == 3);
    assert!(rt; shows(&rows, 0, false, true));
    assert!(rt; shows(&rows, 1, false, true));
    assert!(rt; shows(&rows, 2, true, true));
    Ok(())
}
