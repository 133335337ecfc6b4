//! That liveness in region code is what paths tell. `specs/Laws` says what that means.
#![tactic(auto)]

ghost use Rattle.rc_liveness.specs.Laws.{ListsAreMaps, ListsArePaths};
ghost use Rattle.rc_liveness.specs.ListRows.{ListRows};

/// At each deleting point of a function whose temporaries stand in order, the list of live locals has
/// exactly the locals that are regions or pointers and that some way on from there, along the edges of the
/// flow and whatever conditions say, reads before anything sets them.
pub fn lists_are_paths()
    ensures { ListsArePaths }
{}

/// The lists of any region code are a map: there is at most one at a point, they stand in the order of the
/// points, and each increases.
pub fn lists_are_maps()
    ensures { ListsAreMaps }
{}

/// In six small codes the lists are those that they should be; the definitions are run for it.
pub fn list_rows_compute()
    ensures { ListRows }
{}
