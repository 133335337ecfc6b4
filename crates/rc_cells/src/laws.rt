// The references to a region after each call.
ghost use Rattle.rc_cells.specs.Follow.{CellsFollow, ReferencesFollow};
ghost use Rattle.rc_cells.specs.Together.{SetsFollow};

/// A new region and a new object change no references. A write takes one reference from the region
/// that the old value names and gives one to that of the new value, where the cell counts and lies in
/// another region. A deletion takes those that the region's cells have. There are never more than all
/// cells and pins.
pub fn references_follow()
    ensures { ReferencesFollow }
{}

/// A new object has as many cells as its elements have together, a write changes none, and a deletion
/// takes those of its region.
pub fn cells_follow()
    ensures { CellsFollow }
{}

/// Where several regions go at once, each region loses the references that their cells hold. What a
/// region of the set is left with are the references from beside the set.
pub fn sets_follow()
    ensures { SetsFollow }
{}
