// What stands at a point.

use rc_core::ty::Note;

/// A parameter that is a region or a pointer: its local's variable, and the hidden copy of it.
#[derive(Clone, Copy)]
pub struct Entry {
    pub local: u32,
    pub copy: u32,
}

/// What happens to the region variables, by their numbers. The one that is assigned stands first.
#[derive(Drop)]
pub enum Effect {
    Nothing,
    Nulled(u32),
    /// The first gets what the second has.
    Moved(u32, u32),
    /// It points to a global or a string.
    Fixed(u32),
    /// The first comes to be in the region of the second, which isn't null.
    Beside(u32, u32),
    /// It names a new region.
    Made(u32),
    /// The first names a new region below that of the second.
    Under(u32, u32),
    /// The first is loaded from a cell with this annotation, to which the second points.
    Loaded(u32, u32, Note),
    /// It is the pointer to a cell from which a number is loaded, or to which one is stored, or a
    /// region that is deleted.
    LookedAt(u32),
    /// The first is stored into a cell with this annotation, to which the second points.
    Stored(u32, u32, Note),
    /// A branch finds that it isn't null.
    Present(u32),
    /// A branch finds that it is null.
    Absent(u32),
    /// A call, with the variable that gets its result, if one does.
    Called {
        result: Option<u32>,
        function: u32,
        arguments: Vec<u32>,
    },
    /// The entry of a function.
    Entered {
        entries: Vec<Entry>,
    },
}

/// What a point does, and the points to which it leads.
#[derive(Drop)]
pub enum Node {
    Go {
        effect: Effect,
        to: u32,
    },
    /// One of two ways is gone.
    Fork {
        left: Effect,
        to_left: u32,
        right: Effect,
        to_right: u32,
    },
    /// The function ends, and may give a variable.
    Return {
        given: Option<u32>,
    },
}
