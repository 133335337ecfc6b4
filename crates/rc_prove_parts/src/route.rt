// The way through a function.

use crate::spot::{Place, Spot};

/// The way through a function: where it is, what a pass has to know of each of its instructions, and the
/// set of the first one, if that is a target.
#[derive(Drop)]
pub struct Route {
    pub place: Place,
    pub spots: Vec<Spot>,
    pub first: Option<u32>,
}
