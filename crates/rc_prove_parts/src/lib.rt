//! The ways through functions in parts, and which of them wait to be gone over. A part goes from the entry
//! or a target of a function to its next target. It reads the set of facts with which it begins, and the
//! exits of the functions that it calls; when one of these lost a fact, the part is put on the agenda
//! again, and what a pass lost says which sets did.
#![tactic(auto)]

mod agenda;
mod lead;
mod losses;
mod map;
mod part;
mod route;
mod spot;

pub use agenda::{Agenda, all_parts, next_of, put_losses};
pub use lead::Lead;
pub use losses::{Loss, Losses, no_losses, note, with_first};
pub use map::{Map, Readers, map_of};
pub use part::{Part, Start, end_of, entry_end};
pub use route::Route;
pub use spot::{Place, Spot};
