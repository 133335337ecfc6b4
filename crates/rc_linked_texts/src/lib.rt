//! Texts that are the files of one program: `specs/Texts` says which of them is refused by itself, what
//! keeps them apart and what they are together; the laws, that this is one answer; and the call that
//! makes of one text what is linked.
#![tactic(auto)]

mod checking;
mod laws;

pub use checking::text_unit;
pub use laws::{
    linked_programs_are_well_typed, linked_programs_delete_in_place, texts_come_to_one_thing,
};
