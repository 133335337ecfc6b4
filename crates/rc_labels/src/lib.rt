//! Laws: images with marks do what region code with marked stores does.
//!
//! Labels stand in place of the lines of region code, and tell each store apart: `specs/Labels` says what a
//! label tells, `specs/Labelled` puts labels into code, and `specs/LabelledWorlds` makes of a world one
//! that reads them. Labelled code and the world of labels keep the rules of region code and of worlds by
//! which stack code and images mean the same. `specs/InOrder` says which store of an image has which mark,
//! and `specs/MarkedLaws` what the laws say.
#![tactic(auto)]

mod label_rules;
mod labels;
mod marked;

pub use label_rules::{
    images_of_labelled_code_do_what_marked_code_does, labelled_code_is_as_well_formed,
    labelled_worlds_count_and_wait,
};
pub use labels::{labelled_code_does_what_marked_code_does, there_is_a_numbering};
pub use marked::{
    images_undo_labels, images_with_marks_do_what_marked_code_does, removable_checks_ask,
    stack_code_keeps_labels_for_lines,
};
