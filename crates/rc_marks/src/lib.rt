//! Laws of marks, which say which of an image's stores make no check: how many stores of each annotation
//! an image has, counted by the sites of its code, and that an image with marks at its annotated stores
//! keeps the rules of images, as it does without them.
#![tactic(auto)]

mod counted_laws;
mod marked_rules;
mod marks;

pub use counted_laws::an_image_has_as_many_stores_as_the_code_has_sites;
pub use marked_rules::marked_images_keep_the_rules;
pub use marks::{marks_are_those_of_the_mask, stores_are_those_of_the_code};
