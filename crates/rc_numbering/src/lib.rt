//! Images for region code: the stack code that it becomes, with a number for each type and each path.
//! `specs/Numbered` says what the image is. Laws: it keeps the rules of images, those of its fields and
//! those of its code, and it means what the program means that it is made of.
#![tactic(auto)]

mod image_rules;
mod joined_laws;
mod numbering;

pub use image_rules::{images_keep_the_rules_of_code, images_keep_the_rules_of_fields};
pub use joined_laws::{
    image_examples_compute, images_mean_what_programs_mean, images_mean_what_region_code_means,
};
pub use numbering::{
    calls_of_the_source_give_back_what_waits, every_rlang_is_numberable,
    images_mean_the_same_in_the_source, images_mean_what_stack_code_means,
    region_code_is_numberable,
};
