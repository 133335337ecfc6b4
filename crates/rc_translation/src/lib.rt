//! Laws: the translation from programs to region code keeps what a program means, and the region code of a
//! program is region code whose parts fit together.
#![tactic(auto)]

mod rules;
mod translation;

pub use rules::{region_code_fits_together, region_code_needs_the_same};
pub use translation::{
    region_code_counts_the_same, region_code_means_the_same, region_examples_compute,
    temporaries_stand_in_order,
};
