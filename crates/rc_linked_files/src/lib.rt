//! What holds of several files that are linked to one program: laws without code.
#![tactic(auto)]

mod laws;

pub use laws::{
    a_joined_program_is_not_large, files_have_a_program_together, joined_files_keep_limits,
    stubs_keep_limits,
};
