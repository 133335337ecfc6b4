//! What holds of the judgements of trees, whatever the tree: laws without code.
#![tactic(auto)]

mod laws;

pub use laws::{
    builtins_are_known_by_name, first_answer_is_least, first_misplaced_is_least,
    first_violation_is_least, fits_together, has_one_program, has_program_or_violation,
    keeps_limits, shows_misplaced,
};
