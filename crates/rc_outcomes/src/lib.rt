//! What a request comes to. `specs/` says which outcome each request has over the files and the input
//! that it finds, what of the outside it may use, and when each fault comes; `Performing` puts these
//! together as what a request does. `proofs/Ways` and `Reports` show how any request may end, and
//! `Flushing` how a run does behind which the output is flushed.
#![tactic(auto)]

mod flush;
mod laws;
mod reporting;

pub use flush::flush_behind;
pub use laws::{
    a_linked_image_runs_as_its_program, a_linked_program_never_touches_deleted,
    a_request_has_one_outcome, a_sealed_image_runs_as_with_every_check,
    a_stored_image_runs_as_its_text, an_accepted_text_never_touches_deleted,
    an_image_is_what_its_bytes_carry, tasks_do_what_their_text_does,
};
pub use reporting::report;
