//! A text to its program, or to its refusal: which texts are programs, and why another is refused. Here
//! are the definitions, the laws that a text has one answer and no more, the call that gives it, and what
//! is known of the program of a text that is accepted.
#![tactic(auto)]

mod compiling;
mod decided;
pub mod fault;
mod laws;
pub mod refusal;
mod well_typed;

pub use compiling::{program, too_much, tree, typed_program, within_bounds};
pub use decided::{a_program_deletes_in_place, a_text_is_a_program_or_refused};
pub use fault::CompileFault;
pub use laws::a_text_has_one_answer;
pub use refusal::Refusal;
pub use well_typed::accepted_texts_are_well_typed;
