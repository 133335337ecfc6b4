//! Scripts of heap commands: the lines of their text and the command that each spells, and what each line
//! answers over the store. `specs/Commands` and `specs/Replies` are the definitions, and `specs/Examples`
//! has scripts with their answers.
#![tactic(auto)]

mod command;
mod laws;
mod line;
mod number;
mod reply;
mod words;
mod write;

pub use command::{Command, NoCommand, command_of};
pub use laws::{examples_compute, same_stores_answer_alike};
pub use line::{Line, next_line};
pub use reply::Reply;
pub use write::write_reply;
