//! From region code to images, and from programs to images. The image of region code is made from the
//! stack code of its functions, and is rc_numbering's `image_of`, to the last field; `specs/Compiled` says
//! what the image of a program does.
#![tactic(auto)]

mod cells;
mod emission;
mod globals;
mod making;
mod parts;
mod programs;

pub use emission::emit;
pub use programs::compile_program;
