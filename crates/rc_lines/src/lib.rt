//! Stack code in lists, with types and accesses by reference: what the steps of an expression become,
//! what is done with its value, where a branch is decided, and where a function ends; and which
//! operands a function keeps in locals, found by keys. `specs/Bare` says what these instructions stand
//! for: stack code without what no image says of it. `specs/Over` says what is known of the function,
//! `specs/Operands` which operands stand, `specs/Gathered` what is gathered, `specs/Keys` by which bytes
//! types and operands that are kept are found, and `specs/ProgramCode` when lists are the stack code of
//! the functions of a program in region code.
#![tactic(auto)]

mod acts;
mod body;
mod ends;
mod forks;
mod function_code;
mod function_code_laws;
mod gathering;
mod gathering_code;
mod instruction;
mod kept;
mod keys;
mod lines;
mod operands;
mod operations;

pub use acts::act_on;
pub use body::Body;
pub use ends::{end, exit_test, zero};
pub use forks::{Behind, steps};
pub use function_code::FunctionCode;
pub use function_code_laws::each_function_has_its_code;
pub use gathering::{KeptOperand, gather};
pub use gathering_code::gather_code;
pub use instruction::{Instruction, Line, Reach};
pub use kept::keys_number_what_is_kept;
pub use keys::{add_type_key, kept_key};
pub use lines::push;
pub use operands::Operand;
