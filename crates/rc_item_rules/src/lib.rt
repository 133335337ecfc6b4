//! The typing rules of statements and of what stands outside of functions, one node at a time, on parts
//! that are judged already.
#![tactic(auto)]

mod items;
mod sides;
mod statements;

pub use items::{
    function_name, gives_int, global_rule, initial_of, is_defined_before, is_empty,
    is_struct_option, main_shape, once, takes_nothing,
};
pub use sides::RightSide;
pub use statements::{
    alone_rule, assignment, declaration, fitting, is_twice, one, returned, right_side,
    step_operator, update_of,
};
