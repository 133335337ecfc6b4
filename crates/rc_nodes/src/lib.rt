//! What the evaluator does at a single node of a program: at an expression, a place or a statement, when
//! it begins and when one of its parts has a value, has a place or is done.
//!
//! What waits for a part goes into a list of frames, so that no node is evaluated inside another.
#![tactic(auto)]

mod control;
mod expressions;
mod paths;
mod places;
mod setting;
mod statements;
mod storing;

pub use control::Control;
pub use expressions::{
    allocate, begin_expression, first_value_to_inner_expression, load, make_region, make_subregion,
    second_value_to_expression,
};
pub use paths::step_inward;
pub use places::{index_to_path, index_to_place, pointer_to_place};
pub use setting::Setting;
pub use statements::{
    begin_statement, broke_to_statement, continued_to_statement, done_to_statement,
};
pub use storing::{GivenStatement, place_to_statement, value_to_statement};
