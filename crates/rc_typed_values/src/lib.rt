//! Values with their types, as the typing rules look at them: the sorts of types and when two are
//! the same, the conversions of numbers, where a value of a type is wanted, and why a rule gives no
//! answer.
#![tactic(auto)]

mod kinds;
mod meanings;
mod stop;
mod values;

pub use kinds::{
    copy_of, is_struct, same_type, same_types, sort_of, sort_of_type, starred, value_type,
};
pub use meanings::{Meant, Typed};
pub use stop::{Stop, add, boxed, fails, refuse_where};
pub use values::{
    as_value, condition_rule, converted, fitted, in_arithmetic, is_truthy, met, promoted,
    promoted_value, typed,
};
