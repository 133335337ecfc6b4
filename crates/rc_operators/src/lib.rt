//! The typing rules of operators, on values that are judged already: what each operator takes and
//! gives.
#![tactic(auto)]

mod arithmetic;
mod changes;
mod comparisons;
mod conditions;
mod operators;
mod pointers;

pub use arithmetic::{arithmetic_type, cast_rule, cast_type};
pub use changes::{change_of, changed};
pub use conditions::conditional_rule;
pub use operators::{binary_rule, unary_rule};
pub use pointers::{address_rule, pointed};
