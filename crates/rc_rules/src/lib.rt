//! The typing rules of the nodes of expressions, on parts that are judged already: names, fields,
//! indexes and calls.
#![tactic(auto)]

mod calls;
mod expressions;
mod meanings;
mod places;

pub use calls::{allocation, array_allocation, call_statement, call_value, callee_rule};
pub use expressions::{
    eof_value, index_rule, indexed_part, name_rule, null_value, number_value, signedness,
    string_value, unary_meant,
};
pub use meanings::{Callee, Found, Meaning, Signature};
pub use places::field_rule;
