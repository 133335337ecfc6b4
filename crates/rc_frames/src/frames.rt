// What waits for a part of a run.

use rc_core::expr::{Expr, PathStep, Place};
use rc_core::stmt::Stmt;
use rc_values::{Target, Value, Values};

/// How far a statement has come. A loop knows how many more rounds it may begin; each takes a turn.
#[derive(Drop)]
pub enum Stage {
    /// It waits for its place, or the left one.
    Place,
    /// It waits for the place that is copied to this one.
    Source(Target),
    /// It waits for its value.
    Value,
    /// It waits for the value that is stored here.
    Stored(Target),
    /// A block waits for the last of the statements that were begun, which are this many.
    Within(u64),
    /// A loop waits for its condition.
    Test(u64),
    /// A loop waits for its body.
    Body(u64),
    /// A `for` waits for the first part of its head.
    First,
    /// A `for` waits for the third part of its head.
    Third(u64),
}

/// What waits in a function, outside of what runs.
#[derive(Drop)]
pub enum Frame<'p> {
    /// An expression waits for the value of its first part.
    First(&'p Expr),
    /// An expression, whose first part has this value, waits for that of its second.
    Second(&'p Expr, Value),
    /// A call of this function waits for an argument, after those with these values, and before these.
    Argument(u32, Values, &'p [Expr]),
    /// A place waits for its pointer.
    Pointer(&'p Place),
    /// A place waits for its index.
    Index(&'p Place, Value),
    /// A place waits for the index of an array field: its number of elements, and the cells of each.
    Element(Target, u64, u64, &'p [PathStep]),
    /// An expression waits for the place that it reads.
    Load(u32),
    /// A statement waits.
    Inside(&'p Stmt, Stage),
}
