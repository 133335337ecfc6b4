// What stands on the right of an assignment.

use rc_core::expr::Place;
use rc_typed_values::Typed;

/// The right side of `=`: a value, or a place whose type is the struct of this number.
#[derive(Drop)]
pub enum RightSide {
    Value(Typed),
    Struct(Box<Place>, u32),
}
