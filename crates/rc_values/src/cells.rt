// Cells: what each holds at first, and its annotation.

ghost use Rattle.std.specs.Prelude.{◌≡◌, ◌∷◌, []};
ghost use Rattle.rc_core.specs.Heap.{zero_of};
ghost use Rattle.rc_core.specs.Shapes.{ty_of};
ghost use Rattle.rc_core.specs.declared.layouts.Kind.TheVariants.{Number as NumberKind};
ghost use Rattle.rc_values.specs.Cells.{blank_cell, note_of};
ghost use Rattle.rc_values.specs.Values.{value_of};

use crate::value::Value;
use rc_core::Kind;
use rc_core::ty::{Note, Ty};

static NUMBER: [Kind; 1] = [Kind::Number];

/// The one cell of a number.
pub fn number_cells() -> &'static [Kind]
    ensures { result.now ≡ NumberKind ∷ [] }
{
    &NUMBER
}

/// What a cell holds at first: zero or null.
pub fn blank_cell(kind: Kind) -> Value
    ensures { value_of result ≡ blank_cell kind }
{
    match kind {
        Kind::Number => Value::Number(0),
        Kind::Region => Value::Null,
        Kind::Pointer(_) => Value::Null,
    }
}

/// The annotation of a cell, plain where it is no pointer.
pub fn note_of(kind: Kind) -> Note
    ensures { result ≡ note_of kind }
{
    match kind {
        Kind::Number => Note::Plain,
        Kind::Region => Note::Plain,
        Kind::Pointer(note) => note,
    }
}

/// What a value of a type is at first: zero or null.
pub fn zero_of(ty: &Ty) -> Value
    ensures { value_of result ≡ zero_of (ty_of ty.now) }
{
    match ty {
        Ty::Int => Value::Number(0),
        Ty::Unsigned => Value::Number(0),
        Ty::Char => Value::Number(0),
        Ty::Region => Value::Null,
        Ty::Struct(_) => Value::Null,
        Ty::Pointer(_, _) => Value::Null,
    }
}
