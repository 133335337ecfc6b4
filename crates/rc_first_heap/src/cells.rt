// The first values of number cells.
ghost use Rattle.std.specs.Prelude.{◌≡◌, ◌≤◌};
ghost use Rattle.rc_core.specs.Heap.{Number};
ghost use Rattle.rc_core.specs.Shapes.{cell_kind_of};
ghost use Rattle.rc_code.specs.ImageMeaning.{first_number};
ghost use Rattle.rc_store.specs.Stores.{written};
ghost use Rattle.rc_first_heap.specs.First.{HasNumber, place_of};

use rc_base::Steps;
use rc_core::as_int;
use rc_core::layout::CellKind;
use rc_store::{Cell, Heap, Place, Pointer};

/// The number that a cell begins with: an image has it modulo 2^32.
pub(crate) fn first_number(cell: &CellKind, n: u32) -> i64
    ensures { result ≡ first_number (cell_kind_of cell.now) n }
{
    match cell {
        CellKind::Int => i64::from(as_int(i64::from(n))),
        _ => i64::from(n),
    }
}

/// Writes an element of a global whose elements are numbers.
pub(crate) fn write_number<H: Heap>(
    heap: &mut H,
    object: u32,
    element: u32,
    value: i64,
    steps: &mut Steps<H::Counter>,
)
    requires { HasNumber (H.store heap.old) object element }
    ensures written { H.store heap.new ≡ written (place_of object element) (Number value) (H.store heap.old) }
    ensures never_falls { steps.old ≤ steps.new }
{
    let pointer = Pointer {
        region: 0,
        object,
        index: element,
    };
    let place = Place { pointer, cell: 0 };
    heap.write_counted(place, Cell::Number(value), steps);
}
