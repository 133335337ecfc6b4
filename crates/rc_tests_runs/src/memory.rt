// Structs that are laid out, the first heap, and what is made in it.

ghost use Rattle.std.specs.Prelude.{IfOk, map};
ghost use Rattle.rc_core.specs.Shapes.{struct_of};
ghost use Rattle.rc_core.specs.WellTyped.{StructsFit};

use rc_base::{End, RunFault, Trap};
use rc_core::parts::{Field, Global as Variable, Parts, Struct};
use rc_core::ty::{Note, Ty};
use rc_core::{FieldPlace, Kind, Layouts};
use rc_memory::Heap;
use rc_values::{Chosen, Stop, Target, Value, aimed, is_same, static_pointer};
use std::alloc::{AllocError, Global};

/// `struct pair { int a; char b[3]; region r; };` and
/// `struct all { struct pair p[2]; struct all *sameregion next; };`
fn structs(alloc: Global) -> Result<Vec<Struct>, AllocError>
    ensures { IfOk result (λ list. StructsFit (map struct_of list.items)) }
{
    let number = Field {
        ty: Ty::Int,
        length: None,
    };
    let text = Field {
        ty: Ty::Char,
        length: Some(3),
    };
    let region = Field {
        ty: Ty::Region,
        length: None,
    };
    let pairs = Field {
        ty: Ty::Struct(0),
        length: Some(2),
    };
    let next = Field {
        ty: Ty::Pointer(Note::SameRegion, Box::new(alloc, Ty::Struct(1))?),
        length: None,
    };
    let pair = Struct {
        fields: vec![in alloc; number, text, region]?,
    };
    let all = Struct {
        fields: vec![in alloc; pairs, next]?,
    };
    Ok(vec![in alloc; pair, all]?)
}

fn laid_out(alloc: Global) -> Result<Layouts, AllocError> {
    let structs = structs(alloc)?;
    Layouts::new(alloc, structs.as_slice())
}

fn is_at(place: FieldPlace, offset: u64, count: u64, stride: u64) -> bool {
    place.offset == offset && place.count == count && place.stride == stride
}

/// The cells of `struct all`: those of each pair, and the annotated pointer.
fn is_cell(kind: Kind, at: usize) -> bool {
    match kind {
        Kind::Number => at < 10 && at % 5 != 4,
        Kind::Region => at == 4 || at == 9,
        Kind::Pointer(note) => at == 10 && note == Note::SameRegion,
    }
}

/// The numbers of a struct and of a field, and where that lies: its offset, its count and its stride.
/// What isn't there has none.
const FIELDS: [(u32, u32, u64, u64, u64); 7] = [
    (0, 0, 0, 0, 1),
    (0, 1, 1, 3, 1),
    (0, 2, 4, 0, 1),
    (1, 0, 0, 2, 5),
    (1, 1, 10, 0, 1),
    (1, 2, 11, 0, 0),
    (2, 0, 0, 0, 0),
];

/// Whether each field lies at its place.
fn are_at_their_places(layouts: &Layouts) -> bool {
    for (structure, field, offset, count, stride) in FIELDS.iter() {
        if !is_at(layouts.field(*structure, *field), *offset, *count, *stride) {
            return false;
        }
    }
    true
}

/// Whether the last struct has its cells.
fn has_its_cells(layouts: &Layouts) -> bool {
    let kinds = layouts.cells_of(&Ty::Struct(1));
    for (at, kind) in kinds.iter().enumerate() {
        if !is_cell(*kind, at) {
            return false;
        }
    }
    kinds.len() == 11
}

/// Whether each field lies at its place, one after another, and the last struct has its cells.
fn are_laid_out(layouts: &Layouts) -> bool {
    has_its_cells(layouts)
        && layouts.size_of(0) == 5
        && layouts.size_of(1) == 11
        && are_at_their_places(layouts)
}

#[test]
fn fields_lie_one_after_another(rt: HostRuntime) {
    let holds = match laid_out(rt.alloc()) {
        Ok(layouts) => are_laid_out(&layouts),
        Err(_) => false,
    };
    assert!(rt; holds);
}

/// `int g = 7; char c[3]; region r;` and the literal `"ab"`.
fn parts(alloc: Global) -> Result<Parts, AllocError> {
    let number = Variable {
        ty: Ty::Int,
        length: None,
        initial: 7,
    };
    let text = Variable {
        ty: Ty::Char,
        length: Some(3),
        initial: 0,
    };
    let region = Variable {
        ty: Ty::Region,
        length: None,
        initial: 0,
    };
    let literal = vec![in alloc; b'a', b'b']?;
    Ok(Parts {
        structs: Vec::new(alloc),
        globals: vec![in alloc; number, text, region]?,
        strings: vec![in alloc; literal]?,
        functions: Vec::new(alloc),
        main: 0,
    })
}

/// Whether an outcome is this value.
fn gives(outcome: Result<Value, Stop>, value: Value) -> bool {
    match outcome {
        Ok(given) => is_same(given, value),
        Err(_) => false,
    }
}

/// Whether an outcome is this trap, at line 9.
fn traps<T: Drop>(outcome: Result<T, Stop>, trap: Trap) -> bool {
    match outcome {
        Err(Stop::Ends(End::Trapped(t, line))) => t == trap && line == 9,
        _ => false,
    }
}

/// An element of a global or of a literal.
fn place(alloc: Global, object: u64, index: i64) -> Target {
    aimed(alloc, static_pointer(object), index)
}

/// The elements of the first heap, each with its object and its index: its value, or a trap.
const ELEMENTS: [(u64, i64, Result<Value, Trap>); 9] = [
    (0, 0, Ok(Value::Number(7))),
    (1, 2, Ok(Value::Number(0))),
    (1, 3, Err(Trap::Bounds)),
    (1, -1, Err(Trap::Bounds)),
    (2, 0, Ok(Value::Null)),
    (3, 0, Ok(Value::Number(97))),
    (3, 1, Ok(Value::Number(98))),
    (3, 2, Ok(Value::Number(0))),
    (3, 3, Err(Trap::Bounds)),
];

/// Whether an element has this value, or traps so.
fn has(
    alloc: Global,
    heap: &Heap<'_>,
    object: u64,
    index: i64,
    wanted: Result<Value, Trap>,
) -> bool {
    let given = heap.load(9, &place(alloc, object, index));
    match wanted {
        Ok(value) => gives(given, value),
        Err(trap) => traps(given, trap),
    }
}

/// Whether the first heap has the globals and the literal, and nothing beside them.
fn has_globals_and_literals(alloc: Global, layouts: &Layouts) -> Result<bool, Stop> {
    let parts = parts(alloc)?;
    let heap = Heap::new(alloc, layouts, &parts)?;
    for (object, index, wanted) in ELEMENTS.iter() {
        if !has(alloc, &heap, *object, *index, *wanted) {
            return Ok(false);
        }
    }
    Ok(true)
}

/// The region of the second pair: the cell at `p[index].r` of an element.
fn region_of_pair(
    alloc: Global,
    layouts: &Layouts,
    pointer: Value,
    index: i64,
) -> Result<Target, Stop> {
    let mut target = aimed(alloc, pointer, 1);
    let pairs = layouts.field(1, 0);
    target.go_further(pairs.offset)?;
    target.choose(Chosen {
        index,
        count: pairs.count,
        stride: pairs.stride,
    })?;
    target.go_further(layouts.field(0, 2).offset)?;
    Ok(target)
}

/// What is loaded from the cell at `p[index].r` of the second element, where there is one.
fn load_of_pair(
    alloc: Global,
    heap: &Heap<'_>,
    layouts: &Layouts,
    pointer: Value,
    index: i64,
) -> Result<Value, Stop> {
    let Ok(cell) = region_of_pair(alloc, layouts, pointer, index) else {
        return Err(Stop::Cut(RunFault::Memory));
    };
    heap.load(9, &cell)
}

/// Stores a region in the second pair of the second element.
fn store_in_pair(
    alloc: Global,
    heap: &mut Heap<'_>,
    layouts: &Layouts,
    pointer: Value,
    region: Value,
) -> Result<(), Stop> {
    let cell = region_of_pair(alloc, layouts, pointer, 1)?;
    heap.store(9, &cell, &[region])
}

/// Whether a cell of the second element is changed, and no other.
fn changes_a_cell(
    alloc: Global,
    heap: &mut Heap<'_>,
    layouts: &Layouts,
    pointer: Value,
    child: Value,
) -> Result<bool, Stop> {
    let before = gives(load_of_pair(alloc, heap, layouts, pointer, 1), Value::Null);
    store_in_pair(alloc, heap, layouts, pointer, child)?;
    let after = gives(load_of_pair(alloc, heap, layouts, pointer, 1), child);
    let unchanged = gives(load_of_pair(alloc, heap, layouts, pointer, 0), Value::Null);
    let bounds = traps(load_of_pair(alloc, heap, layouts, pointer, 2), Trap::Bounds);
    Ok(before && after && unchanged && bounds)
}

/// Whether a third region is one too many, and null has no child.
fn refuses_regions(alloc: Global, heap: &mut Heap<'_>, region: Value) -> bool {
    traps(heap.make_child(alloc, 9, region, 2), Trap::Full)
        && traps(heap.make_child(alloc, 9, Value::Null, 2), Trap::Null)
}

/// Whether an array of so many elements is refused so.
fn refuses_array<'p>(
    alloc: Global,
    heap: &mut Heap<'p>,
    kinds: &'p [Kind],
    region: Value,
    count: i64,
    trap: Trap,
) -> bool {
    traps(heap.allocate(alloc, 9, region, count, kinds, 1), trap)
}

/// A region and its child are made, and an array in the region.
fn makes_an_array<'p>(
    alloc: Global,
    heap: &mut Heap<'p>,
    layouts: &'p Layouts,
) -> Result<bool, Stop> {
    let kinds = layouts.cells_of(&Ty::Struct(1));
    let region = Value::Handle(heap.make(alloc, 9, 0, 2)?);
    let child = Value::Handle(heap.make_child(alloc, 9, region, 2)?);
    let regions = refuses_regions(alloc, heap, region);
    let size = refuses_array(alloc, heap, kinds, region, -1, Trap::Size);
    let pointer = heap.allocate(alloc, 9, region, 2, kinds, 1)?;
    let many = refuses_array(alloc, heap, kinds, region, 2, Trap::Full);
    let changes = changes_a_cell(alloc, heap, layouts, pointer, child)?;
    Ok(regions && size && many && changes)
}

/// A region is made, an array in it, and a cell of its second element is changed.
fn regions_are_made(alloc: Global, layouts: &Layouts) -> Result<bool, Stop> {
    let parts = Parts {
        structs: Vec::new(alloc),
        globals: Vec::new(alloc),
        strings: Vec::new(alloc),
        functions: Vec::new(alloc),
        main: 0,
    };
    let mut heap = Heap::new(alloc, layouts, &parts)?;
    makes_an_array(alloc, &mut heap, layouts)
}

#[test]
fn the_first_heap_and_what_is_made_in_it(rt: HostRuntime) {
    let holds = match laid_out(rt.alloc()) {
        Ok(layouts) => {
            matches!(has_globals_and_literals(rt.alloc(), &layouts), Ok(true))
                && matches!(regions_are_made(rt.alloc(), &layouts), Ok(true))
        }
        Err(_) => false,
    };
    assert!(rt; holds);
}
