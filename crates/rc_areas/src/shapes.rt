// The shapes that objects have.
ghost use Rattle.std.specs.Prelude.{◌≡◌, ◌<◌, [], ◌∷◌, ◌++◌, Some, None, length, map, IfOk, OnOk, OnErr, slice_get, slice_index_or};
ghost use Rattle.rc_core.specs.declared.layouts.Kind.TheVariants.{Number as NumberKind};
ghost use Rattle.rc_core.specs.Laid.{held_kind};
ghost use Rattle.rc_core.specs.Shapes.{kinds_in};
ghost use Rattle.rc_scope.specs.Names.{place_of};
ghost use Rattle.rc_areas.specs.Naming.{name_of};
ghost use Rattle.rc_areas.specs.Shapes.{IsMarked, has_counted, items_of, with_shape};

use crate::naming::{is_of, name_of};
use rc_base::NoMemory;
use rc_core::Kind;
use rc_core::layout::Layout;
use rc_scope::Names;
use rc_store::{is_counted, kinds_of};
use std::alloc::Global;
use std::marker::Model;

/// As many shapes as have a number.
const MOST_SHAPES: usize = 4294967295;

/// What the cells of an element hold, and whether one of them counts.
#[derive(Drop)]
struct Shape {
    kinds: Vec<Kind>,
    counts: bool,
}

impl Shape {
    /// The shape of a layout.
    fn of(alloc: Global, layout: &Layout) -> Result<Shape, NoMemory>
        ensures kinds { IfOk result (λ shape. items_of shape ≡ map held_kind (kinds_in layout.now)) }
        ensures counts { IfOk result (λ shape. IsMarked shape) }
    {
        let kinds = kinds_of(alloc, layout)?;
        let counts = has_counted(&kinds);
        Ok(Shape { kinds, counts })
    }
}

/// Whether a cell of these kinds counts.
fn has_counted(kinds: &[Kind]) -> bool
    ensures { result ≡ has_counted kinds.now }
{
    for kind in kinds {
        if is_counted(*kind) {
            return true;
        }
    }
    false
}

/// The shapes of a heap's objects, each once. A shape is what the cells of an element hold. Contracts
/// see their list.
#[derive(Drop)]
pub struct Shapes {
    alloc: Global,
    shapes: Vec<Shape>,
    /// Of each shape its name, by the same number.
    names: Names,
    /// That which was asked for last: mostly it is asked for again, and then no name is made.
    last: u32,
}

impl Model for Shapes {
    ghost use Rattle.std.specs.Prelude.{◌≡◌, ◌≤◌, List, length, map, All};
    ghost use Rattle.rc_areas.specs.Naming.{name_of};
    ghost use Rattle.rc_areas.specs.Shapes.{Shape, IsMarked, items_of};

    ghost Value = { List Shape };

    ghost view = { λ s. map items_of s.shapes.items };

    ghost invariant = { λ s. (length s.shapes.items ≤ 4294967295) × (s.names ≡ map name_of (map items_of s.shapes.items)) × All IsMarked s.shapes.items };
}

/// What a cell of an element holds.
#[inline(always)]
pub(crate) fn kind_at(shape: &[Kind], cell: usize) -> Kind
    requires { cell < length shape.now }
    ensures { result ≡ slice_index_or shape.now cell NumberKind }
{
    shape[cell]
}

impl Shapes {
    /// No shape. It takes no memory.
    pub fn new(alloc: Global) -> Shapes
        ensures { result ≡ [] }
    {
        Shapes {
            alloc,
            shapes: Vec::new(alloc),
            names: Names::new(alloc),
            last: 0,
        }
    }

    /// The shape with this number.
    #[inline(always)]
    pub fn get(&self, number: u32) -> &[Kind]
        requires { number < length self.now }
        ensures { result.now ≡ slice_index_or self.now number [] }
    {
        self.shapes[number as usize].kinds.as_slice()
    }

    /// Whether a cell of the shape with this number counts.
    #[inline(always)]
    pub fn counts(&self, number: u32) -> bool
        requires { number < length self.now }
        ensures { result ≡ has_counted (slice_index_or self.now number []) }
    {
        self.shapes[number as usize].counts
    }

    /// The number of the shape of this layout, which gets the next one where it is new. The other
    /// shapes keep theirs.
    ///
    /// # Errors
    ///
    /// Out of memory: nothing has changed.
    pub fn number(&mut self, layout: &Layout) -> Result<u32, NoMemory>
        ensures number { IfOk result (λ n. slice_get self.new n ≡ Some (map held_kind (kinds_in layout.now))) }
        ensures shapes { OnOk result (self.new ≡ with_shape (map held_kind (kinds_in layout.now)) self.old) }
        ensures err { OnErr result (self.new ≡ self.old) }
    {
        let last = self.last;
        if (last as usize) < self.shapes.len() && is_of(self.get(last), layout) {
            return Ok(last);
        }
        let number = self.find_or_add(layout)?;
        self.last = number;
        Ok(number)
    }

    /// The same, by the shape's name.
    fn find_or_add(&mut self, layout: &Layout) -> Result<u32, NoMemory>
        ensures number { IfOk result (λ n. slice_get self.new n ≡ Some (map held_kind (kinds_in layout.now))) }
        ensures shapes { OnOk result (self.new ≡ with_shape (map held_kind (kinds_in layout.now)) self.old) }
        ensures err { OnErr result (self.new ≡ self.old) }
    {
        let name = name_of(self.alloc, layout)?;
        match self.names.find(&name) {
            Some(number) => Ok(number),
            None => self.add(layout, &name),
        }
    }

    /// Puts a new shape behind all others.
    fn add(&mut self, layout: &Layout, name: &[u8]) -> Result<u32, NoMemory>
        requires name { name.now ≡ name_of (map held_kind (kinds_in layout.now)) }
        requires is_new { place_of (map name_of self.old) name.now ≡ None }
        ensures number { IfOk result (λ n. slice_get self.new n ≡ Some (map held_kind (kinds_in layout.now))) }
        ensures shapes { OnOk result (self.new ≡ self.old ++ map held_kind (kinds_in layout.now) ∷ []) }
        ensures err { OnErr result (self.new ≡ self.old) }
    {
        let number = self.shapes.len();
        if number >= MOST_SHAPES {
            return Err(NoMemory);
        }
        let shape = Shape::of(self.alloc, layout)?;
        match self.shapes.reserve(1) {
            Ok(()) => {}
            Err(_) => return Err(NoMemory),
        }
        self.names.number(name)?;
        self.shapes.push(shape).unwrap();
        Ok(number as u32)
    }
}
