// Layouts: the cells of types, and where the fields of structs lie. A cell holds one number, region or
// pointer, and sizes and places are counted in cells.

ghost use Rattle.std.specs.Prelude.{◌≡◌, ◌++◌, List, Some, flat_map, replicate, map, option_map, slice_get, IfOk, OnOk};
ghost use Rattle.rc_core.specs.Laid.{AreLaidOut, HaveCells, IsLaidOut, held_kind, place_in, place_of};
ghost use Rattle.rc_core.specs.Layout.{Layout, cells, cells_by, copies, count_in, size};
ghost use Rattle.rc_core.specs.Programs.{Struct as Fields};
ghost use Rattle.rc_core.specs.Shapes.{field_of, struct_of, ty_of};
ghost use Rattle.rc_core.specs.Types.{struct};
ghost use Rattle.rc_core.specs.WellTyped.{StructsFit};

use crate::parts::{Field, Struct};
use crate::ty::{Note, Ty};
use std::alloc::{AllocError, Global};
use std::marker::Model;

/// What a cell holds.
#[derive(Clone, Copy)]
pub enum Kind {
    Number,
    Region,
    /// A pointer with this annotation. What it points to isn't kept.
    Pointer(Note),
}

static NUMBER: [Kind; 1] = [Kind::Number];

static REGION: [Kind; 1] = [Kind::Region];

static PLAIN: [Kind; 1] = [Kind::Pointer(Note::Plain)];

static SAME_REGION: [Kind; 1] = [Kind::Pointer(Note::SameRegion)];

static PARENT_PTR: [Kind; 1] = [Kind::Pointer(Note::ParentPtr)];

static TRADITIONAL: [Kind; 1] = [Kind::Pointer(Note::Traditional)];

/// Where a field lies in its struct.
#[derive(Clone, Copy)]
pub struct FieldPlace {
    /// How many cells of the struct stand before it.
    pub offset: u64,
    /// How many elements it has where it is an array, and 0 where it is one value.
    pub count: u64,
    /// How many cells one of its elements has, or the one value.
    pub stride: u64,
}

/// The cells of a struct, and where its fields lie.
#[derive(Drop)]
pub(crate) struct StructLayout {
    kinds: Vec<Kind>,
    places: Vec<FieldPlace>,
}

impl Model for StructLayout {
    ghost use Rattle.rc_core.specs.Laid.{LaidStruct};

    ghost Value = { LaidStruct };

    ghost view = { λ s. record { kinds = s.kinds.items; places = s.places.items } };
}

impl StructLayout {
    fn kinds(&self) -> &[Kind]
        ensures { result.now ≡ self.now.kinds }
    {
        self.kinds.as_slice()
    }

    /// Where a field lies: one that isn't there has no cells, and lies at the end of the struct.
    fn place(&self, field: u32) -> FieldPlace
        ensures { result ≡ place_in (Some self.now) field }
    {
        match self.places.get(field as usize) {
            Some(place) => *place,
            None => FieldPlace {
                offset: self.kinds.len() as u64,
                count: 0,
                stride: 0,
            },
        }
    }
}

/// The layout of a struct, where it is there.
fn layout_at(layouts: &[StructLayout], structure: u32) -> Option<&StructLayout>
    ensures { option_map (λ l. l.now) result ≡ slice_get layouts.now structure }
{
    layouts.get(structure as usize)
}

/// The cells of a type, where the structs have these layouts.
fn cells_by<'p>(layouts: &'p [StructLayout], ty: &Ty) -> &'p [Kind]
    ensures { (of : List Layout) → HaveCells of layouts.now → result.now ≡ map held_kind (cells_by of (ty_of ty.now)) }
{
    match ty {
        Ty::Int => &NUMBER,
        Ty::Unsigned => &NUMBER,
        Ty::Char => &NUMBER,
        Ty::Region => &REGION,
        Ty::Struct(number) => match layout_at(layouts, *number) {
            Some(layout) => layout.kinds(),
            None => &[],
        },
        Ty::Pointer(note, _) => match note {
            Note::Plain => &PLAIN,
            Note::SameRegion => &SAME_REGION,
            Note::ParentPtr => &PARENT_PTR,
            Note::Traditional => &TRADITIONAL,
        },
    }
}

/// Adds so many cells of one kind, all at once.
fn push_same(kinds: &mut Vec<Kind>, kind: Kind, count: u32) -> Result<(), AllocError>
    ensures { OnOk result (kinds.new.items ≡ kinds.old.items ++ replicate count kind) }
{
    let all = kinds.len().checked_add(count as usize).ok_or(AllocError)?;
    kinds.resize(all, kind)
}

/// Adds these cells so many times.
fn push_copies(kinds: &mut Vec<Kind>, one: &[Kind], count: u32) -> Result<(), AllocError>
    ensures { OnOk result (kinds.new.items ≡ kinds.old.items ++ flat_map (λ kinds. kinds) (replicate count one.now)) }
{
    if one.len() == 1 {
        return push_same(kinds, one[0], count);
    }
    for _ in 0..count {
        kinds.extend_from_slice(one)?;
    }
    Ok(())
}

/// Adds the cells of a field, of which one value has these: once, or as often as its array is long.
///
/// # Errors
///
/// Out of memory.
fn push_field(kinds: &mut Vec<Kind>, one: &[Kind], length: Option<u32>) -> Result<(), AllocError>
    ensures { (layout : Layout) → one.now ≡ map held_kind layout → OnOk result (kinds.new.items ≡ kinds.old.items ++ map held_kind (copies length layout)) }
{
    match length {
        None => Ok(kinds.extend_from_slice(one)?),
        Some(count) => push_copies(kinds, one, count),
    }
}

/// How many elements a field has where it is an array, and 0 where it is one value.
fn length_of(field: &Field) -> u64
    ensures { result ≡ count_in (Some (field_of field.now)) }
{
    match field.length {
        None => 0,
        Some(count) => count as u64,
    }
}

/// Lays out a struct with these fields, after those with these layouts.
///
/// # Errors
///
/// Out of memory.
fn lay_out(
    alloc: Global,
    layouts: &[StructLayout],
    fields: &[Field],
) -> Result<StructLayout, AllocError>
    ensures { (of : List Layout) → HaveCells of layouts.now → IfOk result (λ s. IsLaidOut of (map field_of fields.now) s) }
{
    let mut kinds = Vec::new(alloc);
    let mut places = Vec::new(alloc);
    for field in fields {
        let one = cells_by(layouts, &field.ty);
        places.push(FieldPlace {
            offset: kinds.len() as u64,
            count: length_of(field),
            stride: one.len() as u64,
        })?;
        push_field(&mut kinds, one, field.length)?;
    }
    Ok(StructLayout { kinds, places })
}

/// The layouts of a program's structs, each laid out once: its cells, and the places of its fields.
/// They take memory for a mark for each cell of each struct.
#[derive(Drop)]
pub struct Layouts {
    structs: Vec<StructLayout>,
}

impl Model for Layouts {
    ghost use Rattle.rc_core.specs.Laid.{LaidStructs};

    ghost Value = { LaidStructs };

    ghost view = { λ l. l.structs.items };
}

impl Layouts {
    /// Lays out the structs of a program, each after those that it has inside. They must fit
    /// together; so none has more than 4,096 cells.
    ///
    /// # Errors
    ///
    /// Out of memory.
    pub fn new(alloc: Global, structs: &[Struct]) -> Result<Layouts, AllocError>
        requires { StructsFit (map struct_of structs.now) }
        ensures { IfOk result (λ l. AreLaidOut (map struct_of structs.now) l) }
    {
        let mut layouts = Vec::new(alloc);
        for structure in structs {
            let layout = lay_out(alloc, layouts.as_slice(), structure.fields.as_slice())?;
            layouts.push(layout)?;
        }
        Ok(Layouts { structs: layouts })
    }

    /// The cells of a type, in order. A struct that isn't there has none.
    pub fn cells_of(&self, ty: &Ty) -> &[Kind]
        ensures { (structs : List Fields) → AreLaidOut structs self.now → result.now ≡ map held_kind (cells structs (ty_of ty.now)) }
    {
        cells_by(self.structs.as_slice(), ty)
    }

    /// How many cells a struct has, none where it isn't there.
    pub fn size_of(&self, structure: u32) -> u64
        ensures { (structs : List Fields) → AreLaidOut structs self.now → result ≡ size structs (struct structure) }
    {
        match layout_at(self.structs.as_slice(), structure) {
            None => 0,
            Some(layout) => layout.kinds().len() as u64,
        }
    }

    /// Where a field lies. One that isn't there has no cells, and lies at the end of its struct, in a
    /// struct that isn't there at 0.
    pub fn field(&self, structure: u32, field: u32) -> FieldPlace
        ensures { (structs : List Fields) → AreLaidOut structs self.now → result ≡ place_of structs structure field }
    {
        match layout_at(self.structs.as_slice(), structure) {
            None => FieldPlace {
                offset: 0,
                count: 0,
                stride: 0,
            },
            Some(layout) => layout.place(field),
        }
    }
}
