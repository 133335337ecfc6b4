// Types as the rules look at them.
ghost use Rattle.std.specs.Prelude.{◌≡◌, option_map, Some, None, IfOk, IfErr};
ghost use Rattle.rc_core.specs.Shapes.{ty_of};
ghost use Rattle.rc_core.specs.Typing as typing;
ghost use Rattle.rc_deletes.specs.Kinds as rule;

use crate::stop::{Stop, boxed};
use rc_core::cells;
use rc_core::ty::{Note, NumberType, Ty};
use rc_deletes::Sort;
use rc_syntax::tree::Note as WrittenNote;
use std::alloc::Global;

/// The sort of a type.
pub fn sort_of_type(ty: &Ty) -> Sort
    ensures { result ≡ rule.sort_of_type (ty_of ty.now) }
{
    match ty {
        Ty::Int => Sort::Number(NumberType::Int),
        Ty::Unsigned => Sort::Number(NumberType::Unsigned),
        Ty::Char => Sort::Number(NumberType::Char),
        Ty::Region => Sort::Region,
        Ty::Struct(_) => Sort::Struct,
        Ty::Pointer(_, _) => Sort::Pointer,
    }
}

/// The sort of a value, by its type: the word `NULL` has none.
pub fn sort_of(ty: &Option<Ty>) -> Sort
    ensures { result ≡ rule.sort_of (option_map ty_of ty.now) }
{
    match ty {
        Some(ty) => sort_of_type(ty),
        None => Sort::Null,
    }
}

/// Whether two annotations are the same.
fn same_note(a: Note, b: Note) -> bool
    ensures { result ≡ rule.same_note a b }
{
    match (a, b) {
        (Note::Plain, Note::Plain) => true,
        (Note::SameRegion, Note::SameRegion) => true,
        (Note::ParentPtr, Note::ParentPtr) => true,
        (Note::Traditional, Note::Traditional) => true,
        (_, _) => false,
    }
}

/// Whether two types are equal, all their annotations included.
pub fn same_type(a: &Ty, b: &Ty) -> bool
    ensures { result ≡ rule.same_type (ty_of a.now) (ty_of b.now) }
{
    match (a, b) {
        (Ty::Int, Ty::Int) => true,
        (Ty::Unsigned, Ty::Unsigned) => true,
        (Ty::Char, Ty::Char) => true,
        (Ty::Region, Ty::Region) => true,
        (Ty::Struct(k), Ty::Struct(l)) => *k == *l,
        (Ty::Pointer(m, t), Ty::Pointer(n, u)) => same_note(*m, *n) && same_type(t, u),
        (_, _) => false,
    }
}

/// Whether values of two types have one type: the annotations of their last stars don't count.
fn same_value_type(a: &Ty, b: &Ty) -> bool
    ensures { result ≡ rule.same_value_type (ty_of a.now) (ty_of b.now) }
{
    match (a, b) {
        (Ty::Pointer(_, t), Ty::Pointer(_, u)) => same_type(t, u),
        (_, _) => same_type(a, b),
    }
}

/// Whether two values have one type. The word `NULL` has none.
pub fn same_types(a: &Option<Ty>, b: &Option<Ty>) -> bool
    ensures { result ≡ rule.same_types (option_map ty_of a.now) (option_map ty_of b.now) }
{
    match (a, b) {
        (Some(a), Some(b)) => same_value_type(a, b),
        (_, _) => false,
    }
}

/// Whether a value has the type that is wanted. The word `NULL` has none.
pub(crate) fn is_of_type(wanted: &Ty, ty: &Option<Ty>) -> bool
    ensures { result ≡ rule.same_types (Some (ty_of wanted.now)) (option_map ty_of ty.now) }
{
    match ty {
        Some(ty) => same_value_type(wanted, ty),
        None => false,
    }
}

/// Whether a type is a struct.
pub fn is_struct(ty: &Ty) -> bool
    ensures { result ≡ typing.is_struct (ty_of ty.now) }
{
    matches!(ty, Ty::Struct(_))
}

/// What an annotation that is written says.
fn note_of(note: WrittenNote) -> Note
    ensures { result ≡ rule.note_of note }
{
    match note {
        WrittenNote::Plain => Note::Plain,
        WrittenNote::SameRegion => Note::SameRegion,
        WrittenNote::ParentPtr => Note::ParentPtr,
        WrittenNote::Traditional => Note::Traditional,
    }
}

/// The type that a base and its stars write. The first star stands nearest to the base.
///
/// # Errors
///
/// Out of memory.
pub fn starred(alloc: Global, base: Ty, stars: &[WrittenNote]) -> Result<Ty, Stop>
    ensures ok { IfOk result (λ t. ty_of t ≡ rule.starred (ty_of base) stars.now) }
    ensures err { IfErr result (λ s. s ≡ Stop.Memory) }
{
    let mut ty = base;
    for note in stars {
        ty = Ty::Pointer(note_of(*note), boxed(alloc, ty)?);
    }
    Ok(ty)
}

/// A type of its own that is the same.
///
/// # Errors
///
/// Out of memory.
pub fn copy_of(alloc: Global, ty: &Ty) -> Result<Ty, Stop>
    ensures ok { IfOk result (λ t. ty_of t ≡ ty_of ty.now) }
    ensures err { IfErr result (λ s. s ≡ Stop.Memory) }
{
    Ok(cells::copy_of(alloc, ty)?)
}

/// The type of the values that are kept as this type: without the annotation of the last star.
pub fn value_type(ty: Ty) -> Ty
    ensures { ty_of result ≡ typing.value_type (ty_of ty) }
{
    match ty {
        Ty::Int => Ty::Int,
        Ty::Unsigned => Ty::Unsigned,
        Ty::Char => Ty::Char,
        Ty::Region => Ty::Region,
        Ty::Struct(number) => Ty::Struct(number),
        Ty::Pointer(_, target) => Ty::Pointer(Note::Plain, target),
    }
}
