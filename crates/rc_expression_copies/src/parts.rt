// Names and types.
ghost use Rattle.std.specs.Prelude.{◌≡◌, ◌++◌, ◌∷◌, [], IfOk, OnOk};
ghost use Rattle.rc_syntax.specs.declared.tree.Base.TheVariants as base;
ghost use Rattle.rc_syntax.specs.Shape as written;
ghost use Rattle.rc_linking.specs.Moved as place;

use rc_base::NoMemory;
use rc_syntax::tree::{Base, Name, Note, Spot, TypeName};
use std::alloc::Global;

/// Puts a value in memory of its own.
///
/// # Errors
///
/// Out of memory; the value is gone then.
pub fn boxed<T: Drop>(alloc: Global, value: T) -> Result<Box<T>, NoMemory>
    ensures { IfOk result (λ b. b.value ≡ value) }
{
    Ok(Box::new(alloc, value)?)
}

/// Puts a value behind others, out of the memory of its own.
///
/// # Errors
///
/// Out of memory; the value is gone then.
pub fn add<T: Drop>(values: &mut Vec<T>, value: Box<T>) -> Result<(), NoMemory>
    ensures { OnOk result (values.new.items ≡ values.old.items ++ value.value ∷ []) }
{
    Ok(values.push(Box::into_inner(value))?)
}

/// A spot that many words later, on the same line.
///
/// # Errors
///
/// Out of places: its place would be over 4,294,967,295.
pub fn spot(at: Spot, by: u32) -> Result<Spot, NoMemory>
    ensures { IfOk result (λ s. s ≡ place.moved_spot by at) }
{
    match at.place.checked_add(by) {
        Some(place) => Ok(Spot {
            place,
            line: at.line,
        }),
        None => Err(NoMemory),
    }
}

/// A name with these bytes at this place.
pub(crate) fn name_at(n: &Name, spot: Spot) -> Result<Name, NoMemory>
    ensures { IfOk result (λ r. r ≡ record { spot = spot; text = n.now.text }) }
{
    let text = n.text.share()?;
    Ok(Name { spot, text })
}

/// A copy of a name that many words later, which shares its bytes.
///
/// # Errors
///
/// Out of memory, or out of places.
pub fn copy_name(n: &Name, by: u32) -> Result<Name, NoMemory>
    ensures { IfOk result (λ r. r ≡ place.moved_name by n.now) }
{
    let spot = spot(n.spot, by)?;
    name_at(n, spot)
}

fn struct_base(at: Spot, n: &Name, by: u32) -> Result<Base, NoMemory>
    ensures { IfOk result (λ r. r ≡ place.moved_base by (base.Struct at n.now)) }
{
    let at = spot(at, by)?;
    let n = copy_name(n, by)?;
    Ok(Base::Struct(at, n))
}

fn base(b: &Base, by: u32) -> Result<Base, NoMemory>
    ensures { IfOk result (λ r. r ≡ place.moved_base by b.now) }
{
    match b {
        Base::Int(at) => Ok(Base::Int(spot(*at, by)?)),
        Base::Unsigned(at) => Ok(Base::Unsigned(spot(*at, by)?)),
        Base::Char(at) => Ok(Base::Char(spot(*at, by)?)),
        Base::Region(at) => Ok(Base::Region(spot(*at, by)?)),
        Base::Struct(at, n) => struct_base(*at, n, by),
    }
}

/// A copy of a type that many words later.
///
/// # Errors
///
/// Out of memory, or out of places.
pub fn copy_type(alloc: Global, n: &TypeName, by: u32) -> Result<TypeName, NoMemory>
    ensures { IfOk result (λ r. written.type_of r ≡ place.moved_type by (written.type_of n.now)) }
{
    let base = base(&n.base, by)?;
    let stars = Vec::from_slice(alloc, n.stars.as_slice())?;
    Ok(TypeName { base, stars })
}

/// A name that says the same, and shares its bytes.
///
/// # Errors
///
/// Out of memory.
pub fn same_name(n: &Name) -> Result<Name, NoMemory>
    ensures { IfOk result (λ r. r ≡ n.now) }
{
    name_at(n, n.spot)
}

/// A type that says the same.
///
/// # Errors
///
/// Out of memory.
#[tactic(auto, using(crate::proofs::Unmoved::a_type))]
pub fn same_type(alloc: Global, n: &TypeName) -> Result<TypeName, NoMemory>
    ensures { IfOk result (λ r. written.type_of r ≡ written.type_of n.now) }
{
    copy_type(alloc, n, 0)
}
