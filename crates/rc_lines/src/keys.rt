// Keys, by which types are found in maps.
ghost use Rattle.std.specs.Prelude.{◌≡◌, ◌++◌, OnOk, IfOk};
ghost use Rattle.rc_core.specs.Shapes.{ty_of};
ghost use Rattle.rc_emission.specs.KeptOperands.{kept_at};
ghost use Rattle.rc_lines.specs.Keys.{note_key, type_key, kept_key, TypeHasKey, HasKey};

use rc_base::NoMemory;
use rc_core::ty::{Note, Ty};
use std::alloc::Global;

/// The key of an annotation.
fn note_key(note: Note) -> u8
    ensures { result ≡ note_key note }
{
    match note {
        Note::Plain => 5,
        Note::SameRegion => 6,
        Note::ParentPtr => 7,
        Note::Traditional => 8,
    }
}

/// Puts the key of a type behind what is there.
pub fn add_type_key(out: &mut Vec<u8>, ty: &Ty) -> Result<(), NoMemory>
    ensures key { OnOk result (out.new.items ≡ out.old.items ++ type_key (ty_of ty.now)) }
    ensures own { OnOk result (TypeHasKey (ty_of ty.now)) }
{
    match ty {
        Ty::Int => Ok(out.push(0)?),
        Ty::Unsigned => Ok(out.push(1)?),
        Ty::Char => Ok(out.push(2)?),
        Ty::Region => Ok(out.push(3)?),
        Ty::Struct(number) => {
            out.push(4)?;
            Ok(out.extend_from_slice(&number.to_le_bytes())?)
        }
        Ty::Pointer(note, target) => {
            out.push(note_key(*note))?;
            add_type_key(out, target)
        }
    }
}

/// The key of an operand of the type at the height. It has a key of its own.
pub fn kept_key(alloc: Global, height: usize, ty: &Ty) -> Result<Vec<u8>, NoMemory>
    ensures key { IfOk result (λ r. r.items ≡ kept_key height (ty_of ty.now)) }
    ensures own { OnOk result (HasKey (kept_at height (ty_of ty.now))) }
{
    let mut key = Vec::new(alloc);
    let height = height as u64;
    key.extend_from_slice(&height.to_le_bytes())?;
    add_type_key(&mut key, ty)?;
    Ok(key)
}
