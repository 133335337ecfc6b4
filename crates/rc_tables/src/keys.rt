// Keys of types and of paths.
ghost use Rattle.std.specs.Prelude.{◌≡◌, ◌++◌, flat_map, OnOk, IfOk};
ghost use Rattle.std.specs.List.{AllByRecursion as Every};
ghost use Rattle.rc_core.specs.Shapes.{ty_of};
ghost use Rattle.rc_lines.specs.Keys.{type_key, TypeHasKey};
ghost use Rattle.rc_tables.specs.Keys.{index_key, kind_key, path_key, shift_key, IndexHasKey, PathHasKey};

use rc_base::NoMemory;
use rc_code::{Index, Path};
use rc_core::ty::{Signedness, Ty};
use rc_lines::add_type_key;
use std::alloc::Global;

/// The key of a type.
pub(crate) fn type_key(alloc: Global, ty: &Ty) -> Result<Vec<u8>, NoMemory>
    ensures key { IfOk result (λ r. r.items ≡ type_key (ty_of ty.now)) }
    ensures has_key { OnOk result (TypeHasKey (ty_of ty.now)) }
{
    let mut key = Vec::new(alloc);
    add_type_key(&mut key, ty)?;
    Ok(key)
}

fn kind_key(kind: Signedness) -> u8
    ensures { result ≡ kind_key kind }
{
    match kind {
        Signedness::Signed => 0,
        Signedness::Unsigned => 1,
    }
}

fn shift_key(shift: Option<Signedness>) -> u8
    ensures { result ≡ shift_key shift }
{
    match shift {
        None => 2,
        Some(kind) => kind_key(kind),
    }
}

/// Puts the key of an index behind what is there.
fn add_index_key(out: &mut Vec<u8>, index: Index) -> Result<(), NoMemory>
    ensures key { OnOk result (out.new.items ≡ out.old.items ++ index_key index) }
    ensures has_key { IndexHasKey index }
{
    out.push(kind_key(index.kind))?;
    out.extend_from_slice(&index.length.to_le_bytes())?;
    Ok(out.extend_from_slice(&index.stride.to_le_bytes())?)
}

/// Puts the keys of indices behind what is there.
fn add_index_keys(out: &mut Vec<u8>, indices: &[Index]) -> Result<(), NoMemory>
    ensures key { OnOk result (out.new.items ≡ out.old.items ++ flat_map index_key indices.now) }
    ensures has_key { OnOk result (Every IndexHasKey indices.now) }
{
    for index in indices {
        add_index_key(out, *index)?;
    }
    Ok(())
}

/// The key of a path.
///
/// # Errors
///
/// Out of memory, or more indices than 32 bits can count.
pub(crate) fn path_key(alloc: Global, path: &Path) -> Result<Vec<u8>, NoMemory>
    ensures key { IfOk result (λ r. r.items ≡ path_key path.now) }
    ensures has_key { OnOk result (PathHasKey path.now) }
{
    let indices = path.indices.as_slice();
    if indices.len() > u32::MAX as usize {
        return Err(NoMemory);
    }
    let mut key = Vec::new(alloc);
    key.push(shift_key(path.shift))?;
    key.extend_from_slice(&path.type_number.to_le_bytes())?;
    key.extend_from_slice(&path.offset.to_le_bytes())?;
    add_index_keys(&mut key, indices)?;
    Ok(key)
}
