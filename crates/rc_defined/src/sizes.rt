// The cells of structs, each counted once.
ghost use Rattle.std.specs.Prelude.{◌≡◌, ◌≤◌, ◌*◌, List, [], length, map, get_or, IfOk, IfErr};
ghost use Rattle.rc_core.specs.Layout.{Layout, cells_by, fields_cells};
ghost use Rattle.rc_core.specs.Shapes.{ty_of, field_of};
ghost use Rattle.rc_core.specs.WellTyped.{elements};
ghost use Rattle.rc_defined.specs.Fields.{struct_in};
ghost use Rattle.rc_defined.specs.Sizes.{capped, HasSizes};

use crate::fields::{Fields, NamedField};
use rc_base::MOST_GLOBAL_CELLS;
use rc_core::ty::Ty;
use rc_typed_values::{Stop, add};
use std::alloc::Global;

/// The most that is told of a number of cells.
const MOST: u64 = MOST_GLOBAL_CELLS + 1;

#[tactic(auto, using(crate::proofs::Counted::count_at))]
fn size_at(sizes: &[u32], number: u32) -> u32
    ensures { (layouts : List Layout) → sizes.now ≡ map (λ (l : Layout). capped (length l)) layouts → result ≡ capped (length (get_or layouts number [])) }
{
    match sizes.get(number as usize) {
        None => 0,
        Some(size) => *size,
    }
}

/// The cells of a type, where the structs before have these.
pub fn size_by(sizes: &[u32], ty: &Ty) -> u32
    ensures { (layouts : List Layout) → sizes.now ≡ map (λ (l : Layout). capped (length l)) layouts → result ≡ capped (length (cells_by layouts (ty_of ty.now))) }
{
    match ty {
        Ty::Int => 1,
        Ty::Unsigned => 1,
        Ty::Char => 1,
        Ty::Region => 1,
        Ty::Struct(number) => size_at(sizes, *number),
        Ty::Pointer(_, _) => 1,
    }
}

/// The cells of one value, or of an array.
pub fn cells_of(size: u32, length: Option<u32>) -> u64
    ensures value { result ≡ elements length * size }
    ensures bound { result ≤ 18446744065119617025 }
{
    match length {
        None => size as u64,
        Some(count) => count as u64 * size as u64,
    }
}

fn limited(cells: u64) -> u64
    ensures value { result ≡ capped cells }
    ensures bound { result ≤ 1048577 }
{
    if cells < MOST {
        return cells;
    }
    MOST
}

/// The cells of a struct with these fields.
#[tactic(auto, using(crate::proofs::Counted::size_step, crate::proofs::Counted::size_end))]
fn fields_size(sizes: &[u32], fields: &[NamedField]) -> u32
    ensures { (layouts : List Layout) → sizes.now ≡ map (λ (l : Layout). capped (length l)) layouts → result ≡ capped (length (fields_cells layouts (map (λ f. field_of f.field) fields.now))) }
{
    let mut total = 0u64;
    for named in fields {
        let size = size_by(sizes, &named.field.ty);
        total = limited(total + cells_of(size, named.field.length));
    }
    total as u32
}

/// The cells of each struct.
pub(crate) fn sizes_of(alloc: Global, structs: &[Fields]) -> Result<Vec<u32>, Stop>
    ensures ok { IfOk result (λ sizes. HasSizes (map struct_in structs.now) sizes.items) }
    ensures err { IfErr result (λ s. s ≡ Stop.Memory) }
{
    let mut sizes = Vec::new(alloc);
    for structure in structs {
        let size = fields_size(sizes.as_slice(), structure.fields.as_slice());
        add(&mut sizes, size)?;
    }
    Ok(sizes)
}
