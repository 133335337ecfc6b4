// What types point to.
ghost use Rattle.std.specs.Prelude.{◌≡◌, map, option_map, OnOk};
ghost use Rattle.rc_core.specs.Shapes.{ty_of};
ghost use Rattle.rc_emission.specs.KeptOperands.{same_type};
ghost use Rattle.rc_numbering.specs.Names.{pointed_to, result_names, types_named, with_pointed};
ghost use Rattle.rc_numbering.specs.Tables.{seen_behind};
ghost use Rattle.rc_tables.specs.Kept.{all_types};

use crate::types::TypeTable;
use rc_base::NoMemory;
use rc_core::ty::Ty;

/// Enters what values of a type point to, and what that points to.
pub(crate) fn add_pointed<'a>(types: &mut TypeTable<'a>, ty: &'a Ty) -> Result<(), NoMemory>
    ensures { OnOk result (all_types types.new ≡ seen_behind same_type (all_types types.old) (pointed_to (ty_of ty.now))) }
{
    match ty {
        Ty::Int => Ok(()),
        Ty::Unsigned => Ok(()),
        Ty::Char => Ok(()),
        Ty::Region => Ok(()),
        Ty::Struct(_number) => Ok(()),
        Ty::Pointer(_, target) => {
            types.add(target)?;
            add_pointed(types, target)
        }
    }
}

/// Enters a type and what its values point to.
pub(crate) fn add_with_pointed<'a>(types: &mut TypeTable<'a>, ty: &'a Ty) -> Result<(), NoMemory>
    ensures { OnOk result (all_types types.new ≡ seen_behind same_type (all_types types.old) (with_pointed (ty_of ty.now))) }
{
    types.add(ty)?;
    add_pointed(types, ty)
}

/// Enters what values of these types point to.
pub(crate) fn add_all_pointed<'a>(types: &mut TypeTable<'a>, tys: &'a [Ty]) -> Result<(), NoMemory>
    ensures { OnOk result (all_types types.new ≡ seen_behind same_type (all_types types.old) (types_named (map ty_of tys.now))) }
{
    for ty in tys {
        add_pointed(types, ty)?;
    }
    Ok(())
}

/// Enters what a result points to.
pub(crate) fn add_result<'a>(
    types: &mut TypeTable<'a>,
    result_type: &'a Option<Ty>,
) -> Result<(), NoMemory>
    ensures { OnOk result (all_types types.new ≡ seen_behind same_type (all_types types.old) (result_names (option_map ty_of result_type.now))) }
{
    match result_type {
        None => Ok(()),
        Some(ty) => add_pointed(types, ty),
    }
}

/// Enters these types.
pub(crate) fn add_all<'a>(types: &mut TypeTable<'a>, tys: &'a [Ty]) -> Result<(), NoMemory>
    ensures { OnOk result (all_types types.new ≡ seen_behind same_type (all_types types.old) (map ty_of tys.now)) }
{
    for ty in tys {
        types.add(ty)?;
    }
    Ok(())
}
