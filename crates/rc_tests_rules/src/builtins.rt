// The table of built-in functions.

use rc_core::ty::Ty;
use rc_deletes::Builtin;
use std::test::Fail;

fn gives_int(builtin: Builtin) -> bool {
    matches!(builtin.gives(), Some(Ty::Int))
}

#[test]
fn built_in_functions_are_rows_of_a_table(rt: HostRuntime) -> Result<(), Fail> {
    assert!(rt; Builtin::all().len() == 6);
    assert!(rt; Builtin::Putchar.name() == b"putchar".as_slice());
    assert!(rt; Builtin::NewRegion.parameters().len() == 0);
    assert!(rt; Builtin::RegionOf.parameters().len() == 1);
    assert!(rt; gives_int(Builtin::Getchar));
    assert!(rt; Builtin::DeleteRegion.gives().is_none());
    assert!(rt; Builtin::DeleteRegion.deletes());
    assert!(rt; !Builtin::NewSubregion.deletes());
    Ok(())
}
