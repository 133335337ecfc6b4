// The cells of the largest struct, built of arrays of structs.
ghost use Rattle.std.specs.Prelude.{◌≡◌, ◌∷◌, [], None, Some, length, IfOk};
ghost use Rattle.rc_core.specs.Programs.{Field};
ghost use Rattle.rc_core.specs.Shapes.{program_of, struct_of};
ghost use Rattle.rc_core.specs.Types.{char, pointer, struct};
ghost use Rattle.rc_core.specs.WellTyped.{IsWellTyped};
ghost use Rattle.rc_core.specs.declared.ty.Note.TheVariants.{SameRegion};

use rc_core::cells::{cells_of, copy_of};
use rc_core::expr::Expr;
use rc_core::layout::CellKind;
use rc_core::parts::{Field, Function, Parts, Struct};
use rc_core::program::Program;
use rc_core::stmt::Stmt;
use rc_core::ty::{Note, Signedness, Ty};
use std::alloc::{AllocError, Global};
use std::test::Fail;

/// `struct s { struct s *sameregion next; char text[15]; }`
fn first(alloc: Global) -> Result<Struct, AllocError>
    ensures { IfOk result (λ s. struct_of s ≡ record { ty = pointer SameRegion (struct 0); count = None } ∷ record { ty = char; count = Some 15 } ∷ []) }
{
    let target = Box::new(alloc, Ty::Struct(0))?;
    let next = Field {
        ty: Ty::Pointer(Note::SameRegion, target),
        length: None,
    };
    let text = Field {
        ty: Ty::Char,
        length: Some(15),
    };
    let fields = vec![in alloc; next, text]?;
    Ok(Struct { fields })
}

/// A struct that is an array of 16 others.
fn array_of(alloc: Global, number: u32) -> Result<Struct, AllocError>
    ensures { IfOk result (λ s. struct_of s ≡ record { ty = struct number; count = Some 16 } ∷ []) }
{
    let all = Field {
        ty: Ty::Struct(number),
        length: Some(16),
    };
    let fields = vec![in alloc; all]?;
    Ok(Struct { fields })
}

/// Structs of 16, 256 and 4,096 cells.
fn nested(alloc: Global) -> Result<Parts, AllocError>
    ensures well_typed { IfOk result (λ p. IsWellTyped (program_of p)) }
    ensures three { IfOk result (λ p. length p.structs.items ≡ 3) }
{
    let a = first(alloc)?;
    let b = array_of(alloc, 0)?;
    let c = array_of(alloc, 1)?;
    let structs = vec![in alloc; a, b, c]?;
    let zero = Expr::Constant {
        line: 1,
        signedness: Signedness::Signed,
        value: 0,
    };
    let main = Function {
        parameters: 0,
        locals: Vec::new(alloc),
        result: Some(Ty::Int),
        deletes: false,
        line: 1,
        body: Stmt::Return {
            line: 1,
            value: Some(zero),
        },
    };
    let functions = vec![in alloc; main]?;
    Ok(Parts {
        structs,
        globals: Vec::new(alloc),
        strings: Vec::new(alloc),
        functions,
        main: 0,
    })
}

/// Whether a cell is the pointer of the first struct.
fn is_next(cell: &CellKind) -> bool {
    match cell {
        CellKind::Pointer(Note::SameRegion, target) => *target == Ty::Struct(0),
        _ => false,
    }
}

/// Whether the cells are 256 of those of the first struct: its pointer, and 15 of type `char`.
fn are_those_of_first(cells: &[CellKind]) -> bool {
    for (at, cell) in cells.iter().enumerate() {
        if is_next(cell) != (at % 16 == 0) || (*cell == CellKind::Char) != (at % 16 != 0) {
            return false;
        }
    }
    cells.len() == 4096
}

fn largest_struct_has_its_cells(alloc: Global) -> Result<bool, Fail> {
    let program = Program::new(nested(alloc)?);
    let layout = cells_of(alloc, &program, &Ty::Struct(2))?;
    Ok(are_those_of_first(layout.cells.as_slice()))
}

#[test]
fn the_largest_struct_has_its_cells(rt: HostRuntime) -> Result<(), Fail> {
    assert!(rt; largest_struct_has_its_cells(rt.alloc())?);
    Ok(())
}

fn copy_is_equal(alloc: Global) -> Result<bool, Fail> {
    let ty = Ty::Pointer(Note::ParentPtr, Box::new(alloc, Ty::Struct(7))?);
    Ok(copy_of(alloc, &ty)? == ty)
}

#[test]
fn a_copy_is_equal(rt: HostRuntime) -> Result<(), Fail> {
    assert!(rt; copy_is_equal(rt.alloc())?);
    Ok(())
}
