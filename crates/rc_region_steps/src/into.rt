// Steps that are put behind others.

ghost use Rattle.std.specs.Prelude.{◌≡◌, List, OnOk};
ghost use Rattle.rc_core.specs.Programs.{Struct};
ghost use Rattle.rc_core.specs.Shapes.{ty_of};
ghost use Rattle.rc_rlang.specs.RegionCode as rlang;
ghost use Rattle.rc_rlang.specs.RegionCode.{one};
ghost use Rattle.rc_rlang.specs.Shapes.{operation_of, steps_of};
ghost use Rattle.rc_region_steps.specs.Adding.{Adds};

use rc_base::NoMemory;
use rc_core::ty::{Signedness, Ty};
use rc_rlang::steps::{Operation, Step};

/// Where a value comes: the temporary, the type as which it stands there, and the line of its step.
#[derive(Drop)]
pub(crate) struct Into {
    pub(crate) line: u32,
    pub(crate) temporary: u32,
    pub(crate) ty: Ty,
}

pub(crate) fn at(line: u32, temporary: u32, ty: Ty) -> Into
    ensures line { result.line ≡ line }
    ensures temporary { result.temporary ≡ temporary }
    ensures ty { result.ty ≡ ty }
{
    Into {
        line,
        temporary,
        ty,
    }
}

/// Adds a step that does an operation.
#[tactic(auto, using(crate::proofs::Behind::adds_set))]
pub(crate) fn set(steps: &mut Vec<Step>, into: Into, operation: Operation) -> Result<(), NoMemory>
    ensures { (structs : List Struct) → OnOk result (Adds structs steps.old.items steps.new.items (one (rlang.set into.line into.temporary (ty_of into.ty) (operation_of structs operation)))) }
{
    steps.push(Step::Set {
        line: into.line,
        temporary: into.temporary,
        ty: into.ty,
        operation,
    })?;
    Ok(())
}

/// Adds a step that gives a number of the program.
pub(crate) fn constant(
    steps: &mut Vec<Step>,
    into: Into,
    signedness: Signedness,
    value: i64,
) -> Result<(), NoMemory>
    ensures { (structs : List Struct) → OnOk result (Adds structs steps.old.items steps.new.items (one (rlang.set into.line into.temporary (ty_of into.ty) (rlang.constant signedness value)))) }
{
    set(steps, into, Operation::Constant { signedness, value })
}

/// Adds a step that goes one of two ways, by a value of this type.
#[tactic(auto, using(crate::proofs::Behind::adds_fork))]
pub(crate) fn fork(
    steps: &mut Vec<Step>,
    into: Into,
    test: Ty,
    yes: Vec<Step>,
    no: Vec<Step>,
) -> Result<(), NoMemory>
    ensures { (structs : List Struct) → OnOk result (Adds structs steps.old.items steps.new.items (one (rlang.fork into.line into.temporary (ty_of test) (ty_of into.ty) (steps_of structs yes.items) (steps_of structs no.items)))) }
{
    steps.push(Step::Fork {
        line: into.line,
        temporary: into.temporary,
        test,
        result: into.ty,
        yes,
        no,
    })?;
    Ok(())
}
