// Where a branch is decided, and where a function ends.
ghost use Rattle.std.specs.Prelude.{◌≡◌, ◌++◌, ◌∷◌, [], OnOk, option_map};
ghost use Rattle.rc_core.specs.Shapes.{ty_of};
ghost use Rattle.rc_emission.specs.OperationCode.{at};
ghost use Rattle.rc_emission.specs.StatementCode.{exit_test, zero_code, end_lines};
ghost use Rattle.rc_lines.specs.Bare.{bare, bare_all, bare_code, lines_of};
ghost use Rattle.rc_lines.specs.Over.{deleting_in, types_in, slot_in};

use crate::body::Body;
use crate::instruction::{Instruction, Line};
use crate::lines::push;
use crate::operations::{test, zero_test};
use rc_base::NoMemory;
use rc_core::ty::{Signedness, Ty};
use rc_rlang::code::Test;

/// 0 where a branch isn't taken.
pub fn exit_test<'a>(out: &mut Vec<Line<'a>>, branch: &'a Test) -> Result<(), NoMemory>
    ensures { OnOk result (lines_of out.new.items ≡ lines_of out.old.items ++ at branch.now.line (bare_all (exit_test branch.now.wanted (ty_of branch.now.ty)))) }
{
    if branch.wanted {
        return test(out, branch.line, &branch.ty);
    }
    zero_test(out, branch.line, &branch.ty)
}

/// Zero or null.
pub fn zero<'a>(out: &mut Vec<Line<'a>>, line: u32, ty: &'a Ty) -> Result<(), NoMemory>
    ensures { OnOk result (lines_of out.new.items ≡ lines_of out.old.items ++ at line (bare 0 (zero_code (ty_of ty.now)) ∷ [])) }
{
    let instruction = match ty {
        Ty::Int | Ty::Char => Instruction::Number(Signedness::Signed, 0),
        Ty::Unsigned => Instruction::Number(Signedness::Unsigned, 0),
        Ty::Region | Ty::Struct(_) | Ty::Pointer(..) => Instruction::Null(ty),
    };
    push(out, line, instruction)
}

/// What stands behind the body of a function: it gives zero or null, or nothing.
pub fn end<'a>(out: &mut Vec<Line<'a>>, body: &Body<'a, '_>) -> Result<(), NoMemory>
    ensures { OnOk result (lines_of out.new.items ≡ lines_of out.old.items ++ bare_code 0 (end_lines (slot_in body.now) (deleting_in body.now) (types_in body.now) (option_map ty_of body.now.routine.now.result) body.now.routine.now.line)) }
{
    let line = body.routine.line;
    if let Some(ty) = &body.routine.result {
        zero(out, line, ty)?;
    }
    push(out, line, Instruction::Leave)
}
