// What the operations of region code become.
ghost use Rattle.std.specs.Prelude.{◌≡◌, ◌++◌, ◌<◌, OnOk};
ghost use Rattle.rc_core.specs.Shapes.{ty_of};
ghost use Rattle.rc_emission.specs.OperationCode.{at, zero_test, test_code, wanted_code, compared, count_code, convert_code, exchange};
ghost use Rattle.rc_emission.specs.StatementCode.{set_code};
ghost use Rattle.rc_rlang.specs.LiveLists.{operation_lists};
ghost use Rattle.rc_lines.specs.Over.{deleting_in, types_in, slot_in, operation_in, Listed, OperationListed};
ghost use Rattle.rc_core.specs.Typing.{is_shift};
ghost use Rattle.rc_rlang.specs.RegionKinds.{signed_of};
ghost use Rattle.rc_lines.specs.Bare.{bare_all, lines_of};

use crate::body::Body;
use crate::instruction::{Instruction, Line, Reach};
use crate::lines::{add, push};
use rc_base::NoMemory;
use rc_core::operators::{Direction, Operator};
use rc_core::ty::{NumberType, Signedness, Ty};
use rc_rlang::steps::Operation;

/// 1 where the operand of this type is zero or null, else 0.
pub(crate) fn zero_test<'a>(out: &mut Vec<Line<'a>>, line: u32, ty: &'a Ty) -> Result<(), NoMemory>
    ensures { OnOk result (lines_of out.new.items ≡ lines_of out.old.items ++ at line (bare_all (zero_test (ty_of ty.now)))) }
{
    match ty {
        Ty::Int | Ty::Char => push(out, line, Instruction::ZeroTest),
        Ty::Unsigned => add(
            out,
            line,
            &[Instruction::Convert(NumberType::Int), Instruction::ZeroTest],
        ),
        Ty::Region | Ty::Struct(_) | Ty::Pointer(..) => {
            push(out, line, Instruction::NullTest(ty))
        }
    }
}

/// 0 where the operand of this type is zero or null.
pub(crate) fn test<'a>(out: &mut Vec<Line<'a>>, line: u32, ty: &'a Ty) -> Result<(), NoMemory>
    ensures { OnOk result (lines_of out.new.items ≡ lines_of out.old.items ++ at line (bare_all (test_code (ty_of ty.now)))) }
{
    match ty {
        Ty::Int | Ty::Char => Ok(()),
        Ty::Unsigned => push(out, line, Instruction::Convert(NumberType::Int)),
        Ty::Region | Ty::Struct(_) | Ty::Pointer(..) => add(
            out,
            line,
            &[Instruction::NullTest(ty), Instruction::ZeroTest],
        ),
    }
}

/// The opposite, unless the value itself is wanted.
fn as_wanted(out: &mut Vec<Line<'_>>, line: u32, wanted: bool) -> Result<(), NoMemory>
    ensures { OnOk result (lines_of out.new.items ≡ lines_of out.old.items ++ at line (bare_all (wanted_code wanted))) }
{
    if wanted {
        return Ok(());
    }
    push(out, line, Instruction::ZeroTest)
}

/// Arithmetic on two operands. The comparisons that stack code hasn't are the opposites of those that
/// it has.
pub(crate) fn arithmetic(
    out: &mut Vec<Line<'_>>,
    line: u32,
    operator: Operator,
    signedness: Signedness,
) -> Result<(), NoMemory>
    ensures { OnOk result (lines_of out.new.items ≡ lines_of out.old.items ++ at line (bare_all (compared operator signedness))) }
{
    let opposite = match operator {
        Operator::Greater => Operator::LessEqual,
        Operator::GreaterEqual => Operator::Less,
        Operator::NotEqual => Operator::Equal,
        _ => return push(out, line, Instruction::Arithmetic(operator, signedness)),
    };
    add(
        out,
        line,
        &[
            Instruction::Arithmetic(opposite, signedness),
            Instruction::ZeroTest,
        ],
    )
}

/// The count of a shift is an `int`.
fn as_count<'a>(
    out: &mut Vec<Line<'a>>,
    line: u32,
    operator: Operator,
    right: &'a Ty,
) -> Result<(), NoMemory>
    ensures { OnOk result (lines_of out.new.items ≡ lines_of out.old.items ++ at line (bare_all (count_code (is_shift operator) (ty_of right.now)))) }
{
    match (operator, right) {
        (Operator::ShiftLeft | Operator::ShiftRight, Ty::Unsigned) => {
            push(out, line, Instruction::Convert(NumberType::Int))
        }
        _ => Ok(()),
    }
}

/// Arithmetic whose right operand has a type of its own.
pub(crate) fn binary<'a>(
    out: &mut Vec<Line<'a>>,
    line: u32,
    operator: Operator,
    signedness: Signedness,
    right: &'a Ty,
) -> Result<(), NoMemory>
    ensures { OnOk result (lines_of out.new.items ≡ lines_of out.old.items ++ at line (bare_all (count_code (is_shift operator) (ty_of right.now) ++ compared operator signedness))) }
{
    as_count(out, line, operator, right)?;
    arithmetic(out, line, operator, signedness)
}

/// A `char` is an `int` as it is.
pub(crate) fn convert(
    out: &mut Vec<Line<'_>>,
    line: u32,
    from: NumberType,
    to: NumberType,
) -> Result<(), NoMemory>
    ensures { OnOk result (lines_of out.new.items ≡ lines_of out.old.items ++ at line (bare_all (convert_code from to))) }
{
    match (from, to) {
        (NumberType::Char | NumberType::Int, NumberType::Int) => Ok(()),
        (NumberType::Unsigned, NumberType::Unsigned) => Ok(()),
        (NumberType::Char, NumberType::Char) => Ok(()),
        (NumberType::Unsigned, NumberType::Char) => add(
            out,
            line,
            &[
                Instruction::Convert(NumberType::Int),
                Instruction::Convert(NumberType::Char),
            ],
        ),
        _ => push(out, line, Instruction::Convert(to)),
    }
}

/// By which kind of number a pointer is stepped.
pub(crate) fn signed_of(ty: &Ty) -> Signedness
    ensures { result ≡ signed_of (ty_of ty.now) }
{
    match ty {
        Ty::Unsigned => Signedness::Unsigned,
        _ => Signedness::Signed,
    }
}

/// Two operands change places: the lower one has the height.
fn exchange<'a>(
    out: &mut Vec<Line<'a>>,
    body: &Body<'a, '_>,
    line: u32,
    height: usize,
    low: &Ty,
    high: &Ty,
) -> Result<(), NoMemory>
    requires { height < 4294967296 }
    ensures { OnOk result (lines_of out.new.items ≡ lines_of out.old.items ++ at line (bare_all (exchange (slot_in body.now) height (ty_of low.now) (ty_of high.now)))) }
{
    let lower = body.slot(height, low)?;
    let upper = body.slot(height + 1, high)?;
    add(
        out,
        line,
        &[
            Instruction::Set(upper),
            Instruction::Set(lower),
            Instruction::Get(upper),
            Instruction::Get(lower),
        ],
    )
}

/// Where an operation stands: the line that it is made for, the temporary into which its value comes,
/// and its point.
#[derive(Clone, Copy)]
pub(crate) struct Spot {
    pub(crate) line: u32,
    pub(crate) temporary: u32,
    pub(crate) point: u32,
}

/// An operation whose value is of a type.
pub(crate) fn operation<'a>(
    out: &mut Vec<Line<'a>>,
    body: &Body<'a, '_>,
    spot: Spot,
    ty: &'a Ty,
    operation: &'a Operation,
) -> Result<(), NoMemory>
    requires { OperationListed body.now operation.now spot.point }
    ensures { (live : _) → Listed body.now.live.now (operation_lists (deleting_in body.now) (types_in body.now) (operation_in body.now operation.now) spot.point live) → OnOk result (lines_of out.new.items ≡ lines_of out.old.items ++ at spot.line (bare_all (set_code (slot_in body.now) (deleting_in body.now) (types_in body.now) spot.temporary (ty_of ty.now) (operation_in body.now operation.now) live))) }
{
    let line = spot.line;
    match operation {
        Operation::Constant { signedness, value } => {
            push(out, line, Instruction::Number(*signedness, *value))
        }
        Operation::Null => push(out, line, Instruction::Null(ty)),
        Operation::Static { object } => push(out, line, Instruction::Global(*object)),
        Operation::Copy { local } => push(out, line, Instruction::Get(*local)),
        Operation::Load { access } => push(
            out,
            line,
            Instruction::Load(Reach { access, further: 0 }),
        ),
        Operation::Step {
            direction,
            pointer,
            number,
        } => push(
            out,
            line,
            Instruction::Move(pointer, signed_of(number), *direction),
        ),
        Operation::StepFrom { number, pointer } => {
            exchange(out, body, line, spot.temporary as usize, number, pointer)?;
            push(
                out,
                line,
                Instruction::Move(pointer, signed_of(number), Direction::Forward),
            )
        }
        Operation::Unary {
            operator,
            signedness,
        } => push(out, line, Instruction::Unary(*operator, *signedness)),
        Operation::Binary {
            operator,
            signedness,
            right,
        } => binary(out, line, *operator, *signedness, right),
        Operation::Convert { from, to } => convert(out, line, *from, *to),
        Operation::NotZero { operand } => zero_test(out, line, operand),
        Operation::Truth { operand } => {
            zero_test(out, line, operand)?;
            push(out, line, Instruction::ZeroTest)
        }
        Operation::IsNull { wanted, operand } => {
            push(out, line, Instruction::NullTest(operand))?;
            as_wanted(out, line, *wanted)
        }
        Operation::Same { wanted, operand } => {
            push(out, line, Instruction::Same(operand))?;
            as_wanted(out, line, *wanted)
        }
        Operation::Call { function, .. } => push(
            out,
            line,
            Instruction::Call(*function, body.pins(*function, spot.point)),
        ),
        Operation::NewRegion => push(out, line, Instruction::NewRegion),
        Operation::NewSubregion => push(out, line, Instruction::NewSubregion),
        Operation::RegionOf { operand } => push(out, line, Instruction::RegionOf(operand)),
        Operation::Allocate { element } => push(out, line, Instruction::Allocate(element)),
        Operation::AllocateArray { element } => {
            push(out, line, Instruction::AllocateArray(element))
        }
        Operation::Putchar => push(out, line, Instruction::Putchar),
        Operation::Getchar => push(out, line, Instruction::Getchar),
    }
}
