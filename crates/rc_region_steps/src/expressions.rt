// The code of expressions. Each node has a function of its own.

ghost use Rattle.std.specs.Prelude.{◌≡◌, map, IfOk, OnOk};
ghost use Rattle.rc_core.specs.Laid.{AreLaidOut};
ghost use Rattle.rc_core.specs.Programs as from;
ghost use Rattle.rc_core.specs.Shapes.{expr_of, place_of, arguments_of, ty_of, program_of};
ghost use Rattle.rc_core.specs.declared.ty.Signedness.TheVariants.{Signed};
ghost use Rattle.rc_rlang.specs.RegionCode as rlang;
ghost use Rattle.rc_rlang.specs.RegionCode.{both, one};
ghost use Rattle.rc_rlang.specs.Shapes.{steps_of};
ghost use Rattle.rc_translation.specs.Translation as translation;
ghost use Rattle.rc_region_steps.specs.Arguments.{argument_at};
ghost use Rattle.rc_region_steps.specs.Adding.{AddsExpression, AddsArguments};

use crate::into::{Into, at, constant, fork, set};
use crate::places::place;
use rc_accesses::{
    Scope, access, arithmetic, expression_type, index_type, narrowed, number, parameter_types,
    pointer_type, together, value_type,
};
use rc_base::NoMemory;
use rc_core::cells::copy_of;
use rc_core::expr::{Expr, Place};
use rc_core::operators::{Direction, Operator, UnaryOperator};
use rc_core::ty::{NumberType, Signedness, Ty};
use rc_rlang::steps::{Operation, Step};

/// The pointer to the first byte of a string, whose object stands behind those of the globals.
#[inline(never)]
#[tactic(auto, using(crate::proofs::Behind::globals_there))]
fn string(string: u32, scope: &Scope<'_>, steps: &mut Vec<Step>, into: Into) -> Result<(), NoMemory>
    requires laid { AreLaidOut (program_of scope.now.parts.now).structs scope.now.layouts.now }
    ensures { OnOk result (AddsExpression (program_of scope.now.parts.now) (map ty_of scope.now.locals.now) steps.old.items steps.new.items (from.string into.line string) (ty_of into.ty) into.temporary) }
{
    let object = together(narrowed(scope.parts.globals.len() as u64)?, string)?;
    set(steps, into, Operation::Static { object })
}

/// A place as a value.
#[inline(never)]
#[cycle(expressions)]
#[tactic(auto, using(crate::proofs::Behind::two_on))]
fn read(place: &Place, scope: &Scope<'_>, steps: &mut Vec<Step>, into: Into) -> Result<(), NoMemory>
    requires laid { AreLaidOut (program_of scope.now.parts.now).structs scope.now.layouts.now }
    ensures { OnOk result (AddsExpression (program_of scope.now.parts.now) (map ty_of scope.now.locals.now) steps.old.items steps.new.items (from.read into.line (place_of place.now)) (ty_of into.ty) into.temporary) }
{
    self::place(place, scope, steps, into.line, into.temporary)?;
    let access = access(scope, place)?;
    set(steps, into, Operation::Load { access })
}

/// A pointer that is stepped by a number.
#[inline(never)]
#[cycle(expressions)]
#[tactic(auto, using(crate::proofs::Behind::three_on))]
fn step(
    direction: Direction,
    pointer: &Expr,
    number: &Expr,
    scope: &Scope<'_>,
    steps: &mut Vec<Step>,
    into: Into,
) -> Result<(), NoMemory>
    requires laid { AreLaidOut (program_of scope.now.parts.now).structs scope.now.layouts.now }
    ensures { OnOk result (AddsExpression (program_of scope.now.parts.now) (map ty_of scope.now.locals.now) steps.old.items steps.new.items (from.step into.line direction (expr_of pointer.now) (expr_of number.now)) (ty_of into.ty) into.temporary) }
{
    let next = together(into.temporary, 1)?;
    let pointer_ty = pointer_type(scope, pointer)?;
    let number_ty = index_type(scope, number)?;
    expression(
        pointer,
        scope,
        steps,
        copy_of(scope.alloc, &pointer_ty)?,
        into.temporary,
    )?;
    expression(
        number,
        scope,
        steps,
        copy_of(scope.alloc, &number_ty)?,
        next,
    )?;
    set(
        steps,
        into,
        Operation::Step {
            direction,
            pointer: pointer_ty,
            number: number_ty,
        },
    )
}

/// The same, where the number comes first.
#[inline(never)]
#[cycle(expressions)]
#[tactic(auto, using(crate::proofs::Behind::three_on))]
fn step_from(
    number: &Expr,
    pointer: &Expr,
    scope: &Scope<'_>,
    steps: &mut Vec<Step>,
    into: Into,
) -> Result<(), NoMemory>
    requires laid { AreLaidOut (program_of scope.now.parts.now).structs scope.now.layouts.now }
    ensures { OnOk result (AddsExpression (program_of scope.now.parts.now) (map ty_of scope.now.locals.now) steps.old.items steps.new.items (from.step_from into.line (expr_of number.now) (expr_of pointer.now)) (ty_of into.ty) into.temporary) }
{
    let next = together(into.temporary, 1)?;
    let number_ty = index_type(scope, number)?;
    let pointer_ty = pointer_type(scope, pointer)?;
    expression(
        number,
        scope,
        steps,
        copy_of(scope.alloc, &number_ty)?,
        into.temporary,
    )?;
    expression(
        pointer,
        scope,
        steps,
        copy_of(scope.alloc, &pointer_ty)?,
        next,
    )?;
    set(
        steps,
        into,
        Operation::StepFrom {
            number: number_ty,
            pointer: pointer_ty,
        },
    )
}

/// An operator on one number. Unary `+` is no operation.
#[inline(never)]
#[cycle(expressions)]
#[tactic(auto, using(crate::proofs::Behind::two_on))]
fn unary(
    operator: UnaryOperator,
    signedness: Signedness,
    operand: &Expr,
    scope: &Scope<'_>,
    steps: &mut Vec<Step>,
    into: Into,
) -> Result<(), NoMemory>
    requires laid { AreLaidOut (program_of scope.now.parts.now).structs scope.now.layouts.now }
    ensures { OnOk result (AddsExpression (program_of scope.now.parts.now) (map ty_of scope.now.locals.now) steps.old.items steps.new.items (from.unary into.line operator signedness (expr_of operand.now)) (ty_of into.ty) into.temporary) }
{
    match operator {
        UnaryOperator::Plus => expression(operand, scope, steps, into.ty, into.temporary),
        UnaryOperator::Negate => {
            expression(
                operand,
                scope,
                steps,
                arithmetic(signedness),
                into.temporary,
            )?;
            set(
                steps,
                into,
                Operation::Unary {
                    operator,
                    signedness,
                },
            )
        }
        UnaryOperator::Complement => {
            expression(
                operand,
                scope,
                steps,
                arithmetic(signedness),
                into.temporary,
            )?;
            set(
                steps,
                into,
                Operation::Unary {
                    operator,
                    signedness,
                },
            )
        }
    }
}

/// An operator on two numbers.
#[inline(never)]
#[cycle(expressions)]
#[tactic(auto, using(crate::proofs::Behind::three_on))]
fn binary(
    operator: Operator,
    signedness: Signedness,
    left: &Expr,
    right: &Expr,
    scope: &Scope<'_>,
    steps: &mut Vec<Step>,
    into: Into,
) -> Result<(), NoMemory>
    requires laid { AreLaidOut (program_of scope.now.parts.now).structs scope.now.layouts.now }
    ensures { OnOk result (AddsExpression (program_of scope.now.parts.now) (map ty_of scope.now.locals.now) steps.old.items steps.new.items (from.binary into.line operator signedness (expr_of left.now) (expr_of right.now)) (ty_of into.ty) into.temporary) }
{
    let next = together(into.temporary, 1)?;
    let right_ty = expression_type(scope, right)?;
    expression(left, scope, steps, arithmetic(signedness), into.temporary)?;
    expression(right, scope, steps, copy_of(scope.alloc, &right_ty)?, next)?;
    set(
        steps,
        into,
        Operation::Binary {
            operator,
            signedness,
            right: right_ty,
        },
    )
}

/// A conversion.
#[inline(never)]
#[cycle(expressions)]
#[tactic(auto, using(crate::proofs::Behind::two_on))]
fn convert(
    given: NumberType,
    to: NumberType,
    operand: &Expr,
    scope: &Scope<'_>,
    steps: &mut Vec<Step>,
    into: Into,
) -> Result<(), NoMemory>
    requires laid { AreLaidOut (program_of scope.now.parts.now).structs scope.now.layouts.now }
    ensures { OnOk result (AddsExpression (program_of scope.now.parts.now) (map ty_of scope.now.locals.now) steps.old.items steps.new.items (from.convert into.line given to (expr_of operand.now)) (ty_of into.ty) into.temporary) }
{
    expression(operand, scope, steps, number(given), into.temporary)?;
    set(steps, into, Operation::Convert { from: given, to })
}

/// `!` of a number.
#[inline(never)]
#[cycle(expressions)]
#[tactic(auto, using(crate::proofs::Behind::two_on))]
fn not_zero(
    operand: &Expr,
    scope: &Scope<'_>,
    steps: &mut Vec<Step>,
    into: Into,
) -> Result<(), NoMemory>
    requires laid { AreLaidOut (program_of scope.now.parts.now).structs scope.now.layouts.now }
    ensures { OnOk result (AddsExpression (program_of scope.now.parts.now) (map ty_of scope.now.locals.now) steps.old.items steps.new.items (from.not_zero into.line (expr_of operand.now)) (ty_of into.ty) into.temporary) }
{
    let operand_ty = expression_type(scope, operand)?;
    expression(
        operand,
        scope,
        steps,
        copy_of(scope.alloc, &operand_ty)?,
        into.temporary,
    )?;
    set(
        steps,
        into,
        Operation::NotZero {
            operand: operand_ty,
        },
    )
}

/// The truth of the right side of `&&` or `||`.
#[inline(never)]
#[cycle(expressions)]
#[tactic(auto, using(crate::proofs::Behind::truth_alone))]
fn truth(e: &Expr, scope: &Scope<'_>, into: &Into) -> Result<Vec<Step>, NoMemory>
    requires laid { AreLaidOut (program_of scope.now.parts.now).structs scope.now.layouts.now }
    ensures { IfOk result (λ v. steps_of (program_of scope.now.parts.now).structs v.items ≡ both (translation.expression_code (program_of scope.now.parts.now) (map ty_of scope.now.locals.now) (expr_of e.now) (translation.expression_type (program_of scope.now.parts.now) (map ty_of scope.now.locals.now) (expr_of e.now)) into.now.temporary) (one (rlang.set into.now.line into.now.temporary (ty_of into.now.ty) (rlang.truth (translation.expression_type (program_of scope.now.parts.now) (map ty_of scope.now.locals.now) (expr_of e.now)))))) }
{
    let mut steps = Vec::new(scope.alloc);
    let operand = expression_type(scope, e)?;
    let ty = copy_of(scope.alloc, &into.ty)?;
    expression(
        e,
        scope,
        &mut steps,
        copy_of(scope.alloc, &operand)?,
        into.temporary,
    )?;
    set(
        &mut steps,
        Into {
            line: into.line,
            temporary: into.temporary,
            ty,
        },
        Operation::Truth { operand },
    )?;
    Ok(steps)
}

/// The value of `&&` or `||` that the left side decides.
#[tactic(auto, using(crate::proofs::Behind::alone))]
fn decided(scope: &Scope<'_>, into: &Into, value: i64) -> Result<Vec<Step>, NoMemory>
    ensures { IfOk result (λ v. steps_of (program_of scope.now.parts.now).structs v.items ≡ one (rlang.set into.now.line into.now.temporary (ty_of into.now.ty) (rlang.constant Signed value))) }
{
    let mut steps = Vec::new(scope.alloc);
    let ty = copy_of(scope.alloc, &into.ty)?;
    constant(
        &mut steps,
        Into {
            line: into.line,
            temporary: into.temporary,
            ty,
        },
        Signedness::Signed,
        value,
    )?;
    Ok(steps)
}

/// One way of a choice.
#[inline(never)]
#[cycle(expressions)]
#[tactic(auto, using(crate::proofs::Behind::alone))]
fn one_way(e: &Expr, scope: &Scope<'_>, ty: Ty, temporary: u32) -> Result<Vec<Step>, NoMemory>
    requires laid { AreLaidOut (program_of scope.now.parts.now).structs scope.now.layouts.now }
    ensures { IfOk result (λ v. steps_of (program_of scope.now.parts.now).structs v.items ≡ translation.expression_code (program_of scope.now.parts.now) (map ty_of scope.now.locals.now) (expr_of e.now) (ty_of ty) temporary) }
{
    let mut steps = Vec::new(scope.alloc);
    expression(e, scope, &mut steps, ty, temporary)?;
    Ok(steps)
}

/// `&&`.
#[inline(never)]
#[cycle(expressions)]
#[tactic(auto, using(crate::proofs::Behind::fork_on))]
fn and(
    left: &Expr,
    right: &Expr,
    scope: &Scope<'_>,
    steps: &mut Vec<Step>,
    into: Into,
) -> Result<(), NoMemory>
    requires laid { AreLaidOut (program_of scope.now.parts.now).structs scope.now.layouts.now }
    ensures { OnOk result (AddsExpression (program_of scope.now.parts.now) (map ty_of scope.now.locals.now) steps.old.items steps.new.items (from.and into.line (expr_of left.now) (expr_of right.now)) (ty_of into.ty) into.temporary) }
{
    let test = expression_type(scope, left)?;
    expression(
        left,
        scope,
        steps,
        copy_of(scope.alloc, &test)?,
        into.temporary,
    )?;
    let yes = truth(right, scope, &into)?;
    let no = decided(scope, &into, 0)?;
    fork(steps, into, test, yes, no)
}

/// `||`.
#[inline(never)]
#[cycle(expressions)]
#[tactic(auto, using(crate::proofs::Behind::fork_on))]
fn or(
    left: &Expr,
    right: &Expr,
    scope: &Scope<'_>,
    steps: &mut Vec<Step>,
    into: Into,
) -> Result<(), NoMemory>
    requires laid { AreLaidOut (program_of scope.now.parts.now).structs scope.now.layouts.now }
    ensures { OnOk result (AddsExpression (program_of scope.now.parts.now) (map ty_of scope.now.locals.now) steps.old.items steps.new.items (from.or into.line (expr_of left.now) (expr_of right.now)) (ty_of into.ty) into.temporary) }
{
    let test = expression_type(scope, left)?;
    expression(
        left,
        scope,
        steps,
        copy_of(scope.alloc, &test)?,
        into.temporary,
    )?;
    let yes = decided(scope, &into, 1)?;
    let no = truth(right, scope, &into)?;
    fork(steps, into, test, yes, no)
}

/// `?:`.
#[inline(never)]
#[cycle(expressions)]
#[tactic(auto, using(crate::proofs::Behind::fork_on))]
fn choose(
    test: &Expr,
    yes: &Expr,
    no: &Expr,
    scope: &Scope<'_>,
    steps: &mut Vec<Step>,
    into: Into,
) -> Result<(), NoMemory>
    requires laid { AreLaidOut (program_of scope.now.parts.now).structs scope.now.layouts.now }
    ensures { OnOk result (AddsExpression (program_of scope.now.parts.now) (map ty_of scope.now.locals.now) steps.old.items steps.new.items (from.choose into.line (expr_of test.now) (expr_of yes.now) (expr_of no.now)) (ty_of into.ty) into.temporary) }
{
    let test_ty = expression_type(scope, test)?;
    expression(
        test,
        scope,
        steps,
        copy_of(scope.alloc, &test_ty)?,
        into.temporary,
    )?;
    let on_yes = one_way(yes, scope, copy_of(scope.alloc, &into.ty)?, into.temporary)?;
    let on_no = one_way(no, scope, copy_of(scope.alloc, &into.ty)?, into.temporary)?;
    fork(steps, into, test_ty, on_yes, on_no)
}

/// A test for null.
#[inline(never)]
#[cycle(expressions)]
#[tactic(auto, using(crate::proofs::Behind::two_on))]
fn is_null(
    wanted: bool,
    operand: &Expr,
    scope: &Scope<'_>,
    steps: &mut Vec<Step>,
    into: Into,
) -> Result<(), NoMemory>
    requires laid { AreLaidOut (program_of scope.now.parts.now).structs scope.now.layouts.now }
    ensures { OnOk result (AddsExpression (program_of scope.now.parts.now) (map ty_of scope.now.locals.now) steps.old.items steps.new.items (from.is_null into.line wanted (expr_of operand.now)) (ty_of into.ty) into.temporary) }
{
    let operand_ty = expression_type(scope, operand)?;
    expression(
        operand,
        scope,
        steps,
        copy_of(scope.alloc, &operand_ty)?,
        into.temporary,
    )?;
    set(
        steps,
        into,
        Operation::IsNull {
            wanted,
            operand: operand_ty,
        },
    )
}

/// A comparison of pointers or regions.
#[inline(never)]
#[cycle(expressions)]
#[tactic(auto, using(crate::proofs::Behind::three_on))]
fn same(
    wanted: bool,
    left: &Expr,
    right: &Expr,
    scope: &Scope<'_>,
    steps: &mut Vec<Step>,
    into: Into,
) -> Result<(), NoMemory>
    requires laid { AreLaidOut (program_of scope.now.parts.now).structs scope.now.layouts.now }
    ensures { OnOk result (AddsExpression (program_of scope.now.parts.now) (map ty_of scope.now.locals.now) steps.old.items steps.new.items (from.same into.line wanted (expr_of left.now) (expr_of right.now)) (ty_of into.ty) into.temporary) }
{
    let next = together(into.temporary, 1)?;
    let operand = expression_type(scope, left)?;
    expression(
        left,
        scope,
        steps,
        copy_of(scope.alloc, &operand)?,
        into.temporary,
    )?;
    expression(right, scope, steps, copy_of(scope.alloc, &operand)?, next)?;
    set(steps, into, Operation::Same { wanted, operand })
}

/// A call of a function with a result.
#[inline(never)]
#[cycle(expressions)]
#[tactic(auto, using(crate::proofs::Behind::two_on))]
fn call(
    function: u32,
    given: &[Expr],
    scope: &Scope<'_>,
    steps: &mut Vec<Step>,
    into: Into,
) -> Result<(), NoMemory>
    requires laid { AreLaidOut (program_of scope.now.parts.now).structs scope.now.layouts.now }
    ensures { OnOk result (AddsExpression (program_of scope.now.parts.now) (map ty_of scope.now.locals.now) steps.old.items steps.new.items (from.call into.line function (arguments_of given.now)) (ty_of into.ty) into.temporary) }
{
    let expected = parameter_types(scope, function);
    let parameters = arguments(given, scope, steps, expected, into.temporary)?;
    set(
        steps,
        into,
        Operation::Call {
            function,
            parameters,
        },
    )
}

/// A new region below another.
#[inline(never)]
#[cycle(expressions)]
#[tactic(auto, using(crate::proofs::Behind::two_on))]
fn new_subregion(
    parent: &Expr,
    scope: &Scope<'_>,
    steps: &mut Vec<Step>,
    into: Into,
) -> Result<(), NoMemory>
    requires laid { AreLaidOut (program_of scope.now.parts.now).structs scope.now.layouts.now }
    ensures { OnOk result (AddsExpression (program_of scope.now.parts.now) (map ty_of scope.now.locals.now) steps.old.items steps.new.items (from.new_subregion into.line (expr_of parent.now)) (ty_of into.ty) into.temporary) }
{
    expression(parent, scope, steps, Ty::Region, into.temporary)?;
    set(steps, into, Operation::NewSubregion)
}

/// The region of an object.
#[inline(never)]
#[cycle(expressions)]
#[tactic(auto, using(crate::proofs::Behind::two_on))]
fn region_of(
    pointer: &Expr,
    scope: &Scope<'_>,
    steps: &mut Vec<Step>,
    into: Into,
) -> Result<(), NoMemory>
    requires laid { AreLaidOut (program_of scope.now.parts.now).structs scope.now.layouts.now }
    ensures { OnOk result (AddsExpression (program_of scope.now.parts.now) (map ty_of scope.now.locals.now) steps.old.items steps.new.items (from.region_of into.line (expr_of pointer.now)) (ty_of into.ty) into.temporary) }
{
    let operand = expression_type(scope, pointer)?;
    expression(
        pointer,
        scope,
        steps,
        copy_of(scope.alloc, &operand)?,
        into.temporary,
    )?;
    set(steps, into, Operation::RegionOf { operand })
}

/// `ralloc`.
#[inline(never)]
#[cycle(expressions)]
#[tactic(auto, using(crate::proofs::Behind::two_on))]
fn allocate(
    region: &Expr,
    element: &Ty,
    scope: &Scope<'_>,
    steps: &mut Vec<Step>,
    into: Into,
) -> Result<(), NoMemory>
    requires laid { AreLaidOut (program_of scope.now.parts.now).structs scope.now.layouts.now }
    ensures { OnOk result (AddsExpression (program_of scope.now.parts.now) (map ty_of scope.now.locals.now) steps.old.items steps.new.items (from.allocate into.line (expr_of region.now) (ty_of element.now)) (ty_of into.ty) into.temporary) }
{
    expression(region, scope, steps, Ty::Region, into.temporary)?;
    let element = copy_of(scope.alloc, element)?;
    set(steps, into, Operation::Allocate { element })
}

/// `rarrayalloc`.
#[inline(never)]
#[cycle(expressions)]
#[tactic(auto, using(crate::proofs::Behind::three_on))]
fn allocate_array(
    region: &Expr,
    number: &Expr,
    element: &Ty,
    scope: &Scope<'_>,
    steps: &mut Vec<Step>,
    into: Into,
) -> Result<(), NoMemory>
    requires laid { AreLaidOut (program_of scope.now.parts.now).structs scope.now.layouts.now }
    ensures { OnOk result (AddsExpression (program_of scope.now.parts.now) (map ty_of scope.now.locals.now) steps.old.items steps.new.items (from.allocate_array into.line (expr_of region.now) (expr_of number.now) (ty_of element.now)) (ty_of into.ty) into.temporary) }
{
    let next = together(into.temporary, 1)?;
    expression(region, scope, steps, Ty::Region, into.temporary)?;
    expression(number, scope, steps, Ty::Int, next)?;
    let element = copy_of(scope.alloc, element)?;
    set(steps, into, Operation::AllocateArray { element })
}

/// `putchar`.
#[inline(never)]
#[cycle(expressions)]
#[tactic(auto, using(crate::proofs::Behind::two_on))]
fn putchar(
    byte: &Expr,
    scope: &Scope<'_>,
    steps: &mut Vec<Step>,
    into: Into,
) -> Result<(), NoMemory>
    requires laid { AreLaidOut (program_of scope.now.parts.now).structs scope.now.layouts.now }
    ensures { OnOk result (AddsExpression (program_of scope.now.parts.now) (map ty_of scope.now.locals.now) steps.old.items steps.new.items (from.putchar into.line (expr_of byte.now)) (ty_of into.ty) into.temporary) }
{
    expression(byte, scope, steps, Ty::Int, into.temporary)?;
    set(steps, into, Operation::Putchar)
}

/// Adds the code of an expression, which puts its value into this temporary as one of this type.
///
/// # Errors
///
/// Out of memory.
#[cycle(expressions)]
#[tactic(auto, using(rc_core::proofs::ShapeRows::call_is))]
pub fn expression(
    e: &Expr,
    scope: &Scope<'_>,
    steps: &mut Vec<Step>,
    ty: Ty,
    temporary: u32,
) -> Result<(), NoMemory>
    requires laid { AreLaidOut (program_of scope.now.parts.now).structs scope.now.layouts.now }
    ensures { OnOk result (AddsExpression (program_of scope.now.parts.now) (map ty_of scope.now.locals.now) steps.old.items steps.new.items (expr_of e.now) (ty_of ty) temporary) }
{
    match e {
        Expr::Constant {
            line,
            signedness,
            value,
        } => constant(steps, at(*line, temporary, ty), *signedness, *value),
        Expr::Null { line } => set(steps, at(*line, temporary, ty), Operation::Null),
        Expr::Str { line, string } => self::string(*string, scope, steps, at(*line, temporary, ty)),
        Expr::Local { line, local } => set(
            steps,
            at(*line, temporary, ty),
            Operation::Copy { local: *local },
        ),
        Expr::Read { line, place } => read(place, scope, steps, at(*line, temporary, ty)),
        Expr::Address { line, global } => set(
            steps,
            at(*line, temporary, ty),
            Operation::Static { object: *global },
        ),
        Expr::Step {
            line,
            direction,
            pointer,
            number,
        } => step(
            *direction,
            pointer,
            number,
            scope,
            steps,
            at(*line, temporary, ty),
        ),
        Expr::StepFrom {
            line,
            number,
            pointer,
        } => step_from(number, pointer, scope, steps, at(*line, temporary, ty)),
        Expr::Unary {
            line,
            operator,
            signedness,
            operand,
        } => unary(
            *operator,
            *signedness,
            operand,
            scope,
            steps,
            at(*line, temporary, ty),
        ),
        Expr::Binary {
            line,
            operator,
            signedness,
            left,
            right,
        } => binary(
            *operator,
            *signedness,
            left,
            right,
            scope,
            steps,
            at(*line, temporary, ty),
        ),
        Expr::Convert {
            line,
            from,
            to,
            operand,
        } => convert(*from, *to, operand, scope, steps, at(*line, temporary, ty)),
        Expr::Not { line, operand } => not_zero(operand, scope, steps, at(*line, temporary, ty)),
        Expr::And { line, left, right } => and(left, right, scope, steps, at(*line, temporary, ty)),
        Expr::Or { line, left, right } => or(left, right, scope, steps, at(*line, temporary, ty)),
        Expr::Choose {
            line,
            test,
            yes,
            no,
        } => choose(test, yes, no, scope, steps, at(*line, temporary, ty)),
        Expr::IsNull {
            line,
            wanted,
            operand,
        } => is_null(*wanted, operand, scope, steps, at(*line, temporary, ty)),
        Expr::Same {
            line,
            wanted,
            left,
            right,
        } => same(*wanted, left, right, scope, steps, at(*line, temporary, ty)),
        Expr::Call {
            line,
            function,
            arguments,
        } => call(*function, arguments, scope, steps, at(*line, temporary, ty)),
        Expr::NewRegion { line } => set(steps, at(*line, temporary, ty), Operation::NewRegion),
        Expr::NewSubregion { line, parent } => new_subregion(
            parent,
            scope,
            steps,
            at(*line, temporary, ty),
        ),
        Expr::RegionOf { line, pointer } => region_of(
            pointer,
            scope,
            steps,
            at(*line, temporary, ty),
        ),
        Expr::Allocate {
            line,
            region,
            element,
        } => allocate(region, element, scope, steps, at(*line, temporary, ty)),
        Expr::AllocateArray {
            line,
            region,
            number,
            element,
        } => allocate_array(
            region,
            number,
            element,
            scope,
            steps,
            at(*line, temporary, ty),
        ),
        Expr::Putchar { line, byte } => putchar(byte, scope, steps, at(*line, temporary, ty)),
        Expr::Getchar { line } => set(steps, at(*line, temporary, ty), Operation::Getchar),
    }
}

/// Adds the code of arguments, from this temporary on; and answers the types as which they are
/// given, those of the parameters.
///
/// # Errors
///
/// Out of memory.
#[cycle(expressions)]
#[tactic(auto, using(crate::proofs::Walks::arguments_step, crate::proofs::Walks::arguments_end, crate::proofs::Walks::types_step, crate::proofs::Walks::types_end))]
pub fn arguments(
    given: &[Expr],
    scope: &Scope<'_>,
    steps: &mut Vec<Step>,
    parameters: &[Ty],
    temporary: u32,
) -> Result<Vec<Ty>, NoMemory>
    requires laid { AreLaidOut (program_of scope.now.parts.now).structs scope.now.layouts.now }
    ensures adds { OnOk result (AddsArguments (program_of scope.now.parts.now) (map ty_of scope.now.locals.now) steps.old.items steps.new.items (arguments_of given.now) (map ty_of parameters.now) temporary) }
    ensures types { IfOk result (λ tys. map ty_of tys.items ≡ translation.argument_types (program_of scope.now.parts.now) (map ty_of scope.now.locals.now) (arguments_of given.now) (map ty_of parameters.now)) }
{
    let mut types = Vec::new(scope.alloc);
    let mut next = temporary;
    let mut place = 0;
    for e in given {
        let ty = argument_type(scope, e, parameters, place)?;
        let value = value_type(copy_of(scope.alloc, &ty)?);
        expression(e, scope, steps, value, next)?;
        types.push(ty)?;
        next = together(next, 1)?;
        place += 1;
    }
    Ok(types)
}

/// The type as which an argument is given.
#[tactic(auto, using(crate::proofs::Walks::type_there, crate::proofs::Walks::type_missing))]
fn argument_type(
    scope: &Scope<'_>,
    e: &Expr,
    parameters: &[Ty],
    place: usize,
) -> Result<Ty, NoMemory>
    ensures { IfOk result (λ t. ty_of t ≡ argument_at (program_of scope.now.parts.now) (map ty_of scope.now.locals.now) (expr_of e.now) (map ty_of parameters.now) place) }
{
    match parameters.get(place) {
        Some(ty) => copy_of(scope.alloc, ty),
        None => expression_type(scope, e),
    }
}
