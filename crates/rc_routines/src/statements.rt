// The code of statements. Each has a function of its own.

ghost use Rattle.std.specs.Prelude.{◌≡◌, List, true, map, option_map, IfOk};
ghost use Rattle.rc_core.specs.Laid.{AreLaidOut};
ghost use Rattle.rc_core.specs.Programs as from;
ghost use Rattle.rc_core.specs.Shapes.{expr_of, place_of, arguments_of, stmt_of, stmts_of, ty_of, program_of};
ghost use Rattle.rc_core.specs.Typing as typing;
ghost use Rattle.rc_rlang.specs.RegionCode as rlang;
ghost use Rattle.rc_rlang.specs.Shapes.{act_of, code_of, codes_of, steps_of, test_of};
ghost use Rattle.rc_translation.specs.Translation as translation;
ghost use Rattle.rc_routines.specs.Bodies.{with_locals};

use rc_accesses::{Scope, access, expression_type, local_type, parameter_types, value_type, width};
use rc_base::NoMemory;
use rc_core::cells::copy_of;
use rc_core::expr::{Expr, Place};
use rc_core::stmt::{Change, Stmt};
use rc_core::ty::Ty;
use rc_region_steps::{arguments, expression, place};
use rc_rlang::access::Access;
use rc_rlang::code::{Act, Code, Test};
use rc_rlang::steps::Step;
use std::alloc::Global;

/// The code in a box of its own.
fn boxed(alloc: Global, code: Code) -> Result<Box<Code>, NoMemory>
    ensures { IfOk result (λ b. b.value ≡ code) }
{
    Ok(Box::new(alloc, code)?)
}

/// Steps, and what is done with their values.
fn simple(alloc: Global, steps: Vec<Step>, act: Act) -> Result<Box<Code>, NoMemory>
    ensures { (structs : List from.Struct) → IfOk result (λ b. code_of structs b.value ≡ rlang.simple (steps_of structs steps.items) (act_of structs act)) }
{
    boxed(alloc, Code::Simple { steps, act })
}

/// The steps of an expression alone, from temporary 0 on.
#[tactic(auto, using(rc_region_steps::proofs::Behind::alone))]
fn steps_alone(scope: &Scope<'_>, e: &Expr, ty: Ty) -> Result<Vec<Step>, NoMemory>
    requires laid { AreLaidOut (program_of scope.now.parts.now).structs scope.now.layouts.now }
    ensures { IfOk result (λ v. steps_of (program_of scope.now.parts.now).structs v.items ≡ translation.expression_code (program_of scope.now.parts.now) (map ty_of scope.now.locals.now) (expr_of e.now) (ty_of ty) 0) }
{
    let mut steps = Vec::new(scope.alloc);
    expression(e, scope, &mut steps, ty, 0)?;
    Ok(steps)
}

/// The steps of an expression that is put in as its own type.
fn whole(scope: &Scope<'_>, e: &Expr) -> Result<Vec<Step>, NoMemory>
    requires laid { AreLaidOut (program_of scope.now.parts.now).structs scope.now.layouts.now }
    ensures { IfOk result (λ v. steps_of (program_of scope.now.parts.now).structs v.items ≡ translation.whole (program_of scope.now.parts.now) (map ty_of scope.now.locals.now) (expr_of e.now)) }
{
    steps_alone(scope, e, expression_type(scope, e)?)
}

/// The steps of a condition, behind which a branch stands: `!` exchanges its ways.
fn condition(scope: &Scope<'_>, e: &Expr) -> Result<Vec<Step>, NoMemory>
    requires laid { AreLaidOut (program_of scope.now.parts.now).structs scope.now.layouts.now }
    ensures { IfOk result (λ v. steps_of (program_of scope.now.parts.now).structs v.items ≡ translation.condition_code (program_of scope.now.parts.now) (map ty_of scope.now.locals.now) (expr_of e.now)) }
{
    match e {
        Expr::Not { operand, .. } => condition(scope, operand),
        Expr::IsNull { operand, .. } => whole(scope, operand),
        _ => whole(scope, e),
    }
}

/// The branch behind a condition, which is taken where the value is as wanted.
fn test(scope: &Scope<'_>, line: u32, wanted: bool, e: &Expr) -> Result<Test, NoMemory>
    ensures { IfOk result (λ t. test_of t ≡ translation.condition_test (program_of scope.now.parts.now) (map ty_of scope.now.locals.now) line wanted (expr_of e.now)) }
{
    match e {
        Expr::Not { operand, .. } => test(scope, line, !wanted, operand),
        Expr::IsNull {
            wanted: null,
            operand,
            ..
        } => Ok(Test {
            line,
            ty: expression_type(scope, operand)?,
            wanted: wanted_test(*null, wanted),
        }),
        _ => Ok(Test {
            line,
            ty: expression_type(scope, e)?,
            wanted,
        }),
    }
}

fn wanted_test(null: bool, wanted: bool) -> bool
    ensures { result ≡ translation.test_wanted null wanted }
{
    if null {
        return !wanted;
    }
    wanted
}

/// The steps of a condition that may be absent.
fn optional_condition(scope: &Scope<'_>, test: &Option<Expr>) -> Result<Vec<Step>, NoMemory>
    requires laid { AreLaidOut (program_of scope.now.parts.now).structs scope.now.layouts.now }
    ensures { IfOk result (λ v. steps_of (program_of scope.now.parts.now).structs v.items ≡ translation.optional_condition (program_of scope.now.parts.now) (map ty_of scope.now.locals.now) (option_map expr_of test.now)) }
{
    match test {
        None => Ok(Vec::new(scope.alloc)),
        Some(e) => condition(scope, e),
    }
}

fn optional_test(
    scope: &Scope<'_>,
    line: u32,
    condition: &Option<Expr>,
) -> Result<Option<Test>, NoMemory>
    ensures { IfOk result (λ t. option_map test_of t ≡ option_map (translation.condition_test (program_of scope.now.parts.now) (map ty_of scope.now.locals.now) line true) (option_map expr_of condition.now)) }
{
    match condition {
        None => Ok(None),
        Some(e) => Ok(Some(test(scope, line, true, e)?)),
    }
}

/// `x = e`.
#[inline(never)]
fn assign(
    scope: &Scope<'_>,
    given: &Option<Ty>,
    line: u32,
    local: u32,
    value: &Expr,
) -> Result<Box<Code>, NoMemory>
    requires laid { AreLaidOut (program_of scope.now.parts.now).structs scope.now.layouts.now }
    ensures { IfOk result (λ c. code_of (program_of scope.now.parts.now).structs c.value ≡ translation.statement_code (program_of scope.now.parts.now) (with_locals (map ty_of scope.now.locals.now) (option_map ty_of given.now)) (from.assign line local (expr_of value.now))) }
{
    let ty = local_type(scope, local)?;
    let steps = steps_alone(scope, value, value_type(copy_of(scope.alloc, &ty)?))?;
    simple(scope.alloc, steps, Act::Assign { line, local, ty })
}

/// A declaration. Without an initial value the local becomes zero or null.
#[inline(never)]
fn declare(
    scope: &Scope<'_>,
    given: &Option<Ty>,
    line: u32,
    local: u32,
    value: &Option<Expr>,
) -> Result<Box<Code>, NoMemory>
    requires laid { AreLaidOut (program_of scope.now.parts.now).structs scope.now.layouts.now }
    ensures { IfOk result (λ c. code_of (program_of scope.now.parts.now).structs c.value ≡ translation.statement_code (program_of scope.now.parts.now) (with_locals (map ty_of scope.now.locals.now) (option_map ty_of given.now)) (from.declare line local (option_map expr_of value.now))) }
{
    match value {
        Some(e) => assign(scope, given, line, local, e),
        None => {
            let ty = local_type(scope, local)?;
            boxed(scope.alloc, Code::Clear { line, local, ty })
        }
    }
}

/// A place that takes a value.
#[inline(never)]
#[tactic(auto, using(rc_region_steps::proofs::Behind::truth_alone))]
fn store(
    scope: &Scope<'_>,
    given: &Option<Ty>,
    line: u32,
    to: &Place,
    value: &Expr,
) -> Result<Box<Code>, NoMemory>
    requires laid { AreLaidOut (program_of scope.now.parts.now).structs scope.now.layouts.now }
    ensures { IfOk result (λ c. code_of (program_of scope.now.parts.now).structs c.value ≡ translation.statement_code (program_of scope.now.parts.now) (with_locals (map ty_of scope.now.locals.now) (option_map ty_of given.now)) (from.store line (place_of to.now) (expr_of value.now))) }
{
    let access = access(scope, to)?;
    let next = width(&access)?;
    let mut steps = Vec::new(scope.alloc);
    place(to, scope, &mut steps, line, 0)?;
    expression(
        value,
        scope,
        &mut steps,
        value_type(copy_of(scope.alloc, &access.cell)?),
        next,
    )?;
    simple(scope.alloc, steps, Act::Store { line, access })
}

/// `place op= e`.
#[inline(never)]
#[tactic(auto, using(rc_region_steps::proofs::Behind::truth_alone))]
fn update(
    scope: &Scope<'_>,
    given: &Option<Ty>,
    line: u32,
    to: &Place,
    change: Change,
    value: &Expr,
) -> Result<Box<Code>, NoMemory>
    requires laid { AreLaidOut (program_of scope.now.parts.now).structs scope.now.layouts.now }
    ensures { IfOk result (λ c. code_of (program_of scope.now.parts.now).structs c.value ≡ translation.statement_code (program_of scope.now.parts.now) (with_locals (map ty_of scope.now.locals.now) (option_map ty_of given.now)) (from.update line (place_of to.now) change (expr_of value.now))) }
{
    let access = access(scope, to)?;
    let next = width(&access)?;
    let operand = expression_type(scope, value)?;
    let mut steps = Vec::new(scope.alloc);
    place(to, scope, &mut steps, line, 0)?;
    expression(
        value,
        scope,
        &mut steps,
        copy_of(scope.alloc, &operand)?,
        next,
    )?;
    simple(
        scope.alloc,
        steps,
        Act::Update {
            line,
            access,
            change,
            operand,
        },
    )
}

/// An assignment of whole structs.
#[inline(never)]
#[tactic(auto, using(rc_region_steps::proofs::Behind::truth_alone))]
fn copy(
    scope: &Scope<'_>,
    given: &Option<Ty>,
    line: u32,
    structure: u32,
    to: &Place,
    source: &Place,
) -> Result<Box<Code>, NoMemory>
    requires laid { AreLaidOut (program_of scope.now.parts.now).structs scope.now.layouts.now }
    ensures { IfOk result (λ c. code_of (program_of scope.now.parts.now).structs c.value ≡ translation.statement_code (program_of scope.now.parts.now) (with_locals (map ty_of scope.now.locals.now) (option_map ty_of given.now)) (from.copy line structure (place_of to.now) (place_of source.now))) }
{
    let left = access(scope, to)?;
    let next = width(&left)?;
    let right = access(scope, source)?;
    let mut steps = Vec::new(scope.alloc);
    place(to, scope, &mut steps, line, 0)?;
    place(source, scope, &mut steps, line, next)?;
    simple(
        scope.alloc,
        steps,
        Act::Move {
            line,
            structure,
            left,
            right,
        },
    )
}

/// Whether a function gives a value.
#[tactic(auto, using(crate::proofs::Codes::result_there, crate::proofs::Codes::result_missing))]
fn has_result(scope: &Scope<'_>, function: u32) -> bool
    ensures { result ≡ translation.has_result (program_of scope.now.parts.now) function }
{
    match scope.parts.functions.get(function as usize) {
        None => true,
        Some(f) => f.result.is_some(),
    }
}

/// A call of a function without a result.
#[inline(never)]
#[tactic(auto, using(rc_region_steps::proofs::Behind::alone))]
fn perform(
    scope: &Scope<'_>,
    line: u32,
    function: u32,
    values: &[Expr],
) -> Result<Box<Code>, NoMemory>
    requires laid { AreLaidOut (program_of scope.now.parts.now).structs scope.now.layouts.now }
    ensures { IfOk result (λ c. code_of (program_of scope.now.parts.now).structs c.value ≡ rlang.simple (translation.arguments_code (program_of scope.now.parts.now) (map ty_of scope.now.locals.now) (arguments_of values.now) (translation.parameter_types (program_of scope.now.parts.now) function) 0) (rlang.perform line function (translation.argument_types (program_of scope.now.parts.now) (map ty_of scope.now.locals.now) (arguments_of values.now) (translation.parameter_types (program_of scope.now.parts.now) function)))) }
{
    let expected = parameter_types(scope, function);
    let mut steps = Vec::new(scope.alloc);
    let parameters = arguments(values, scope, &mut steps, expected, 0)?;
    simple(
        scope.alloc,
        steps,
        Act::Perform {
            line,
            function,
            parameters,
        },
    )
}

/// A value that is let go.
fn dropped(scope: &Scope<'_>, e: &Expr) -> Result<Box<Code>, NoMemory>
    requires laid { AreLaidOut (program_of scope.now.parts.now).structs scope.now.layouts.now }
    ensures { IfOk result (λ c. code_of (program_of scope.now.parts.now).structs c.value ≡ rlang.simple (translation.whole (program_of scope.now.parts.now) (map ty_of scope.now.locals.now) (expr_of e.now)) rlang.drop) }
{
    let steps = whole(scope, e)?;
    simple(scope.alloc, steps, Act::Drop)
}

/// An expression by itself.
#[inline(never)]
#[tactic(auto, using(rc_core::proofs::ShapeRows::call_is))]
fn evaluate(
    scope: &Scope<'_>,
    given: &Option<Ty>,
    line: u32,
    e: &Expr,
) -> Result<Box<Code>, NoMemory>
    requires laid { AreLaidOut (program_of scope.now.parts.now).structs scope.now.layouts.now }
    ensures { IfOk result (λ c. code_of (program_of scope.now.parts.now).structs c.value ≡ translation.statement_code (program_of scope.now.parts.now) (with_locals (map ty_of scope.now.locals.now) (option_map ty_of given.now)) (from.evaluate line (expr_of e.now))) }
{
    match e {
        Expr::Call {
            line: own,
            function,
            arguments,
        } => {
            if has_result(scope, *function) {
                return dropped(scope, e);
            }
            perform(scope, *own, *function, arguments)
        }
        _ => dropped(scope, e),
    }
}

/// `deleteregion`.
#[inline(never)]
fn delete(
    scope: &Scope<'_>,
    given: &Option<Ty>,
    line: u32,
    region: &Expr,
) -> Result<Box<Code>, NoMemory>
    requires laid { AreLaidOut (program_of scope.now.parts.now).structs scope.now.layouts.now }
    ensures { IfOk result (λ c. code_of (program_of scope.now.parts.now).structs c.value ≡ translation.statement_code (program_of scope.now.parts.now) (with_locals (map ty_of scope.now.locals.now) (option_map ty_of given.now)) (from.delete line (expr_of region.now))) }
{
    let steps = steps_alone(scope, region, Ty::Region)?;
    simple(scope.alloc, steps, Act::Delete { line })
}

/// `return`.
#[inline(never)]
fn leave(
    scope: &Scope<'_>,
    given: &Option<Ty>,
    line: u32,
    value: &Option<Expr>,
) -> Result<Box<Code>, NoMemory>
    requires laid { AreLaidOut (program_of scope.now.parts.now).structs scope.now.layouts.now }
    ensures { IfOk result (λ c. code_of (program_of scope.now.parts.now).structs c.value ≡ translation.statement_code (program_of scope.now.parts.now) (with_locals (map ty_of scope.now.locals.now) (option_map ty_of given.now)) (from.return line (option_map expr_of value.now))) }
{
    match value {
        None => {
            let steps = Vec::new(scope.alloc);
            simple(scope.alloc, steps, Act::Leave { line, result: None })
        }
        Some(e) => {
            let steps = steps_alone(scope, e, returned_type(scope.alloc, given)?)?;
            let result = result_type(scope.alloc, given)?;
            simple(scope.alloc, steps, Act::Leave { line, result })
        }
    }
}

/// The type of what is returned, and `int` where nothing is.
fn returned_type(alloc: Global, given: &Option<Ty>) -> Result<Ty, NoMemory>
    ensures { IfOk result (λ t. ty_of t ≡ translation.returned_type (option_map ty_of given.now)) }
{
    match given {
        None => Ok(Ty::Int),
        Some(ty) => Ok(value_type(copy_of(alloc, ty)?)),
    }
}

fn result_type(alloc: Global, given: &Option<Ty>) -> Result<Option<Ty>, NoMemory>
    ensures { IfOk result (λ t. option_map ty_of t ≡ option_map typing.value_type (option_map ty_of given.now)) }
{
    match given {
        None => Ok(None),
        Some(ty) => Ok(Some(value_type(copy_of(alloc, ty)?))),
    }
}

/// `if`.
#[inline(never)]
#[cycle(statements)]
fn branch(
    scope: &Scope<'_>,
    given: &Option<Ty>,
    line: u32,
    condition: &Expr,
    yes: &Stmt,
    no: &Stmt,
) -> Result<Box<Code>, NoMemory>
    requires laid { AreLaidOut (program_of scope.now.parts.now).structs scope.now.layouts.now }
    ensures { IfOk result (λ c. code_of (program_of scope.now.parts.now).structs c.value ≡ translation.statement_code (program_of scope.now.parts.now) (with_locals (map ty_of scope.now.locals.now) (option_map ty_of given.now)) (from.branch line (expr_of condition.now) (stmt_of yes.now) (stmt_of no.now))) }
{
    let steps = self::condition(scope, condition)?;
    let test = test(scope, line, true, condition)?;
    let yes = statement(scope, given, yes)?;
    let no = statement(scope, given, no)?;
    boxed(
        scope.alloc,
        Code::Branch {
            steps,
            test,
            yes,
            no,
        },
    )
}

/// A loop. What runs behind its body stands before it in the code.
fn looped(
    alloc: Global,
    line: u32,
    steps: Vec<Step>,
    test: Option<Test>,
    third: Box<Code>,
    body: Box<Code>,
) -> Result<Box<Code>, NoMemory>
    ensures { (structs : List from.Struct) → IfOk result (λ b. code_of structs b.value ≡ rlang.loop line (steps_of structs steps.items) (option_map test_of test) (code_of structs third.value) (code_of structs body.value)) }
{
    boxed(
        alloc,
        Code::Loop {
            line,
            steps,
            test,
            third,
            body,
        },
    )
}

/// `while`.
#[inline(never)]
#[cycle(statements)]
fn repeat_while(
    scope: &Scope<'_>,
    given: &Option<Ty>,
    line: u32,
    condition: &Expr,
    body: &Stmt,
) -> Result<Box<Code>, NoMemory>
    requires laid { AreLaidOut (program_of scope.now.parts.now).structs scope.now.layouts.now }
    ensures { IfOk result (λ c. code_of (program_of scope.now.parts.now).structs c.value ≡ translation.statement_code (program_of scope.now.parts.now) (with_locals (map ty_of scope.now.locals.now) (option_map ty_of given.now)) (from.while line (expr_of condition.now) (stmt_of body.now))) }
{
    let steps = self::condition(scope, condition)?;
    let test = test(scope, line, true, condition)?;
    let body = statement(scope, given, body)?;
    let third = nothing(scope.alloc)?;
    looped(scope.alloc, line, steps, Some(test), third, body)
}

/// The empty block.
#[tactic(auto, using(crate::proofs::Codes::empty_block))]
fn nothing(alloc: Global) -> Result<Box<Code>, NoMemory>
    ensures { (structs : List from.Struct) → IfOk result (λ b. code_of structs b.value ≡ rlang.block rlang.done) }
{
    let body = Vec::new(alloc);
    boxed(alloc, Code::Block { body })
}

/// `do`.
#[inline(never)]
#[cycle(statements)]
fn repeat_do(
    scope: &Scope<'_>,
    given: &Option<Ty>,
    line: u32,
    body: &Stmt,
    condition: &Expr,
) -> Result<Box<Code>, NoMemory>
    requires laid { AreLaidOut (program_of scope.now.parts.now).structs scope.now.layouts.now }
    ensures { IfOk result (λ c. code_of (program_of scope.now.parts.now).structs c.value ≡ translation.statement_code (program_of scope.now.parts.now) (with_locals (map ty_of scope.now.locals.now) (option_map ty_of given.now)) (from.repeat line (stmt_of body.now) (expr_of condition.now))) }
{
    let body = statement(scope, given, body)?;
    let steps = self::condition(scope, condition)?;
    let test = test(scope, line, true, condition)?;
    boxed(
        scope.alloc,
        Code::Repeat {
            line,
            body,
            steps,
            test,
        },
    )
}

/// `for`: its first part, and then a loop.
#[inline(never)]
#[cycle(statements)]
fn repeat_for(
    scope: &Scope<'_>,
    given: &Option<Ty>,
    line: u32,
    first: &Stmt,
    condition: &Option<Expr>,
    third: &Stmt,
    body: &Stmt,
) -> Result<Box<Code>, NoMemory>
    requires laid { AreLaidOut (program_of scope.now.parts.now).structs scope.now.layouts.now }
    ensures { IfOk result (λ c. code_of (program_of scope.now.parts.now).structs c.value ≡ translation.statement_code (program_of scope.now.parts.now) (with_locals (map ty_of scope.now.locals.now) (option_map ty_of given.now)) (from.for line (stmt_of first.now) (option_map expr_of condition.now) (stmt_of third.now) (stmt_of body.now))) }
{
    let first = statement(scope, given, first)?;
    let steps = optional_condition(scope, condition)?;
    let test = optional_test(scope, line, condition)?;
    let third = statement(scope, given, third)?;
    let body = statement(scope, given, body)?;
    let rest = looped(scope.alloc, line, steps, test, third, body)?;
    pair(scope.alloc, first, rest)
}

/// Two statements one behind the other.
#[tactic(auto, using(crate::proofs::Codes::pair_block))]
fn pair(alloc: Global, first: Box<Code>, second: Box<Code>) -> Result<Box<Code>, NoMemory>
    ensures { (structs : List from.Struct) → IfOk result (λ b. code_of structs b.value ≡ rlang.block (rlang.then (code_of structs first.value) (rlang.then (code_of structs second.value) rlang.done))) }
{
    let mut body = Vec::new(alloc);
    body.push(Box::into_inner(first))?;
    body.push(Box::into_inner(second))?;
    boxed(alloc, Code::Block { body })
}

/// The code of statements, in their order.
#[cycle(statements)]
#[tactic(auto, using(crate::proofs::Codes::body_step, crate::proofs::Codes::body_end))]
fn body(scope: &Scope<'_>, given: &Option<Ty>, statements: &[Stmt]) -> Result<Vec<Code>, NoMemory>
    requires laid { AreLaidOut (program_of scope.now.parts.now).structs scope.now.layouts.now }
    ensures { IfOk result (λ v. codes_of (program_of scope.now.parts.now).structs v.items ≡ translation.body_code (program_of scope.now.parts.now) (with_locals (map ty_of scope.now.locals.now) (option_map ty_of given.now)) (stmts_of statements.now)) }
{
    let mut codes = Vec::new(scope.alloc);
    for s in statements {
        let code = statement(scope, given, s)?;
        codes.push(Box::into_inner(code))?;
    }
    Ok(codes)
}

/// `{ .. }`.
#[inline(never)]
#[cycle(statements)]
#[tactic(auto, using(rc_rlang::proofs::ShapeRows::block_is))]
fn block(scope: &Scope<'_>, given: &Option<Ty>, statements: &[Stmt]) -> Result<Box<Code>, NoMemory>
    requires laid { AreLaidOut (program_of scope.now.parts.now).structs scope.now.layouts.now }
    ensures { IfOk result (λ c. code_of (program_of scope.now.parts.now).structs c.value ≡ translation.statement_code (program_of scope.now.parts.now) (with_locals (map ty_of scope.now.locals.now) (option_map ty_of given.now)) (from.block (stmts_of statements.now))) }
{
    let body = self::body(scope, given, statements)?;
    boxed(scope.alloc, Code::Block { body })
}

/// The code of a statement, in a function with this result.
///
/// # Errors
///
/// Out of memory.
#[cycle(statements)]
#[tactic(auto, using(rc_core::proofs::ShapeRows::block_is))]
pub(crate) fn statement(
    scope: &Scope<'_>,
    given: &Option<Ty>,
    s: &Stmt,
) -> Result<Box<Code>, NoMemory>
    requires laid { AreLaidOut (program_of scope.now.parts.now).structs scope.now.layouts.now }
    ensures { IfOk result (λ c. code_of (program_of scope.now.parts.now).structs c.value ≡ translation.statement_code (program_of scope.now.parts.now) (with_locals (map ty_of scope.now.locals.now) (option_map ty_of given.now)) (stmt_of s.now)) }
{
    match s {
        Stmt::Block { body } => block(scope, given, body),
        Stmt::Declare { line, local, value } => declare(scope, given, *line, *local, value),
        Stmt::Assign { line, local, value } => assign(scope, given, *line, *local, value),
        Stmt::Store { line, place, value } => store(scope, given, *line, place, value),
        Stmt::Update {
            line,
            place,
            change,
            value,
        } => update(scope, given, *line, place, *change, value),
        Stmt::Copy {
            line,
            structure,
            left,
            right,
        } => copy(scope, given, *line, *structure, left, right),
        Stmt::Evaluate { line, value } => evaluate(scope, given, *line, value),
        Stmt::Delete { line, region } => delete(scope, given, *line, region),
        Stmt::If {
            line,
            test,
            yes,
            no,
        } => branch(scope, given, *line, test, yes, no),
        Stmt::While { line, test, body } => repeat_while(scope, given, *line, test, body),
        Stmt::Do { line, body, test } => repeat_do(scope, given, *line, body, test),
        Stmt::For {
            line,
            first,
            test,
            third,
            body,
        } => repeat_for(scope, given, *line, first, test, third, body),
        Stmt::Break { line } => boxed(scope.alloc, Code::Break { line: *line }),
        Stmt::Continue { line } => boxed(scope.alloc, Code::Continue { line: *line }),
        Stmt::Return { line, value } => leave(scope, given, *line, value),
    }
}
