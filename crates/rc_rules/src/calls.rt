// The rules of calls.
ghost use Rattle.std.specs.Prelude.{◌≡◌, ◌<◌, ◌++◌, [], ◌∷◌, List, map, length, option_map, slice_get, IfOk, IfErr, OnOk, Option, Some, None, is_some, is_none, ◌&&◌};
ghost use Rattle.rc_core.specs.Shapes.{ty_of, expr_of, stmt_of, arguments_listed};
ghost use Rattle.rc_core.specs.Programs as p;
ghost use Rattle.rc_core.specs.Types.{int, region as region_type, pointer};
ghost use Rattle.rc_core.specs.Typing.{value_type};
ghost use Rattle.rc_core.specs.declared.ty.Note.TheVariants.{Plain};
ghost use Rattle.rc_deletes.specs.Builtins.{parameter_of};
ghost use Rattle.rc_deletes.specs.Calls as rule;
ghost use Rattle.rc_deletes.specs.Judged.{Holds};
ghost use Rattle.rc_deletes.specs.Values.{fitted as fitted_value};
ghost use Rattle.rc_deletes.specs.Kinds.{sort_of, number_or};
ghost use Rattle.rc_typed_values.specs.Shapes.{typed_of};
ghost use Rattle.rc_typed_values.specs.Stops.{StopsAt, IsRule};
ghost use Rattle.rc_rules.specs.Parameters.{parameters_of, fitted_at};
ghost use Rattle.rc_rules.specs.Shapes.{meaning_of, callee_of, code_of};

use crate::meanings::{Callee, Meaning};
use rc_core::expr::Expr;
use rc_core::stmt::Stmt;
use rc_core::ty::{Note, Ty};
use rc_deletes::{Builtin, Parameter, Refusal, Sort};
use rc_syntax::tree::Spot;
use rc_typed_values::{
    Stop, Typed, add, boxed, copy_of, fails, fitted, sort_of, typed, value_type,
};
use std::alloc::Global;

/// What the parameters of a function take.
#[derive(Clone, Copy)]
enum Parameters<'a> {
    /// Each what its type takes.
    Types(&'a [Ty]),
    /// Those of a built-in function.
    Builtin(&'static [Parameter]),
}

/// What a called name stands for.
///
/// # Errors
///
/// The name is unknown.
pub fn callee_rule<'a>(at: Spot, meaning: Option<&'a Meaning>) -> Result<Callee<'a>, Stop>
    ensures ok { IfOk result (λ f. rule.callee_rule at (option_map (λ m. meaning_of m.now) meaning.entry) ≡ Holds (callee_of f)) }
    ensures err { IfErr result (StopsAt (rule.callee_rule at (option_map (λ m. meaning_of m.now) meaning.entry))) }
    ensures no_memory { IfErr result IsRule }
{
    match meaning {
        None => fails(at, Refusal::Unknown),
        Some(Meaning::Local(_, _)) => Ok(Callee::NoFunction),
        Some(Meaning::Global(_, _, _)) => Ok(Callee::NoFunction),
        Some(Meaning::Function(number, signature)) => Ok(Callee::Function(*number, signature)),
        Some(Meaning::Builtin(builtin)) => Ok(Callee::Builtin(*builtin)),
    }
}

/// Whether a function is defined.
fn is_defined(callee: Callee) -> bool
    ensures { result ≡ rule.is_defined (callee_of callee.entry) }
{
    match callee {
        Callee::Function(number, _) => number.is_some(),
        Callee::Builtin(_) => true,
        Callee::NoFunction => true,
    }
}

/// Whether what is called is a function.
fn is_function(callee: Callee) -> bool
    ensures { result ≡ rule.is_function (callee_of callee.entry) }
{
    !matches!(callee, Callee::NoFunction)
}

/// The type of a call, none where the function gives no value.
fn gives(alloc: Global, callee: Callee) -> Result<Option<Ty>, Stop>
    ensures ok { IfOk result (λ t. option_map ty_of t ≡ option_map value_type (rule.gives (callee_of callee.entry))) }
    ensures err { IfErr result (λ s. s ≡ Stop.Memory) }
{
    match callee {
        Callee::Function(_, signature) => match &signature.gives {
            Some(ty) => {
                let ty = copy_of(alloc, ty)?;
                Ok(Some(value_type(ty)))
            }
            None => Ok(None),
        },
        Callee::Builtin(builtin) => match builtin.gives() {
            Some(ty) => Ok(Some(value_type(ty))),
            None => Ok(None),
        },
        Callee::NoFunction => Ok(None),
    }
}

/// Whether a function gives a value.
fn gives_value(callee: Callee) -> bool
    ensures { result ≡ is_some (rule.gives (callee_of callee.entry)) }
{
    match callee {
        Callee::Function(_, signature) => signature.gives.is_some(),
        Callee::Builtin(builtin) => builtin.gives().is_some(),
        Callee::NoFunction => false,
    }
}

/// Whether a value is other than the word `NULL`.
fn has_type(v: &Typed) -> bool
    ensures { result ≡ is_some (typed_of v.now).ty }
{
    v.ty.is_some()
}

/// The code of a pointer.
fn if_pointer(v: Typed) -> Option<Box<Expr>>
    ensures { option_map code_of result ≡ rule.if_pointer (sort_of (typed_of v).ty) (typed_of v).code }
{
    match sort_of(&v.ty) {
        Sort::Pointer => Some(v.code),
        _ => None,
    }
}

/// What the parameters of a called function take.
#[tactic(auto, using(crate::proofs::Arguments::types_taken))]
fn taken_by<'a>(callee: Callee<'a>) -> Parameters<'a>
    ensures { parameters_of result ≡ rule.parameters (callee_of callee.entry) }
{
    match callee {
        Callee::Function(_, signature) => Parameters::Types(&signature.takes),
        Callee::Builtin(builtin) => Parameters::Builtin(builtin.parameters()),
        Callee::NoFunction => Parameters::Types(&[]),
    }
}

/// How many parameters there are.
fn count(parameters: Parameters) -> usize
    ensures { result ≡ length (parameters_of parameters.entry) }
{
    match parameters {
        Parameters::Types(types) => types.len(),
        Parameters::Builtin(parameters) => parameters.len(),
    }
}

/// An argument of a built-in function.
fn fitted_builtin(alloc: Global, parameter: Parameter, v: Typed) -> Result<Option<Box<Expr>>, Stop>
    ensures ok { IfOk result (λ e. option_map code_of e ≡ rule.fitted_argument (parameter_of parameter) (typed_of v)) }
    ensures err { IfErr result (λ s. s ≡ Stop.Memory) }
{
    match parameter {
        Parameter::Int => fitted(alloc, &Ty::Int, v),
        Parameter::Region => fitted(alloc, &Ty::Region, v),
        Parameter::AnyPointer => Ok(if_pointer(v)),
    }
}

/// An argument at the place of a parameter.
fn fitted_argument(
    alloc: Global,
    parameters: Parameters,
    place: usize,
    v: Typed,
) -> Result<Option<Box<Expr>>, Stop>
    requires { place < length (parameters_of parameters) }
    ensures ok { IfOk result (λ e. option_map code_of e ≡ fitted_at (parameters_of parameters.entry) place (typed_of v)) }
    ensures err { IfErr result (λ s. s ≡ Stop.Memory) }
{
    match parameters {
        Parameters::Types(types) => fitted(alloc, &types[place], v),
        Parameters::Builtin(parameters) => fitted_builtin(alloc, parameters[place], v),
    }
}

/// The arguments that have a parameter, converted. None where one doesn't fit, or where one beyond
/// is the word `NULL`.
#[tactic(auto, using(crate::proofs::Arguments::after_nil, crate::proofs::Arguments::after_more, crate::proofs::Arguments::argument_taken))]
fn fitted_arguments(
    alloc: Global,
    parameters: Parameters,
    values: Vec<Typed>,
) -> Result<Option<Vec<Box<Expr>>>, Stop>
    ensures ok { IfOk result (λ es. option_map (λ es. map code_of es.items) es ≡ rule.fitted_arguments (parameters_of parameters.entry) (map typed_of values.items)) }
    ensures err { IfErr result (λ s. s ≡ Stop.Memory) }
{
    let mut codes = Vec::new(alloc);
    let mut place = 0;
    for v in values {
        if place < count(parameters) {
            let Some(code) = fitted_argument(alloc, parameters, place, v)? else {
                return Ok(None);
            };
            add(&mut codes, code)?;
            place += 1;
        } else if !has_type(&v) {
            return Ok(None);
        }
    }
    Ok(Some(codes))
}

/// A value is wanted of a function that gives none.
fn lacks_value(wanted: bool, callee: Callee) -> bool
    ensures { result ≡ (wanted && is_none (rule.gives (callee_of callee.entry))) }
{
    wanted && !gives_value(callee)
}

/// The converted arguments of a call.
#[tactic(auto, using(crate::proofs::Arguments::call_unknown, crate::proofs::Arguments::call_no_function, crate::proofs::Arguments::call_mistyped, crate::proofs::Arguments::call_without_value, crate::proofs::Arguments::call_arity, crate::proofs::Arguments::call_holds))]
fn call_rule(
    alloc: Global,
    wanted: bool,
    at: Spot,
    callee: Callee,
    values: Vec<Typed>,
) -> Result<Vec<Box<Expr>>, Stop>
    ensures ok { IfOk result (λ es. rule.call_rule wanted at (callee_of callee.entry) (map typed_of values.items) ≡ Holds (map code_of es.items)) }
    ensures err { IfErr result (StopsAt (rule.call_rule wanted at (callee_of callee.entry) (map typed_of values.items))) }
{
    if !is_defined(callee) {
        return fails(at, Refusal::Unknown);
    }
    if !is_function(callee) {
        return fails(at, Refusal::Mistyped);
    }
    let parameters = taken_by(callee);
    let given = values.len();
    let Some(codes) = fitted_arguments(alloc, parameters, values)? else {
        return fails(at, Refusal::Mistyped);
    };
    if lacks_value(wanted, callee) {
        return fails(at, Refusal::Mistyped);
    }
    if count(parameters) != given {
        return fails(at, Refusal::Arity);
    }
    Ok(codes)
}

/// The first of the arguments, or null at the line where there is none.
fn first_argument(alloc: Global, line: u32, arguments: Vec<Box<Expr>>) -> Result<Box<Expr>, Stop>
    ensures ok { IfOk result (λ e. code_of e ≡ rule.first_argument line (map code_of arguments.items)) }
    ensures err { IfErr result (λ s. s ≡ Stop.Memory) }
{
    match arguments.into_iter().next() {
        Some(argument) => Ok(argument),
        None => boxed(alloc, Expr::Null { line }),
    }
}

/// The arguments in one row.
#[tactic(auto, using(crate::proofs::Arguments::row_more))]
fn in_a_row(alloc: Global, codes: Vec<Box<Expr>>) -> Result<Vec<Expr>, Stop>
    ensures ok { IfOk result (λ es. map expr_of es.items ≡ map code_of codes.items) }
    ensures err { IfErr result (λ s. s ≡ Stop.Memory) }
{
    let mut row = Vec::new(alloc);
    for code in codes {
        add(&mut row, Box::into_inner(code))?;
    }
    Ok(row)
}

/// The number of a function, where it has one.
fn number_or_first(number: Option<u32>) -> u32
    ensures { result ≡ number_or number 0 }
{
    match number {
        Some(number) => number,
        None => 0,
    }
}

/// The code of a call of a function that the text defines.
#[tactic(auto, using(crate::proofs::Arguments::call_made))]
fn called_function(
    alloc: Global,
    line: u32,
    function: u32,
    arguments: Vec<Box<Expr>>,
) -> Result<Box<Expr>, Stop>
    ensures ok { IfOk result (λ e. code_of e ≡ p.call line function (arguments_listed (map code_of arguments.items))) }
    ensures err { IfErr result (λ s. s ≡ Stop.Memory) }
{
    let arguments = in_a_row(alloc, arguments)?;
    let code = Expr::Call {
        line,
        function,
        arguments,
    };
    boxed(alloc, code)
}

/// The code of a call.
fn called(
    alloc: Global,
    line: u32,
    callee: Callee,
    arguments: Vec<Box<Expr>>,
) -> Result<Box<Expr>, Stop>
    ensures ok { IfOk result (λ e. code_of e ≡ rule.called line (callee_of callee.entry) (map code_of arguments.items)) }
    ensures err { IfErr result (λ s. s ≡ Stop.Memory) }
{
    match callee {
        Callee::Function(number, _) => {
            called_function(alloc, line, number_or_first(number), arguments)
        }
        Callee::Builtin(builtin) => called_builtin(alloc, line, builtin, arguments),
        Callee::NoFunction => boxed(alloc, Expr::Null { line }),
    }
}

/// The code of a call of a function that every text has.
fn called_builtin(
    alloc: Global,
    line: u32,
    builtin: Builtin,
    arguments: Vec<Box<Expr>>,
) -> Result<Box<Expr>, Stop>
    ensures ok { IfOk result (λ e. code_of e ≡ rule.called line (rule.the_builtin builtin) (map code_of arguments.items)) }
    ensures err { IfErr result (λ s. s ≡ Stop.Memory) }
{
    match builtin {
        Builtin::NewRegion => boxed(alloc, Expr::NewRegion { line }),
        Builtin::NewSubregion => {
            let parent = first_argument(alloc, line, arguments)?;
            boxed(alloc, Expr::NewSubregion { line, parent })
        }
        Builtin::DeleteRegion => first_argument(alloc, line, arguments),
        Builtin::RegionOf => {
            let pointer = first_argument(alloc, line, arguments)?;
            boxed(alloc, Expr::RegionOf { line, pointer })
        }
        Builtin::Putchar => {
            let byte = first_argument(alloc, line, arguments)?;
            boxed(alloc, Expr::Putchar { line, byte })
        }
        Builtin::Getchar => boxed(alloc, Expr::Getchar { line }),
    }
}

/// A call inside an expression: the arguments that have a parameter are compared before their
/// number is.
///
/// # Errors
///
/// The function is nowhere defined: it is unknown. What is called is no function, an argument
/// doesn't fit its parameter, one beyond is the word `NULL`, or the function gives no value: the
/// node is mistyped. The arguments
/// are more or fewer than the parameters: the arity is wrong. Or out of memory.
pub fn call_value(
    alloc: Global,
    at: Spot,
    callee: Callee,
    values: Vec<Typed>,
) -> Result<Typed, Stop>
    ensures ok { IfOk result (λ v. rule.call_value at (callee_of callee.entry) (map typed_of values.items) ≡ Holds (typed_of v)) }
    ensures err { IfErr result (StopsAt (rule.call_value at (callee_of callee.entry) (map typed_of values.items))) }
{
    let arguments = call_rule(alloc, true, at, callee, values)?;
    let ty = gives(alloc, callee)?;
    let code = called(alloc, at.line, callee, arguments)?;
    Ok(Typed {
        line: at.line,
        ty,
        code,
    })
}

/// A call as a statement, with its arguments converted.
fn called_alone(
    alloc: Global,
    line: u32,
    callee: Callee,
    arguments: Vec<Box<Expr>>,
) -> Result<Box<Stmt>, Stop>
    ensures ok { IfOk result (λ s. stmt_of s.value ≡ rule.called_alone line (callee_of callee.entry) (map code_of arguments.items)) }
    ensures err { IfErr result (λ s. s ≡ Stop.Memory) }
{
    match callee {
        Callee::Builtin(Builtin::DeleteRegion) => {
            let region = first_argument(alloc, line, arguments)?;
            let region = Box::into_inner(region);
            boxed(alloc, Stmt::Delete { line, region })
        }
        _ => {
            let value = called(alloc, line, callee, arguments)?;
            let value = Box::into_inner(value);
            boxed(alloc, Stmt::Evaluate { line, value })
        }
    }
}

/// A call as a statement, whose value is dropped if there is one.
///
/// # Errors
///
/// As inside an expression, but that the function needn't give a value.
pub fn call_statement(
    alloc: Global,
    at: Spot,
    callee: Callee,
    values: Vec<Typed>,
) -> Result<Box<Stmt>, Stop>
    ensures ok { IfOk result (λ s. rule.call_statement at (callee_of callee.entry) (map typed_of values.items) ≡ Holds (stmt_of s.value)) }
    ensures err { IfErr result (StopsAt (rule.call_statement at (callee_of callee.entry) (map typed_of values.items))) }
{
    let arguments = call_rule(alloc, false, at, callee, values)?;
    called_alone(alloc, at.line, callee, arguments)
}

/// `ralloc`: one object of a type in a region.
///
/// # Errors
///
/// The first argument is no region: the node is mistyped. Or out of memory.
pub fn allocation(alloc: Global, at: Spot, ty: Ty, region: Typed) -> Result<Typed, Stop>
    ensures ok { IfOk result (λ v. rule.allocation at (ty_of ty) (fitted_value region_type (typed_of region)) ≡ Holds (typed_of v)) }
    ensures err { IfErr result (StopsAt (rule.allocation at (ty_of ty) (fitted_value region_type (typed_of region)))) }
{
    let Some(region) = fitted(alloc, &Ty::Region, region)? else {
        return fails(at, Refusal::Mistyped);
    };
    allocated(alloc, at.line, ty, region)
}

/// One object in a region.
fn allocated(alloc: Global, line: u32, ty: Ty, region: Box<Expr>) -> Result<Typed, Stop>
    ensures ok { IfOk result (λ v. typed_of v ≡ record { line = line; ty = Some (pointer Plain (ty_of ty)); code = p.allocate line (expr_of region.value) (ty_of ty) }) }
    ensures err { IfErr result (λ s. s ≡ Stop.Memory) }
{
    let element = copy_of(alloc, &ty)?;
    let target = boxed(alloc, ty)?;
    let code = Expr::Allocate {
        line,
        region,
        element,
    };
    typed(alloc, line, Some(Ty::Pointer(Note::Plain, target)), code)
}

/// `rarrayalloc`: objects of a type, `number` of them, in a region.
///
/// # Errors
///
/// The first argument is no region, or the second no number: the node is mistyped. Or out of
/// memory.
pub fn array_allocation(
    alloc: Global,
    at: Spot,
    ty: Ty,
    region: Typed,
    number: Typed,
) -> Result<Typed, Stop>
    ensures ok { IfOk result (λ v. rule.array_allocation at (ty_of ty) (fitted_value region_type (typed_of region)) (fitted_value int (typed_of number)) ≡ Holds (typed_of v)) }
    ensures err { IfErr result (StopsAt (rule.array_allocation at (ty_of ty) (fitted_value region_type (typed_of region)) (fitted_value int (typed_of number)))) }
{
    let region = fitted(alloc, &Ty::Region, region)?;
    let number = fitted(alloc, &Ty::Int, number)?;
    match (region, number) {
        (Some(region), Some(number)) => allocated_array(alloc, at.line, ty, region, number),
        (_, _) => fails(at, Refusal::Mistyped),
    }
}

/// Objects in a region, as many as a number says.
fn allocated_array(
    alloc: Global,
    line: u32,
    ty: Ty,
    region: Box<Expr>,
    number: Box<Expr>,
) -> Result<Typed, Stop>
    ensures ok { IfOk result (λ v. typed_of v ≡ record { line = line; ty = Some (pointer Plain (ty_of ty)); code = p.allocate_array line (expr_of region.value) (expr_of number.value) (ty_of ty) }) }
    ensures err { IfErr result (λ s. s ≡ Stop.Memory) }
{
    let element = copy_of(alloc, &ty)?;
    let target = boxed(alloc, ty)?;
    let code = Expr::AllocateArray {
        line,
        region,
        number,
        element,
    };
    typed(alloc, line, Some(Ty::Pointer(Note::Plain, target)), code)
}
