// The rules of what stands outside of functions, one node at a time.
ghost use Rattle.std.specs.Prelude.{◌≡◌, [], ◌∷◌, map, option_map, IfOk, OnOk, IfErr, Option, Some, None, ◌||◌, nat_lt, is_none, ◌&&◌};
ghost use Rattle.rc_core.specs.Shapes.{ty_of};
ghost use Rattle.rc_deletes.specs.Answer as answer;
ghost use Rattle.rc_deletes.specs.Builtins.{parameter_of};
ghost use Rattle.rc_deletes.specs.Items as rule;
ghost use Rattle.rc_deletes.specs.Judged.{Holds, failing, ruled};
ghost use Rattle.rc_deletes.specs.Scopes.{Context};
ghost use Rattle.rc_deletes.specs.declared.fault.Refusal.TheVariants.{Mistyped, TooBig};
ghost use Rattle.rc_typed_values.specs.Stops.{StopsAt, IsRule};
ghost use Rattle.rc_rules.specs.Shapes.{meaning_of, signature_of};
ghost use Rattle.rc_syntax.specs.Shape as written;
ghost use Rattle.rc_syntax.specs.Tree as t;

use rc_core::converted;
use rc_core::ty::Ty;
use rc_deletes::{Builtin, Parameter, Refusal, Sort};
use rc_rules::{Meaning, Signature};
use rc_syntax::tree::{Base, Constant, Name, Param, Spot, TypeName};
use rc_typed_values::{Stop, fails, is_struct, same_type, sort_of_type};

/// A name that is declared once.
///
/// # Errors
///
/// It is declared twice.
pub fn once(name: &Name, twice: bool) -> Result<(), Stop>
    ensures ok { OnOk result (rule.once name.now twice ≡ Holds tt) }
    ensures err { IfErr result (StopsAt (rule.once name.now twice)) }
    ensures no_memory { IfErr result IsRule }
{
    if twice {
        return fails(name.spot, Refusal::Twice);
    }
    Ok(())
}

/// Whether an array has no elements.
pub fn is_empty(length: Option<u32>) -> bool
    ensures { result ≡ rule.is_empty length }
{
    match length {
        Some(length) => length == 0,
        None => false,
    }
}

/// The value that a constant writes, none for the word `NULL`.
fn written_value(constant: &Constant) -> Option<i64>
    ensures { result ≡ rule.written_value constant.now }
{
    match constant {
        Constant::Number(_, n, _) => Some(*n as i64),
        Constant::Negative(_, n, _) => Some(-(*n as i64)),
        Constant::Character(_, c) => Some(*c as i64),
        Constant::Null(_) => None,
        Constant::Eof(_) => Some(-1),
    }
}

/// The first value of a global of a sort, by the value that is written, where it fits.
fn initial_by(sort: Sort, value: Option<i64>) -> Option<i64>
    ensures { result ≡ rule.initial_by sort value }
{
    match (sort, value) {
        (Sort::Number(to), Some(value)) => Some(converted(to, value)),
        (Sort::Region, None) => Some(0),
        (Sort::Pointer, None) => Some(0),
        (_, _) => None,
    }
}

/// The first value of a global of a type, an array where it has a length: 0 where none is written.
/// None where the constant doesn't fit: a number begins with a number, a region or pointer with
/// `NULL`, and an array and a struct with nothing.
pub fn initial_of(ty: &Ty, length: Option<u32>, constant: &Option<Constant>) -> Option<i64>
    ensures { result ≡ rule.initial_of (ty_of ty.now) length constant.now }
{
    match (length, constant) {
        (_, None) => Some(0),
        (None, Some(constant)) => initial_by(sort_of_type(ty), written_value(constant)),
        (Some(_), Some(_)) => None,
    }
}

/// The first value of a global, where the globals up to and with it have `cells` cells together.
///
/// # Errors
///
/// The constant doesn't fit: the node is mistyped. Or it is an array without elements, or the
/// globals have over 1,048,576 cells: it is too big.
pub fn global_rule(
    at: Spot,
    length: Option<u32>,
    cells: u64,
    initial: Option<i64>,
) -> Result<i64, Stop>
    ensures ok { (context : Context) (n : t.TypeName) → IfOk result (λ z. rule.global_made context at n length cells initial ≡ Holds (record { globals = rule.global_of context n length z ∷ []; functions = [] })) }
    ensures err { (context : Context) (n : t.TypeName) → IfErr result (StopsAt (rule.global_made context at n length cells initial)) }
    ensures no_memory { IfErr result IsRule }
{
    let Some(value) = initial else {
        return fails(at, Refusal::Mistyped);
    };
    if is_empty(length) {
        return fails(at, Refusal::TooBig);
    }
    if cells > rc_base::MOST_GLOBAL_CELLS {
        return fails(at, Refusal::TooBig);
    }
    Ok(value)
}

/// Whether two functions give the same, all annotations included.
fn same_result(a: &Option<Ty>, b: &Option<Ty>) -> bool
    ensures { result ≡ rule.same_result (option_map ty_of a.now) (option_map ty_of b.now) }
{
    match (a, b) {
        (None, None) => true,
        (Some(a), Some(b)) => same_type(a, b),
        (_, _) => false,
    }
}

/// Whether two functions take the same, all annotations included.
#[tactic(auto, using(crate::proofs::Agreeing::other_lengths))]
fn same_takes(a: &[Ty], b: &[Ty]) -> bool
    ensures { result ≡ rule.same_takes (map ty_of a.now) (map ty_of b.now) }
{
    if a.len() != b.len() {
        return false;
    }
    for i in 0..a.len() {
        if !same_type(&a[i], &b[i]) {
            return false;
        }
    }
    true
}

/// Whether both are true, or both false.
fn same_bool(a: bool, b: bool) -> bool
    ensures { result ≡ rule.same_bool a b }
{
    if a {
        return b;
    }
    !b
}

/// Whether two declarations of a function agree, the annotation of each last star included.
fn agrees(a: &Signature, b: &Signature) -> bool
    ensures { result ≡ rule.agrees (signature_of a.now) (signature_of b.now) }
{
    if !same_takes(&a.takes, &b.takes) {
        return false;
    }
    if !same_result(&a.gives, &b.gives) {
        return false;
    }
    same_bool(a.deletes, b.deletes)
}

/// Whether a declaration can say what a parameter of a built-in function takes, and says this type.
fn is_taken(parameter: Parameter, ty: &Ty) -> bool
    ensures { result ≡ rule.is_taken (parameter_of parameter) (ty_of ty.now) }
{
    match parameter {
        Parameter::Int => same_type(&Ty::Int, ty),
        Parameter::Region => same_type(&Ty::Region, ty),
        Parameter::AnyPointer => false,
    }
}

/// Whether a built-in function takes what a declaration says.
#[tactic(auto, using(crate::proofs::Agreeing::other_numbers))]
fn are_taken(parameters: &[Parameter], types: &[Ty]) -> bool
    ensures { result ≡ rule.are_taken (map parameter_of parameters.now) (map ty_of types.now) }
{
    if parameters.len() != types.len() {
        return false;
    }
    for i in 0..parameters.len() {
        if !is_taken(parameters[i], &types[i]) {
            return false;
        }
    }
    true
}

/// Whether a declaration agrees with a function that every text has. None does with `regionof`,
/// which takes pointers of every type.
fn builtin_agrees(builtin: Builtin, s: &Signature) -> bool
    ensures { result ≡ rule.agrees_with builtin (signature_of s.now) }
{
    if !are_taken(builtin.parameters(), &s.takes) {
        return false;
    }
    if !same_result(&builtin.gives(), &s.gives) {
        return false;
    }
    same_bool(builtin.deletes(), s.deletes)
}

/// The name of a function that was declared before.
fn declared_again(name: &Name, twice: bool, agrees: bool) -> Result<(), Stop>
    ensures ok { OnOk result (rule.declared_again name.now twice agrees ≡ Holds tt) }
    ensures err { IfErr result (StopsAt (rule.declared_again name.now twice agrees)) }
    ensures no_memory { IfErr result IsRule }
{
    if twice {
        return fails(name.spot, Refusal::Twice);
    }
    if agrees {
        return Ok(());
    }
    fails(name.spot, Refusal::Mistyped)
}

/// Whether what has this number, if it has one, is among the first `count` definitions.
pub fn is_defined_before(count: u32, number: Option<u32>) -> bool
    ensures { result ≡ rule.is_defined_before count number }
{
    match number {
        Some(number) => number < count,
        None => false,
    }
}

/// Whether a body defines a function once more, where `functions` are defined before.
fn is_defined_again(has_body: bool, functions: u32, number: Option<u32>) -> bool
    ensures { result ≡ (has_body && rule.is_defined_before functions number) }
{
    if has_body {
        return is_defined_before(functions, number);
    }
    false
}

/// The name of a function, where `functions` are defined before: it is new, or was declared before in
/// the same way, and isn't defined twice.
///
/// # Errors
///
/// The name is that of a global or of a function that is defined already: it is declared twice.
/// Or the declarations don't agree: it is mistyped.
pub fn function_name(
    name: &Name,
    has_body: bool,
    functions: u32,
    meaning: Option<&Meaning>,
    s: &Signature,
) -> Result<(), Stop>
    ensures ok { OnOk result (rule.function_name name.now has_body functions (option_map (λ m. meaning_of m.now) meaning.entry) (signature_of s.now) ≡ Holds tt) }
    ensures err { IfErr result (StopsAt (rule.function_name name.now has_body functions (option_map (λ m. meaning_of m.now) meaning.entry) (signature_of s.now))) }
    ensures no_memory { IfErr result IsRule }
{
    match meaning {
        None => Ok(()),
        Some(Meaning::Local(_, _)) => Ok(()),
        Some(Meaning::Global(_, _, _)) => fails(name.spot, Refusal::Twice),
        Some(Meaning::Builtin(builtin)) => {
            declared_again(name, has_body, builtin_agrees(*builtin, s))
        }
        Some(Meaning::Function(number, first)) => declared_again(
            name,
            is_defined_again(has_body, functions, *number),
            agrees(first, s),
        ),
    }
}

/// Whether a result is a struct.
pub fn is_struct_option(ty: &Option<Ty>) -> bool
    ensures { result ≡ rule.is_struct_option (option_map ty_of ty.now) }
{
    match ty {
        Some(ty) => is_struct(ty),
        None => false,
    }
}

/// Whether a base is `int`.
fn is_int(base: &Base) -> bool
    ensures { result ≡ answer.is_int base.now }
{
    matches!(base, Base::Int(_))
}

/// Whether a result is exactly `int`.
pub fn gives_int(result_type: &Option<TypeName>) -> bool
    ensures { result ≡ answer.gives_int (written.mapped written.type_of result_type.now) }
{
    match result_type {
        Some(n) => {
            if n.stars.is_empty() {
                return is_int(&n.base);
            }
            false
        }
        None => false,
    }
}

/// Whether a function has no parameters.
pub fn takes_nothing(params: &[Param]) -> bool
    ensures { result ≡ answer.takes_nothing (map written.param_of params.now) }
{
    params.is_empty()
}

/// The line of a `main` that has parameters or another result than `int`, where it has.
pub fn main_shape(at: Spot, fits: bool) -> Option<u32>
    ensures { result ≡ answer.main_shape at fits }
{
    if fits {
        return None;
    }
    Some(at.line)
}
