// Nodes of expressions whose parts are typed already.
ghost use Rattle.std.specs.Prelude.{◌≡◌, ◌++◌, ◌∷◌, [], None, negsuc, length, map, IfOk, IfErr, OnOk};
ghost use Rattle.rc_core.specs.Programs as p;
ghost use Rattle.rc_core.specs.Shapes.{bytes_of, ty_of};
ghost use Rattle.rc_core.specs.Types.{char, int, pointer, region as region_type};
ghost use Rattle.rc_core.specs.declared.ty.Note.TheVariants.{Plain};
ghost use Rattle.rc_deletes.specs.Calls as calls;
ghost use Rattle.rc_deletes.specs.Expressions as rule;
ghost use Rattle.rc_deletes.specs.Judged.{Holds, with_part};
ghost use Rattle.rc_deletes.specs.Kinds.{sort_of};
ghost use Rattle.rc_deletes.specs.Operators as operators;
ghost use Rattle.rc_deletes.specs.Operators.{result as computed, meaning_of_value};
ghost use Rattle.rc_deletes.specs.Values as values;
ghost use Rattle.rc_typed_values.specs.Shapes.{typed_of, meant_of};
ghost use Rattle.rc_typed_values.specs.Stops.{StopsAt};
ghost use Rattle.rc_rules.specs.Shapes.{callee_of};
ghost use Rattle.rc_syntax.specs.Shape as written;
ghost use Rattle.rc_defined.specs.Contexts.{context_of};

use rc_core::ty::{NumberType, Signedness, Ty};
use rc_defined::{Context, defined_type};
use rc_operators::{binary_rule, cast_rule, conditional_rule};
use rc_rules::{
    Callee, allocation, array_allocation, call_value, eof_value, null_value, number_value,
    string_value,
};
use rc_syntax::tree::{BinaryOp, Spot, TypeName};
use rc_syntax::word::Text;
use rc_typed_values::{Meant, Stop, Typed, add};
use std::alloc::Global;

/// A number.
#[inline(never)]
pub(crate) fn number(
    alloc: Global,
    at: Spot,
    signedness: Signedness,
    value: u32,
) -> Result<Meant, Stop>
    ensures ok { IfOk result (λ m. meant_of m ≡ values.a_value (rule.number_value at signedness value)) }
    ensures err { IfErr result (λ s. s ≡ Stop.Memory) }
{
    Ok(Meant::Value(number_value(alloc, at, signedness, value)?))
}

/// The word `NULL`.
#[inline(never)]
pub(crate) fn null(alloc: Global, at: Spot) -> Result<Meant, Stop>
    ensures ok { IfOk result (λ m. meant_of m ≡ values.a_value (record { line = at.line; ty = None; code = p.null at.line })) }
    ensures err { IfErr result (λ s. s ≡ Stop.Memory) }
{
    Ok(Meant::Value(null_value(alloc, at)?))
}

/// The word `EOF`.
#[inline(never)]
pub(crate) fn eof(alloc: Global, at: Spot) -> Result<Meant, Stop>
    ensures ok { IfOk result (λ m. meant_of m ≡ values.a_value (computed at.line int (p.constant at.line Signedness.Signed (negsuc 0)))) }
    ensures err { IfErr result (λ s. s ≡ Stop.Memory) }
{
    Ok(Meant::Value(eof_value(alloc, at)?))
}

/// The number of the string literal that comes next.
fn next_string(strings: &[Vec<u8>]) -> Result<u32, Stop>
    ensures ok { IfOk result (λ n. n ≡ length strings.now) }
    ensures err { IfErr result (λ s. s ≡ Stop.Memory) }
{
    if strings.len() < 4294967295 {
        return Ok(strings.len() as u32);
    }
    Err(Stop::Memory)
}

/// Puts the bytes of a string literal after those before it.
#[tactic(auto, using(rc_defined::proofs::Lists::map_push))]
fn keep_string(alloc: Global, strings: &mut Vec<Vec<u8>>, text: &Text) -> Result<(), Stop>
    ensures ok { OnOk result (map bytes_of strings.new.items ≡ map bytes_of strings.old.items ++ text.now ∷ []) }
    ensures err { IfErr result (λ s. s ≡ Stop.Memory) }
{
    add(strings, Vec::from_slice(alloc, text.as_slice())?)
}

/// A string literal, which is numbered after those before it.
#[inline(never)]
pub(crate) fn string(
    alloc: Global,
    at: Spot,
    text: &Text,
    strings: &mut Vec<Vec<u8>>,
) -> Result<Meant, Stop>
    ensures ok { IfOk result (λ m. meant_of m ≡ values.a_value (computed at.line (pointer Plain char) (p.string at.line (length (map bytes_of strings.old.items))))) }
    ensures strings { OnOk result (map bytes_of strings.new.items ≡ map bytes_of strings.old.items ++ text.now ∷ []) }
    ensures err { IfErr result (λ s. s ≡ Stop.Memory) }
{
    let number = next_string(strings)?;
    keep_string(alloc, strings, text)?;
    Ok(Meant::Value(string_value(alloc, at, number)?))
}

/// A call that gives a value.
#[inline(never)]
#[tactic(auto, using(rc_defined::proofs::Stops::part_stops))]
pub(crate) fn call(
    alloc: Global,
    at: Spot,
    callee: Callee,
    given: Vec<Typed>,
) -> Result<Meant, Stop>
    ensures ok { IfOk result (λ m. meaning_of_value (calls.call_value at (callee_of callee.entry) (map typed_of given.items)) ≡ Holds (meant_of m)) }
    ensures err { IfErr result (StopsAt (meaning_of_value (calls.call_value at (callee_of callee.entry) (map typed_of given.items)))) }
{
    Ok(Meant::Value(call_value(alloc, at, callee, given)?))
}

#[tactic(auto, using(rc_defined::proofs::Stops::part_stops))]
fn allocate_typed(alloc: Global, at: Spot, ty: Ty, region: Typed) -> Result<Meant, Stop>
    ensures ok { IfOk result (λ m. meaning_of_value (calls.allocation at (ty_of ty) (values.fitted region_type (typed_of region))) ≡ Holds (meant_of m)) }
    ensures err { IfErr result (StopsAt (meaning_of_value (calls.allocation at (ty_of ty) (values.fitted region_type (typed_of region))))) }
{
    Ok(Meant::Value(allocation(alloc, at, ty, region)?))
}

/// `ralloc`, with the type as it is written.
#[inline(never)]
pub(crate) fn allocate(
    alloc: Global,
    context: &Context,
    at: Spot,
    n: &TypeName,
    region: Typed,
) -> Result<Meant, Stop>
    ensures ok { IfOk result (λ m. with_part (rule.type_rule (context_of context.now) (written.type_of n.now)) (λ u. meaning_of_value (calls.allocation at u (values.fitted region_type (typed_of region)))) ≡ Holds (meant_of m)) }
    ensures err { IfErr result (StopsAt (with_part (rule.type_rule (context_of context.now) (written.type_of n.now)) (λ u. meaning_of_value (calls.allocation at u (values.fitted region_type (typed_of region)))))) }
{
    let ty = defined_type(alloc, context, n)?;
    allocate_typed(alloc, at, ty, region)
}

#[tactic(auto, using(rc_defined::proofs::Stops::part_stops))]
fn allocate_typed_array(
    alloc: Global,
    at: Spot,
    ty: Ty,
    region: Typed,
    number: Typed,
) -> Result<Meant, Stop>
    ensures ok { IfOk result (λ m. meaning_of_value (calls.array_allocation at (ty_of ty) (values.fitted region_type (typed_of region)) (values.fitted int (typed_of number))) ≡ Holds (meant_of m)) }
    ensures err { IfErr result (StopsAt (meaning_of_value (calls.array_allocation at (ty_of ty) (values.fitted region_type (typed_of region)) (values.fitted int (typed_of number))))) }
{
    Ok(Meant::Value(array_allocation(alloc, at, ty, region, number)?))
}

/// `rarrayalloc`, with the type as it is written.
#[inline(never)]
pub(crate) fn allocate_array(
    alloc: Global,
    context: &Context,
    at: Spot,
    n: &TypeName,
    region: Typed,
    number: Typed,
) -> Result<Meant, Stop>
    ensures ok { IfOk result (λ m. with_part (rule.type_rule (context_of context.now) (written.type_of n.now)) (λ u. meaning_of_value (calls.array_allocation at u (values.fitted region_type (typed_of region)) (values.fitted int (typed_of number)))) ≡ Holds (meant_of m)) }
    ensures err { IfErr result (StopsAt (with_part (rule.type_rule (context_of context.now) (written.type_of n.now)) (λ u. meaning_of_value (calls.array_allocation at u (values.fitted region_type (typed_of region)) (values.fitted int (typed_of number)))))) }
{
    let ty = defined_type(alloc, context, n)?;
    allocate_typed_array(alloc, at, ty, region, number)
}

/// A cast.
#[inline(never)]
#[tactic(auto, using(rc_defined::proofs::Stops::part_stops))]
pub(crate) fn cast(alloc: Global, at: Spot, to: NumberType, v: Typed) -> Result<Meant, Stop>
    ensures ok { IfOk result (λ m. meaning_of_value (operators.cast_rule at to (sort_of (typed_of v).ty) (typed_of v)) ≡ Holds (meant_of m)) }
    ensures err { IfErr result (StopsAt (meaning_of_value (operators.cast_rule at to (sort_of (typed_of v).ty) (typed_of v)))) }
{
    Ok(Meant::Value(cast_rule(alloc, at, to, v)?))
}

/// An operator between two values.
#[inline(never)]
#[tactic(auto, using(rc_defined::proofs::Stops::part_stops))]
pub(crate) fn compute(
    alloc: Global,
    at: Spot,
    op: BinaryOp,
    v: Typed,
    w: Typed,
) -> Result<Meant, Stop>
    ensures ok { IfOk result (λ m. meaning_of_value (operators.binary_rule at op (typed_of v) (typed_of w)) ≡ Holds (meant_of m)) }
    ensures err { IfErr result (StopsAt (meaning_of_value (operators.binary_rule at op (typed_of v) (typed_of w)))) }
{
    Ok(Meant::Value(binary_rule(alloc, at, op, v, w)?))
}

/// `?:`.
#[inline(never)]
#[tactic(auto, using(rc_defined::proofs::Stops::part_stops))]
pub(crate) fn choose(
    alloc: Global,
    at: Spot,
    test: Typed,
    v: Typed,
    w: Typed,
) -> Result<Meant, Stop>
    ensures ok { IfOk result (λ m. meaning_of_value (operators.conditional_rule at (typed_of test) (typed_of v) (typed_of w)) ≡ Holds (meant_of m)) }
    ensures err { IfErr result (StopsAt (meaning_of_value (operators.conditional_rule at (typed_of test) (typed_of v) (typed_of w)))) }
{
    Ok(Meant::Value(conditional_rule(alloc, at, test, v, w)?))
}
