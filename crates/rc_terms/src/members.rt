// Fields of places, and of what pointers lead to.
ghost use Rattle.std.specs.Prelude.{◌≡◌, option_map, IfOk, IfErr};
ghost use Rattle.rc_core.specs.Shapes.{ty_of, place_of};
ghost use Rattle.rc_deletes.specs.Expressions as rule;
ghost use Rattle.rc_deletes.specs.Judged.{Holds};
ghost use Rattle.rc_deletes.specs.Values.{a_place};
ghost use Rattle.rc_typed_values.specs.Shapes.{typed_of, meant_of};
ghost use Rattle.rc_typed_values.specs.Stops.{StopsAt};
ghost use Rattle.rc_defined.specs.Contexts.{context_of};
ghost use Rattle.rc_terms.specs.Pointed.{struct_of, struct_behind};

use rc_core::expr::Place;
use rc_core::ty::Ty;
use rc_defined::Context;
use rc_deletes::Refusal;
use rc_operators::pointed;
use rc_rules::field_rule;
use rc_syntax::tree::{Name, Spot};
use rc_typed_values::{Meant, Stop, Typed, fails};
use std::alloc::Global;

/// The number of a struct.
fn struct_number(ty: &Ty) -> Option<u32>
    ensures { result ≡ struct_of (ty_of ty.now) }
{
    match ty {
        Ty::Struct(structure) => Some(*structure),
        _ => None,
    }
}

/// The struct that a type of pointers leads to.
fn pointed_struct(ty: &Option<Ty>) -> Option<u32>
    ensures { result ≡ struct_behind (option_map ty_of ty.now) }
{
    match ty {
        Some(Ty::Pointer(_, target)) => struct_number(target),
        _ => None,
    }
}

/// A field of a place whose type may be a struct.
#[tactic(auto, using(crate::proofs::Reached::member_is, crate::proofs::Reached::no_member))]
fn place_member(
    alloc: Global,
    context: &Context,
    at: Spot,
    name: &Name,
    place: Box<Place>,
    ty: Ty,
) -> Result<Meant, Stop>
    ensures ok { IfOk result (λ m. rule.member_rule (context_of context.now) at name.now (a_place (place_of place.value) (ty_of ty)) ≡ Holds (meant_of m)) }
    ensures err { IfErr result (StopsAt (rule.member_rule (context_of context.now) at name.now (a_place (place_of place.value) (ty_of ty)))) }
{
    let Some(structure) = struct_number(&ty) else {
        return fails(at, Refusal::Mistyped);
    };
    let found = context.field(structure, name);
    field_rule(alloc, name, place, structure, found)
}

/// A field of a place of struct type.
#[inline(never)]
pub(crate) fn member(
    alloc: Global,
    context: &Context,
    at: Spot,
    name: &Name,
    meant: Meant,
) -> Result<Meant, Stop>
    ensures ok { IfOk result (λ m. rule.member_rule (context_of context.now) at name.now (meant_of meant) ≡ Holds (meant_of m)) }
    ensures err { IfErr result (StopsAt (rule.member_rule (context_of context.now) at name.now (meant_of meant))) }
{
    match meant {
        Meant::Place(place, ty) => place_member(alloc, context, at, name, place, ty),
        _ => fails(at, Refusal::Mistyped),
    }
}

/// A field of the struct that a pointer leads to.
#[inline(never)]
#[tactic(auto, using(crate::proofs::Reached::arrow_is, crate::proofs::Reached::no_arrow))]
pub(crate) fn arrow(
    alloc: Global,
    context: &Context,
    at: Spot,
    name: &Name,
    v: Typed,
) -> Result<Meant, Stop>
    ensures ok { IfOk result (λ m. rule.arrow_rule (context_of context.now) at name.now (typed_of v).ty (typed_of v).code ≡ Holds (meant_of m)) }
    ensures err { IfErr result (StopsAt (rule.arrow_rule (context_of context.now) at name.now (typed_of v).ty (typed_of v).code)) }
{
    let Some(structure) = pointed_struct(&v.ty) else {
        return fails(at, Refusal::Mistyped);
    };
    let place = pointed(alloc, v.code)?;
    let found = context.field(structure, name);
    field_rule(alloc, name, place, structure, found)
}
