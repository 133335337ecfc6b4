// Heads of functions.
ghost use Rattle.std.specs.Prelude.{◌≡◌, ◌&&◌, ◌||◌, map, option_map, is_none, IfOk, IfErr, OnOk};
ghost use Rattle.rc_core.specs.Shapes.{ty_of};
ghost use Rattle.rc_core.specs.Typing as typing;
ghost use Rattle.rc_deletes.specs.Items as rule;
ghost use Rattle.rc_deletes.specs.Judged.{Holds};
ghost use Rattle.rc_deletes.specs.Kinds.{written_type};
ghost use Rattle.rc_deletes.specs.Scopes.{meaning_in};
ghost use Rattle.rc_rules.specs.Shapes.{signature_of};
ghost use Rattle.rc_typed_values.specs.Stops.{StopsAt};
ghost use Rattle.rc_syntax.specs.Shape as written;
ghost use Rattle.rc_defined.specs.Contexts.{context_of, scope_of};
ghost use Rattle.rc_bodies.specs.Here.{here_of};
ghost use Rattle.rc_items.specs.Outside.{outside_of};
ghost use Rattle.rc_items.specs.Parts.{written_params, written_result, written_signature, with_function};

use crate::definitions::add_meaning;
use crate::outside::Outside;
use crate::parts::Head;
use rc_bodies::{Here, add_local, named_local, new_name};
use rc_core::ty::Ty;
use rc_defined::{Context, defined_type, meaning, type_in};
use rc_deletes::Refusal;
use rc_item_rules::function_name;
use rc_rules::{Meaning, Signature};
use rc_syntax::tree::{Name, Param, TypeName};
use rc_typed_values::{Stop, add, is_struct, refuse_where};
use std::alloc::Global;

/// The types of parameters.
#[tactic(auto, using(crate::proofs::Params::taken_step, crate::proofs::Params::taken_end))]
fn taken(alloc: Global, context: &Context, params: &[Param]) -> Result<Vec<Ty>, Stop>
    ensures ok { IfOk result (λ types. map ty_of types.items ≡ map (λ q. written_type (context_of context.now).types q.type_name) (map written.param_of params.now)) }
    ensures err { IfErr result (λ s. s ≡ Stop.Memory) }
{
    let mut types = Vec::new(alloc);
    for q in params {
        let ty = type_in(alloc, &context.types, &q.type_name)?;
        add(&mut types, ty)?;
    }
    Ok(types)
}

/// The type of a result, none for `void`.
pub(crate) fn given(
    alloc: Global,
    context: &Context,
    gives: &Option<TypeName>,
) -> Result<Option<Ty>, Stop>
    ensures ok { IfOk result (λ t. option_map ty_of t ≡ rule.type_option (context_of context.now) (written.mapped written.type_of gives.now)) }
    ensures err { IfErr result (λ s. s ≡ Stop.Memory) }
{
    match gives {
        None => Ok(None),
        Some(n) => {
            let ty = type_in(alloc, &context.types, n)?;
            Ok(Some(ty))
        }
    }
}

/// What declarations of a function agree in.
fn signature(alloc: Global, context: &Context, head: &Head<'_>) -> Result<Signature, Stop>
    ensures ok { IfOk result (λ s. signature_of s ≡ written_signature (context_of context.now) head.now) }
    ensures err { IfErr result (λ s. s ≡ Stop.Memory) }
{
    let takes = taken(alloc, context, head.params)?;
    let gives = given(alloc, context, head.gives)?;
    Ok(Signature {
        takes,
        gives,
        deletes: head.deletes,
    })
}

/// A result, whose struct is defined somewhere.
fn result_rule(alloc: Global, context: &Context, gives: &Option<TypeName>) -> Result<(), Stop>
    ensures ok { OnOk result (rule.result_rule (context_of context.now) (written.mapped written.type_of gives.now) ≡ Holds tt) }
    ensures err { IfErr result (StopsAt (rule.result_rule (context_of context.now) (written.mapped written.type_of gives.now))) }
{
    match gives {
        None => Ok(()),
        Some(n) => {
            defined_type(alloc, context, n)?;
            Ok(())
        }
    }
}

/// The name of a parameter is new among those before it.
fn param_name(here: &Here, name: &Option<Name>) -> Result<(), Stop>
    ensures ok { OnOk result (rule.param_name (here_of here.now) name.now ≡ Holds tt) }
    ensures err { IfErr result (StopsAt (rule.param_name (here_of here.now) name.now)) }
{
    match name {
        None => Ok(()),
        Some(name) => new_name(here, name),
    }
}

/// Whether a parameter is a struct, or lacks a name that it needs.
fn is_unfit(ty: &Ty, has_body: bool, name: &Option<Name>) -> bool
    ensures { result ≡ (typing.is_struct (ty_of ty.now) || (has_body && is_none name.now)) }
{
    if is_struct(ty) {
        return true;
    }
    if has_body {
        return name.is_none();
    }
    false
}

/// A parameter is a local, which may have no name.
fn add_param(alloc: Global, here: &mut Here, ty: &Ty, q: &Param) -> Result<(), Stop>
    ensures ok { (context : Context) → ty_of ty.now ≡ written_type (context_of context).types (written.type_of q.now.type_name) → OnOk result (here_of here.new ≡ rule.with_param (context_of context) (here_of here.old) (written.param_of q.now)) }
    ensures err { IfErr result (λ s. s ≡ Stop.Memory) }
{
    match &q.name {
        None => add_local(alloc, &mut here.locals, ty),
        Some(name) => {
            named_local(alloc, here, ty, name)?;
            Ok(())
        }
    }
}

/// A parameter, which is a local from here on.
#[tactic(auto, using(rc_defined::proofs::Stops::left_stops, rc_defined::proofs::Stops::right_stops, rc_defined::proofs::Stops::both_stop, rc_defined::proofs::Stops::both_ruled))]
fn param(
    q: &Param,
    alloc: Global,
    context: &Context,
    has_body: bool,
    here: &mut Here,
) -> Result<(), Stop>
    ensures ok { OnOk result (rule.param_rule (context_of context.now) has_body (here_of here.old) (written.param_of q.now) ≡ Holds tt) }
    ensures behind { OnOk result (here_of here.new ≡ rule.with_param (context_of context.now) (here_of here.old) (written.param_of q.now)) }
    ensures err { IfErr result (StopsAt (rule.param_rule (context_of context.now) has_body (here_of here.old) (written.param_of q.now))) }
{
    let ty = defined_type(alloc, context, &q.type_name)?;
    param_name(here, &q.name)?;
    refuse_where(is_unfit(&ty, has_body, &q.name), q.spot, Refusal::Mistyped)?;
    add_param(alloc, here, &ty, q)
}

/// The parameters of a function, which are its first locals.
pub(crate) fn params_of(
    qs: &[Param],
    alloc: Global,
    context: &Context,
    has_body: bool,
    here: &mut Here,
) -> Result<(), Stop>
    ensures ok { OnOk result (rule.params_rule (context_of context.now) has_body (here_of here.old) (map written.param_of qs.now) ≡ Holds tt) }
    ensures behind { OnOk result (here_of here.new ≡ rule.with_params (context_of context.now) (here_of here.old) (map written.param_of qs.now)) }
    ensures err { IfErr result (StopsAt (rule.params_rule (context_of context.now) has_body (here_of here.old) (map written.param_of qs.now))) }
{
    for q in qs {
        param(q, alloc, context, has_body, here)?;
    }
    Ok(())
}

/// The name of a function stands for it, unless it stood for something before.
fn declare_name(
    head: &Head<'_>,
    has_body: bool,
    alloc: Global,
    context: &Context,
    outside: &mut Outside,
) -> Result<(), Stop>
    ensures ok { OnOk result (rule.function_name head.now.name.now has_body outside.old.functions (meaning_in (scope_of outside.old.names) head.now.name.now.text) (written_signature (context_of context.now) head.now) ≡ Holds tt) }
    ensures behind { OnOk result (outside_of outside.new ≡ with_function (context_of context.now) (outside_of outside.old) head.now) }
    ensures err { IfErr result (StopsAt (rule.function_name head.now.name.now has_body outside.old.functions (meaning_in (scope_of outside.old.names) head.now.name.now.text) (written_signature (context_of context.now) head.now))) }
{
    let signature = signature(alloc, context, head)?;
    let known = meaning(&outside.names, head.name);
    function_name(head.name, has_body, outside.functions, known, &signature)?;
    let number = context.functions.find(head.name.text.as_slice());
    let stands_for = Meaning::Function(number, signature);
    add_meaning(&mut outside.names, head.name, stands_for)
}

/// The result and the name of a function, which is declared from here on.
#[tactic(auto, using(rc_defined::proofs::Stops::left_stops, rc_defined::proofs::Stops::second_stops))]
pub(crate) fn declare(
    head: &Head<'_>,
    has_body: bool,
    alloc: Global,
    context: &Context,
    outside: &mut Outside,
) -> Result<(), Stop>
    ensures result_type { OnOk result (rule.result_rule (context_of context.now) (written_result head.now) ≡ Holds tt) }
    ensures name { OnOk result (rule.function_name head.now.name.now has_body outside.old.functions (meaning_in (scope_of outside.old.names) head.now.name.now.text) (written_signature (context_of context.now) head.now) ≡ Holds tt) }
    ensures behind { OnOk result (outside_of outside.new ≡ with_function (context_of context.now) (outside_of outside.old) head.now) }
    ensures err { IfErr result (StopsAt (rule.head_rule (context_of context.now) (outside_of outside.old) has_body head.now.deletes (written_result head.now) head.now.name.now (written_params head.now))) }
{
    result_rule(alloc, context, head.gives)?;
    declare_name(head, has_body, alloc, context, outside)
}
