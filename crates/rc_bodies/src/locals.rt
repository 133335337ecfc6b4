// Locals.
ghost use Rattle.std.specs.Prelude.{◌≡◌, ◌++◌, ◌∷◌, [], map, length, IfOk, IfErr, OnOk};
ghost use Rattle.rc_core.specs.Shapes.{ty_of, stmt_of, stmts_of};
ghost use Rattle.rc_deletes.specs.Judged.{Holds};
ghost use Rattle.rc_deletes.specs.Scopes.{a_local};
ghost use Rattle.rc_deletes.specs.Statements as rule;
ghost use Rattle.rc_typed_values.specs.Stops.{StopsAt};
ghost use Rattle.rc_syntax.specs.Shape as written;
ghost use Rattle.rc_defined.specs.Contexts.{context_of, scope_of};
ghost use Rattle.rc_bodies.specs.Here.{here_of};

use crate::here::Here;
use crate::nodes::{add_step, block, empty_block};
use crate::own::{own_simple, own_value};
use rc_core::stmt::Stmt as Step;
use rc_core::ty::Ty;
use rc_defined::{Context, defined_type, meaning};
use rc_deletes::Refusal;
use rc_item_rules::{declaration, fitting, is_twice};
use rc_rules::Meaning;
use rc_scope::Scopes;
use rc_syntax::tree::{ForStart, Local, Name};
use rc_typed_values::{Stop, add, copy_of, fails};
use std::alloc::Global;

/// A declared name is new in its scope.
///
/// # Errors
///
/// At the name, where a local of the same scope has it.
pub fn new_name(here: &Here, name: &Name) -> Result<(), Stop>
    ensures ok { OnOk result (rule.new_name here.now.first (scope_of here.now.names) name.now ≡ Holds tt) }
    ensures err { IfErr result (StopsAt (rule.new_name here.now.first (scope_of here.now.names) name.now)) }
{
    if is_twice(here.first, meaning(&here.names, name)) {
        return fails(name.spot, Refusal::Twice);
    }
    Ok(())
}

/// A name stands for a local.
#[tactic(auto, using(rc_defined::proofs::Meanings::scope_more))]
fn name_local(
    alloc: Global,
    names: &mut Scopes<Meaning>,
    number: u32,
    ty: &Ty,
    name: &Name,
) -> Result<(), Stop>
    ensures ok { OnOk result (scope_of names.new ≡ (name.now.text, a_local number (ty_of ty.now)) ∷ scope_of names.old) }
    ensures err { IfErr result (λ s. s ≡ Stop.Memory) }
{
    let ty = copy_of(alloc, ty)?;
    Ok(names.push(name.text.as_slice(), Meaning::Local(number, ty))?)
}

/// Puts a local of a type after those before it.
///
/// # Errors
///
/// Out of memory.
#[tactic(auto, using(rc_defined::proofs::Lists::map_push))]
pub fn add_local(alloc: Global, locals: &mut Vec<Ty>, ty: &Ty) -> Result<(), Stop>
    ensures ok { OnOk result (map ty_of locals.new.items ≡ map ty_of locals.old.items ++ ty_of ty.now ∷ []) }
    ensures err { IfErr result (λ s. s ≡ Stop.Memory) }
{
    let ty = copy_of(alloc, ty)?;
    add(locals, ty)
}

/// A local with a name, which holds from here on. Its number.
///
/// # Errors
///
/// Out of memory, or of numbers of 32 bits for locals.
pub fn named_local(alloc: Global, here: &mut Here, ty: &Ty, name: &Name) -> Result<u32, Stop>
    ensures ok { IfOk result (λ n. n ≡ length (here_of here.old).locals) }
    ensures behind { OnOk result (here_of here.new ≡ rule.with_local (here_of here.old) (ty_of ty.now) name.now.text) }
    ensures err { IfErr result (λ s. s ≡ Stop.Memory) }
{
    let number = here.next_local()?;
    name_local(alloc, &mut here.names, number, ty, name)?;
    add_local(alloc, &mut here.locals, ty)?;
    Ok(number)
}

/// A declarator of a local.
#[tactic(auto, using(rc_defined::proofs::Stops::left_stops, rc_defined::proofs::Stops::second_stops, rc_defined::proofs::Stops::third_stops, rc_defined::proofs::Stops::all_stop, rc_defined::proofs::Stops::all_ruled))]
pub(crate) fn local(
    l: &Local,
    alloc: Global,
    context: &Context,
    here: &mut Here,
) -> Result<Box<Step>, Stop>
    ensures ok { IfOk result (λ s. rule.local (context_of context.now) (here_of here.old) (written.local_of l.now) ≡ Holds (stmt_of s.value)) }
    ensures behind { OnOk result (here_of here.new ≡ rule.behind_local (context_of context.now) (here_of here.old) (written.local_of l.now)) }
    ensures err { IfErr result (StopsAt (rule.local (context_of context.now) (here_of here.old) (written.local_of l.now))) }
{
    let ty = defined_type(alloc, context, &l.type_name)?;
    new_name(here, &l.name)?;
    let number = named_local(alloc, here, &ty, &l.name)?;
    let initial = own_value(&l.initial, alloc, context, here)?;
    let step = declaration(alloc, l.spot.line, number, &ty, initial)?;
    fitting(l.spot, step)
}

/// The declarators of locals, in their order.
#[tactic(auto, using(crate::proofs::Walks::after_steps_nil, crate::proofs::Walks::locals_step, crate::proofs::Walks::locals_end, crate::proofs::Walks::locals_stop, crate::proofs::Walks::locals_behind, crate::proofs::Walks::locals_behind_end, rc_defined::proofs::Lists::map_push))]
pub(crate) fn locals_of(
    ls: &[Local],
    alloc: Global,
    context: &Context,
    here: &mut Here,
) -> Result<Vec<Step>, Stop>
    ensures ok { IfOk result (λ steps. rule.locals (context_of context.now) (here_of here.old) (map written.local_of ls.now) ≡ Holds (stmts_of steps.items)) }
    ensures behind { OnOk result (here_of here.new ≡ rule.behind_locals (context_of context.now) (here_of here.old) (map written.local_of ls.now)) }
    ensures err { IfErr result (StopsAt (rule.locals (context_of context.now) (here_of here.old) (map written.local_of ls.now))) }
{
    let mut steps = Vec::new(alloc);
    for l in ls {
        let step = local(l, alloc, context, here)?;
        add_step(&mut steps, step)?;
    }
    Ok(steps)
}

/// The first part of the head of a `for`.
#[tactic(auto, using(rc_defined::proofs::Stops::part_stops, rc_defined::proofs::Stops::part_held))]
pub(crate) fn for_start(
    start: &ForStart,
    alloc: Global,
    context: &Context,
    here: &mut Here,
) -> Result<Box<Step>, Stop>
    ensures ok { IfOk result (λ s. rule.for_start (context_of context.now) (here_of here.old) (written.start_of start.now) ≡ Holds (stmt_of s.value)) }
    ensures behind { OnOk result (here_of here.new ≡ rule.behind_start (context_of context.now) (here_of here.old) (written.start_of start.now)) }
    ensures err { IfErr result (StopsAt (rule.for_start (context_of context.now) (here_of here.old) (written.start_of start.now))) }
{
    match start {
        ForStart::Nothing => empty_block(alloc),
        ForStart::Simple(s) => own_simple(s, alloc, context, here),
        ForStart::Locals(ls) => {
            let body = locals_of(ls, alloc, context, here)?;
            block(alloc, body)
        }
    }
}
