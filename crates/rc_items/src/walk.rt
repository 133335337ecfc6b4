// The walk over items.
ghost use Rattle.std.specs.Prelude.{◌≡◌, ◌∷◌, None, Some, false, true, length, map, option_map, IfOk, IfErr, OnOk};
ghost use Rattle.rc_core.specs.Shapes.{bytes_of, ty_of, stmts_of};
ghost use Rattle.rc_deletes.specs.Builtins.{row};
ghost use Rattle.rc_deletes.specs.Items as rule;
ghost use Rattle.rc_deletes.specs.Judged.{Holds, with_parts};
ghost use Rattle.rc_deletes.specs.Scopes.{a_builtin};
ghost use Rattle.rc_deletes.specs.Statements as statements;
ghost use Rattle.rc_typed_values.specs.Stops.{StopsAt};
ghost use Rattle.rc_syntax.specs.Shape as written;
ghost use Rattle.rc_syntax.specs.Tree as t;
ghost use Rattle.rc_defined.specs.Contexts.{context_of, scope_of};
ghost use Rattle.rc_bodies.specs.Here.{here_of};
ghost use Rattle.rc_items.specs.Outside.{outside_of, made_of, all_made};
ghost use Rattle.rc_items.specs.Parts.{written_global, written_function};

use crate::definitions::{behind_definition, global, structure};
use crate::heads::{declare, given, params_of};
use crate::outside::Outside;
use crate::parts::{Head, WrittenGlobal};
use crate::produced::Produced;
use rc_bodies::{Enclosing, Here, stmts};
use rc_core::parts::{Function, Global as GlobalPart};
use rc_core::stmt::Stmt as Step;
use rc_core::ty::Ty;
use rc_defined::{Context, before_global, goes_on};
use rc_deletes::{Builtin, Refusal};
use rc_item_rules::is_struct_option;
use rc_rules::Meaning;
use rc_scope::Scopes;
use rc_syntax::tree::{Field, Item, Name, Param, Spot, Stmt};
use rc_typed_values::{Stop, add, refuse_where};
use std::alloc::Global;

/// A struct.
fn struct_item(
    at: Spot,
    name: &Name,
    fields: &[Field],
    alloc: Global,
    context: &Context,
    outside: &mut Outside,
) -> Result<Produced, Stop>
    ensures ok { IfOk result (λ p. rule.item (context_of context.now) (outside_of outside.old) (t.struct at name.now (map written.field_of fields.now)) ≡ Holds (made_of p)) }
    ensures behind { OnOk result (outside_of outside.new ≡ rule.behind_item (context_of context.now) (outside_of outside.old) (t.struct at name.now (map written.field_of fields.now))) }
    ensures err { IfErr result (StopsAt (rule.item (context_of context.now) (outside_of outside.old) (t.struct at name.now (map written.field_of fields.now)))) }
{
    structure(at, name, fields, alloc, context, outside)?;
    outside.structs = behind_definition(outside.structs, context.structure(name))?;
    Ok(Produced::Nothing)
}

/// A global.
fn global_item(
    g: &WrittenGlobal<'_>,
    alloc: Global,
    context: &Context,
    outside: &mut Outside,
) -> Result<Produced, Stop>
    ensures ok { IfOk result (λ p. rule.item (context_of context.now) (outside_of outside.old) (written_global g.now) ≡ Holds (made_of p)) }
    ensures behind { OnOk result (outside_of outside.new ≡ rule.behind_item (context_of context.now) (outside_of outside.old) (written_global g.now)) }
    ensures err { IfErr result (StopsAt (rule.item (context_of context.now) (outside_of outside.old) (written_global g.now))) }
{
    let made = global(g, alloc, context, outside)?;
    Ok(Produced::Global(made))
}

/// A function that is declared only. Its parameters' names hold nowhere else.
fn prototype(
    head: &Head<'_>,
    alloc: Global,
    context: &Context,
    outside: &mut Outside,
) -> Result<Produced, Stop>
    ensures ok { IfOk result (λ p. rule.item (context_of context.now) (outside_of outside.old) (written_function head.now None) ≡ Holds (made_of p)) }
    ensures behind { OnOk result (outside_of outside.new ≡ rule.behind_item (context_of context.now) (outside_of outside.old) (written_function head.now None)) }
    ensures err { IfErr result (StopsAt (rule.item (context_of context.now) (outside_of outside.old) (written_function head.now None))) }
{
    declare(head, false, alloc, context, outside)?;
    let mut here = outside.enter(alloc);
    let outer = here.outer();
    params_of(head.params, alloc, context, false, &mut here)?;
    here.leave(outer);
    outside.leave(here);
    let gives = given(alloc, context, head.gives)?;
    refuse_where(is_struct_option(&gives), head.at, Refusal::Mistyped)?;
    Ok(Produced::Nothing)
}

/// The body of a function with these parameters, whose names and those in the body hold nowhere
/// else.
fn body_of(
    params: &[Param],
    body: &[Stmt],
    alloc: Global,
    context: &Context,
    gives: &Option<Ty>,
    here: &mut Here,
) -> Result<Vec<Step>, Stop>
    ensures params { OnOk result (rule.params_rule (context_of context.now) true (here_of here.old) (map written.param_of params.now) ≡ Holds tt) }
    ensures body { let inside = rule.with_params (context_of context.now) (here_of here.old) (map written.param_of params.now) in IfOk result (λ steps. statements.stmts (context_of context.now) (option_map ty_of gives.now) false inside (written.stmts_of body.now) ≡ Holds (stmts_of steps.items)) }
    ensures behind { let inside = rule.with_params (context_of context.now) (here_of here.old) (map written.param_of params.now) in OnOk result (here_of here.new ≡ statements.outside (here_of here.old) (statements.behind_stmts (context_of context.now) inside (written.stmts_of body.now))) }
    ensures err { let inside = rule.with_params (context_of context.now) (here_of here.old) (map written.param_of params.now) in IfErr result (StopsAt (with_parts (rule.params_rule (context_of context.now) true (here_of here.old) (map written.param_of params.now)) (statements.stmts (context_of context.now) (option_map ty_of gives.now) false inside (written.stmts_of body.now)) (λ u b. Holds b))) }
{
    let outer = here.outer();
    params_of(params, alloc, context, true, here)?;
    let enclosing = Enclosing {
        alloc,
        context,
        gives,
        looping: false,
    };
    let steps = stmts(body, &enclosing, here)?;
    here.leave(outer);
    Ok(steps)
}

/// How many parameters there are.
fn count_of(params: &[Param]) -> Result<u32, Stop>
    ensures ok { IfOk result (λ n. n ≡ length params.now) }
    ensures err { IfErr result (λ s. s ≡ Stop.Memory) }
{
    if params.len() > u32::MAX as usize {
        return Err(Stop::Memory);
    }
    Ok(params.len() as u32)
}

/// A function with its body.
fn definition(
    head: &Head<'_>,
    body: &[Stmt],
    alloc: Global,
    context: &Context,
    outside: &mut Outside,
) -> Result<Produced, Stop>
    ensures ok { IfOk result (λ p. rule.item (context_of context.now) (outside_of outside.old) (written_function head.now (Some (written.stmts_of body.now))) ≡ Holds (made_of p)) }
    ensures behind { OnOk result (outside_of outside.new ≡ rule.behind_item (context_of context.now) (outside_of outside.old) (written_function head.now (Some (written.stmts_of body.now)))) }
    ensures err { IfErr result (StopsAt (rule.item (context_of context.now) (outside_of outside.old) (written_function head.now (Some (written.stmts_of body.now))))) }
{
    declare(head, true, alloc, context, outside)?;
    let gives = given(alloc, context, head.gives)?;
    let mut here = outside.enter(alloc);
    let steps = body_of(head.params, body, alloc, context, &gives, &mut here)?;
    let locals = outside.leave(here);
    refuse_where(is_struct_option(&gives), head.at, Refusal::Mistyped)?;
    let number = context.functions.find(head.name.text.as_slice());
    outside.functions = behind_definition(outside.functions, number)?;
    let parameters = count_of(head.params)?;
    Ok(Produced::Function(Function {
        parameters,
        locals,
        result: gives,
        deletes: head.deletes,
        line: head.at.line,
        body: Step::Block { body: steps },
    }))
}

/// An item. Where it stands becomes where the next one stands.
fn item(i: &Item, alloc: Global, context: &Context, outside: &mut Outside) -> Result<Produced, Stop>
    ensures ok { IfOk result (λ p. rule.item (context_of context.now) (outside_of outside.old) (written.item_of i.now) ≡ Holds (made_of p)) }
    ensures behind { OnOk result (outside_of outside.new ≡ rule.behind_item (context_of context.now) (outside_of outside.old) (written.item_of i.now)) }
    ensures err { IfErr result (StopsAt (rule.item (context_of context.now) (outside_of outside.old) (written.item_of i.now))) }
{
    match i {
        Item::Struct(at, name, fields) => {
            struct_item(*at, name, fields, alloc, context, outside)
        }
        Item::Global(at, type_name, name, length, constant) => {
            let g = WrittenGlobal {
                at: *at,
                type_name,
                name,
                length: *length,
                constant,
            };
            global_item(&g, alloc, context, outside)
        }
        Item::Function(at, deletes, gives, name, params, body) => {
            let head = Head {
                at: *at,
                deletes: *deletes,
                gives,
                name,
                params,
            };
            match body {
                None => prototype(&head, alloc, context, outside),
                Some(body) => definition(&head, body, alloc, context, outside),
            }
        }
    }
}

/// Puts what an item adds after what the items before it added.
#[tactic(auto, using(rc_defined::proofs::Lists::map_push))]
fn keep(
    p: Produced,
    globals: &mut Vec<GlobalPart>,
    functions: &mut Vec<Function>,
) -> Result<(), Stop>
    ensures ok { OnOk result (all_made globals.new.items functions.new.items ≡ rule.made_both (all_made globals.old.items functions.old.items) (made_of p)) }
    ensures err { IfErr result (λ s. s ≡ Stop.Memory) }
{
    match p {
        Produced::Nothing => Ok(()),
        Produced::Global(g) => add(globals, g),
        Produced::Function(f) => add(functions, f),
    }
}

/// The names that every text has.
fn builtins(alloc: Global) -> Result<Scopes<Meaning>, Stop>
    ensures ok { IfOk result (λ names. scope_of names ≡ rule.builtins) }
    ensures err { IfErr result (λ s. s ≡ Stop.Memory) }
{
    let all = Builtin::all();
    let mut names = Scopes::new(alloc);
    for i in (0..all.len()).rev() {
        add_builtin(&mut names, all[i])?;
    }
    Ok(names)
}

/// A function that every text has, inside the names before it.
fn add_builtin(names: &mut Scopes<Meaning>, builtin: Builtin) -> Result<(), Stop>
    ensures ok { OnOk result (scope_of names.new ≡ ((row builtin).name, a_builtin builtin) ∷ scope_of names.old) }
    ensures err { IfErr result (λ s. s ≡ Stop.Memory) }
{
    match names.push(builtin.name(), Meaning::Builtin(builtin)) {
        Ok(()) => Ok(()),
        Err(_) => Err(Stop::Memory),
    }
}

/// What the items of a text add to its program, and its strings.
#[derive(Drop)]
pub struct Whole {
    pub globals: Vec<GlobalPart>,
    pub functions: Vec<Function>,
    pub strings: Vec<Vec<u8>>,
}

/// The items of a text in their order.
///
/// # Errors
///
/// Where a rule on names, types, arities and sizes fails, at the first such node. Or out of memory.
pub fn items(is: &[Item], alloc: Global, context: &Context) -> Result<Whole, Stop>
    ensures ok { IfOk result (λ w. rule.items (context_of context.now) rule.at_the_start (map written.item_of is.now) ≡ Holds (all_made w.globals.items w.functions.items)) }
    ensures strings { IfOk result (λ w. map bytes_of w.strings.items ≡ (rule.behind_items (context_of context.now) rule.at_the_start (map written.item_of is.now)).strings) }
    ensures err { IfErr result (StopsAt (rule.items (context_of context.now) rule.at_the_start (map written.item_of is.now))) }
{
    let mut outside = Outside {
        names: builtins(alloc)?,
        structs: 0,
        globals: 0,
        cells: 0,
        functions: 0,
        strings: Vec::new(alloc),
    };
    let mut globals = Vec::new(alloc);
    let mut functions = Vec::new(alloc);
    let mut is_known = false;
    let mut rest = is;
    while let [i, after @ ..] = rest {
        before_global(is_known, context, outside.structs, i, after)?;
        let made = item(i, alloc, context, &mut outside)?;
        keep(made, &mut globals, &mut functions)?;
        is_known = goes_on(i, after);
        rest = after;
    }
    Ok(Whole {
        globals,
        functions,
        strings: outside.strings,
    })
}
