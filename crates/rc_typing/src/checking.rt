// Whole texts.
ghost use Rattle.std.specs.Prelude.{◌≡◌, ◌&&◌, Some, map, IfOk, IfErr};
ghost use Rattle.std.specs.Str.{bytes_eq};
ghost use Rattle.rc_core.specs.Shapes.{struct_of, program_of};
ghost use Rattle.rc_deletes.specs.Answer as answer;
ghost use Rattle.rc_deletes.specs.Answer.{refusal, main_fault, main_shape_of, is_definition_of_main};
ghost use Rattle.rc_deletes.specs.Items.{main_name, judged};
ghost use Rattle.rc_deletes.specs.Judged.{Holds};
ghost use Rattle.rc_deletes.specs.Limits.{IsLimited};
ghost use Rattle.rc_deletes.specs.Kinds.{place_of, number_or};
ghost use Rattle.rc_deletes.specs.Scopes.{structs_in};
ghost use Rattle.rc_typed_values.specs.Stops.{StopsAt};
ghost use Rattle.rc_syntax.specs.Shape as written;
ghost use Rattle.rc_syntax.specs.Shape.{tree_of};
ghost use Rattle.rc_syntax.specs.Tree as t;
ghost use Rattle.rc_typing.specs.Checks.{Checks, IsWritten, Refuses};
ghost use Rattle.rc_defined.specs.Contexts.{context_of};
ghost use Rattle.rc_defined.specs.Fields.{struct_in};

use crate::bounds::{numbers, strings};
use crate::fault::TypeFault;
use rc_core::parts::{Field, Parts, Struct};
use rc_core::program::Program;
use rc_defined::{Context, Fields, gather};
use rc_deletes::{DeletesFault, Fault, Refusal, check_deletes};
use rc_item_rules::{gives_int, main_shape, takes_nothing};
use rc_items::{Whole, items};
use rc_judgements::{fits_together, keeps_limits};
use rc_syntax::tree::{Item, Name, Param, Spot, Tree, TypeName};
use rc_typed_values::{Stop, add, copy_of};
use std::alloc::Global;

const MAIN: &[u8] = b"main";

/// Whether a name is that of the function that a program begins with.
fn is_main(name: &Name) -> bool
    ensures { result ≡ bytes_eq name.now.text main_name }
{
    name.text.as_slice() == MAIN
}

/// What is wrong with a definition of `main`.
fn shape_of_main(at: Spot, gives: &Option<TypeName>, params: &[Param]) -> Option<u32>
    ensures { result ≡ answer.main_shape at (answer.takes_nothing (map written.param_of params.now) && answer.gives_int (written.mapped written.type_of gives.now)) }
{
    if takes_nothing(params) {
        return main_shape(at, gives_int(gives));
    }
    main_shape(at, false)
}

/// Whether an item defines `main`.
fn defines_main(item: &Item) -> bool
    ensures { result ≡ is_definition_of_main (written.item_of item.now) }
{
    match item {
        Item::Function(_, _, _, name, _, Some(_)) => is_main(name),
        _ => false,
    }
}

/// The line of a function that has parameters or another result than `int`.
fn fault_in(item: &Item) -> Option<u32>
    ensures { result ≡ main_shape_of (written.item_of item.now) }
{
    match item {
        Item::Function(at, _, gives, _, params, _) => shape_of_main(*at, gives, params),
        _ => None,
    }
}

/// The line of a `main` that has parameters or another result than `int`, and 1 where there is
/// none.
#[tactic(auto, using(crate::proofs::Mains::main_step, crate::proofs::Mains::main_here, crate::proofs::Mains::main_nowhere))]
fn fault_of_main(items: &[Item]) -> Option<u32>
    ensures { result ≡ main_fault (map written.item_of items.now) }
{
    for item in items {
        if defines_main(item) {
            return fault_in(item);
        }
    }
    Some(1)
}

/// A struct as programs have it.
fn structure(alloc: Global, s: &Fields) -> Result<Struct, Stop>
    ensures ok { IfOk result (λ r. struct_of r ≡ struct_in s.now) }
    ensures err { IfErr result (λ s. s ≡ Stop.Memory) }
{
    let mut fields = Vec::new(alloc);
    for named in &s.fields {
        let ty = copy_of(alloc, &named.field.ty)?;
        add(
            &mut fields,
            Field {
                ty,
                length: named.field.length,
            },
        )?;
    }
    Ok(Struct { fields })
}

/// The structs of a program.
fn structs_of(alloc: Global, context: &Context) -> Result<Vec<Struct>, Stop>
    ensures ok { IfOk result (λ structs. map struct_of structs.items ≡ structs_in (context_of context.now)) }
    ensures err { IfErr result (λ s. s ≡ Stop.Memory) }
{
    let mut structs = Vec::new(alloc);
    for s in &context.structs {
        let s = structure(alloc, s)?;
        add(&mut structs, s)?;
    }
    Ok(structs)
}

/// The number of `main`, and 0 where there is none.
fn number_of_main(context: &Context) -> u32
    ensures { result ≡ number_or (place_of (context_of context.now).functions main_name) 0 }
{
    match context.functions.find(MAIN) {
        Some(number) => number,
        None => 0,
    }
}

/// The parts of the program of a tree.
fn parts_of(alloc: Global, tree: &Tree) -> Result<Parts, Stop>
    ensures ok { IfOk result (λ parts. judged (tree_of tree.now) ≡ Holds (program_of parts)) }
    ensures err { IfErr result (StopsAt (judged (tree_of tree.now))) }
{
    let context = gather(alloc, &tree.items)?;
    let Whole {
        globals,
        functions,
        strings,
    } = items(&tree.items, alloc, &context)?;
    let structs = structs_of(alloc, &context)?;
    Ok(Parts {
        structs,
        globals,
        strings,
        functions,
        main: number_of_main(&context),
    })
}

/// The refusal of a rule that fails at a node.
fn at_node(fault: Fault) -> TypeFault
    ensures { (tree : t.Tree) → refusal tree ≡ Some (answer.at_node fault.refusal fault.at.line) → Refuses tree result }
{
    let line = fault.at.line;
    match fault.refusal {
        Refusal::Unknown => TypeFault::Unknown(line),
        Refusal::Twice => TypeFault::Twice(line),
        Refusal::Mistyped => TypeFault::Mistyped(line),
        Refusal::Arity => TypeFault::Arity(line),
        Refusal::TooBig => TypeFault::TooBig(line),
    }
}

/// The refusal of a place where regions are deleted or pointers annotated.
fn at_place(fault: DeletesFault) -> TypeFault
    ensures { (tree : t.Tree) → refusal tree ≡ Some (answer.at_place fault) → Refuses tree result }
{
    match fault {
        DeletesFault::AnnotationPlace(line) => TypeFault::AnnotationPlace(line),
        DeletesFault::NotDeletes(line) => TypeFault::NotDeletes(line),
        DeletesFault::DeletesPlace(line) => TypeFault::DeletesPlace(line),
    }
}

/// Why a tree is refused whose walk stops so.
fn fault_of(stop: Stop) -> TypeFault
    ensures { (tree : t.Tree) → StopsAt (judged tree) stop → Refuses tree result }
{
    match stop {
        Stop::Rule(fault) => at_node(fault),
        Stop::Memory => TypeFault::Memory,
    }
}

/// The program with the parts that a tree is judged to have.
fn program_with(tree: &Tree, parts: Parts) -> Result<Program, TypeFault>
    requires limited { IsLimited (tree_of tree.now) }
    requires judged { judged (tree_of tree.now) ≡ Holds (program_of parts) }
    ensures { Checks (tree_of tree.now) result }
{
    if let Some(line) = fault_of_main(&tree.items) {
        return Err(TypeFault::Main(line));
    }
    numbers(&tree.items);
    strings(&parts.strings);
    fits_together(tree);
    match check_deletes(tree, &parts) {
        Ok(()) => Ok(Program::new(parts)),
        Err(fault) => Err(at_place(fault)),
    }
}

/// The program of a tree by the typing rules, where nothing refuses the tree. The tree may be of one
/// text or of several.
///
/// # Errors
///
/// The first refusal: of a node where a rule on names, types, arities and sizes fails; where none
/// does, of `main`; and then of the places of deletions and annotations. Or out of memory.
pub fn check_limited(alloc: Global, tree: &Tree) -> Result<Program, TypeFault>
    requires { IsLimited (tree_of tree.now) }
    ensures { Checks (tree_of tree.now) result }
{
    match parts_of(alloc, tree) {
        Ok(parts) => program_with(tree, parts),
        Err(stop) => Err(fault_of(stop)),
    }
}

/// The program of the tree of a text's words, by the same rules and with the same errors as
/// `check_limited`: such a tree keeps the limits.
///
/// # Errors
///
/// As `check_limited`.
pub fn check(alloc: Global, tree: &Tree) -> Result<Program, TypeFault>
    requires { IsWritten (tree_of tree.now) }
    ensures { Checks (tree_of tree.now) result }
{
    keeps_limits(tree);
    check_limited(alloc, tree)
}
