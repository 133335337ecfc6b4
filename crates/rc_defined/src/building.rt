// What a whole text defines, gathered from its items.
ghost use Rattle.std.specs.Prelude.{◌≡◌, ◌++◌, ◌∷◌, [], ℕ, List, flat_map, map, IfOk, IfErr, OnOk};
ghost use Rattle.rc_core.specs.Shapes.{ty_of};
ghost use Rattle.rc_deletes.specs.Items as rule;
ghost use Rattle.rc_deletes.specs.Kinds.{place_of, base_type, written_type};
ghost use Rattle.rc_syntax.specs.Shape as written;
ghost use Rattle.rc_defined.specs.Building.{is_first_at};
ghost use Rattle.rc_defined.specs.Contexts.{context_of};
ghost use Rattle.rc_defined.specs.Fields.{fields_of, named_of};

use crate::context::Context;
use crate::fields::{Fields, NamedField};
use crate::names::add_name;
use crate::sizes::sizes_of;
use rc_core::parts::Field;
use rc_core::ty::Ty;
use rc_scope::Names;
use rc_syntax::tree::{Base, Field as WrittenField, Item, Name, Param, TypeName};
use rc_typed_values::{Stop, add, starred};
use std::alloc::Global;

/// Puts the name of the struct that an item defines after those before it.
#[tactic(auto, using(crate::proofs::Gathered::named_more))]
fn add_struct_name(names: &mut Names, item: &Item) -> Result<(), Stop>
    ensures ok { (ds : List rule.Definition) → names.old ≡ rule.names_of ds → OnOk result (names.new ≡ rule.names_of (rule.with_struct ds (written.item_of item.now))) }
    ensures err { IfErr result (λ s. s ≡ Stop.Memory) }
{
    match item {
        Item::Struct(_, name, _) => add_name(names, name),
        _ => Ok(()),
    }
}

/// The names of the structs that a text defines, in the order in which it first defines them.
#[tactic(auto, using(crate::proofs::Gathered::one_more, crate::proofs::Gathered::all_of_them))]
fn struct_names(alloc: Global, items: &[Item]) -> Result<Names, Stop>
    ensures ok { IfOk result (λ names. names ≡ rule.names_of (rule.struct_definitions (map written.item_of items.now))) }
    ensures err { IfErr result (λ s. s ≡ Stop.Memory) }
{
    let mut names = Names::new(alloc);
    for item in items {
        add_struct_name(&mut names, item)?;
    }
    Ok(names)
}

/// Puts the name of the function that an item defines after those before it.
fn add_function_name(names: &mut Names, item: &Item) -> Result<(), Stop>
    ensures ok { OnOk result (names.new ≡ rule.with_function_name names.old (written.item_of item.now)) }
    ensures err { IfErr result (λ s. s ≡ Stop.Memory) }
{
    match item {
        Item::Function(_, _, _, name, _, Some(_)) => add_name(names, name),
        _ => Ok(()),
    }
}

/// The names of the functions that a text defines.
#[tactic(auto, using(crate::proofs::Gathered::functions_step, crate::proofs::Gathered::functions_end))]
fn function_names(alloc: Global, items: &[Item]) -> Result<Names, Stop>
    ensures ok { IfOk result (λ names. names ≡ rule.function_names (map written.item_of items.now)) }
    ensures err { IfErr result (λ s. s ≡ Stop.Memory) }
{
    let mut names = Names::new(alloc);
    for item in items {
        add_function_name(&mut names, item)?;
    }
    Ok(names)
}

/// Puts the name of the struct that a type names after those before it.
fn mention(names: &mut Names, n: &TypeName) -> Result<(), Stop>
    ensures ok { OnOk result (names.new ≡ rule.with_all names.old (rule.named_in (written.type_of n.now))) }
    ensures err { IfErr result (λ s. s ≡ Stop.Memory) }
{
    match &n.base {
        Base::Struct(_, name) => add_name(names, name),
        _ => Ok(()),
    }
}

fn mention_option(names: &mut Names, n: &Option<TypeName>) -> Result<(), Stop>
    ensures ok { OnOk result (names.new ≡ rule.with_all names.old (rule.named_in_option (written.mapped written.type_of n.now))) }
    ensures err { IfErr result (λ s. s ≡ Stop.Memory) }
{
    match n {
        Some(n) => mention(names, n),
        None => Ok(()),
    }
}

#[tactic(auto, using(crate::proofs::Gathered::fields_mentioned, crate::proofs::Gathered::fields_mentioned_end))]
fn mention_fields(names: &mut Names, fields: &[WrittenField]) -> Result<(), Stop>
    ensures ok { OnOk result (names.new ≡ rule.with_all names.old (flat_map (λ f. rule.named_in f.type_name) (map written.field_of fields.now))) }
    ensures err { IfErr result (λ s. s ≡ Stop.Memory) }
{
    for field in fields {
        mention(names, &field.type_name)?;
    }
    Ok(())
}

#[tactic(auto, using(crate::proofs::Gathered::params_mentioned, crate::proofs::Gathered::params_mentioned_end))]
fn mention_params(names: &mut Names, params: &[Param]) -> Result<(), Stop>
    ensures ok { OnOk result (names.new ≡ rule.with_all names.old (flat_map (λ q. rule.named_in q.type_name) (map written.param_of params.now))) }
    ensures err { IfErr result (λ s. s ≡ Stop.Memory) }
{
    for param in params {
        mention(names, &param.type_name)?;
    }
    Ok(())
}

fn mention_head(names: &mut Names, gives: &Option<TypeName>, params: &[Param]) -> Result<(), Stop>
    ensures ok { OnOk result (names.new ≡ rule.with_all (rule.with_all names.old (rule.named_in_option (written.mapped written.type_of gives.now))) (flat_map (λ q. rule.named_in q.type_name) (map written.param_of params.now))) }
    ensures err { IfErr result (λ s. s ≡ Stop.Memory) }
{
    mention_option(names, gives)?;
    mention_params(names, params)
}

/// The structs that the fields, the result and the parameters of an item name.
#[tactic(auto, using(crate::proofs::Gathered::item_fields, crate::proofs::Gathered::item_head))]
fn mention_item(names: &mut Names, item: &Item) -> Result<(), Stop>
    ensures ok { OnOk result (names.new ≡ rule.with_all names.old (rule.mentioned (written.item_of item.now ∷ []))) }
    ensures err { IfErr result (λ s. s ≡ Stop.Memory) }
{
    match item {
        Item::Struct(_, _, fields) => mention_fields(names, fields),
        Item::Global(_, _, _, _, _) => Ok(()),
        Item::Function(_, _, gives, _, params, _) => mention_head(names, gives, params),
    }
}

#[tactic(auto, using(crate::proofs::Gathered::items_mentioned, crate::proofs::Gathered::items_mentioned_end))]
fn mention_items(names: &mut Names, items: &[Item]) -> Result<(), Stop>
    ensures ok { OnOk result (names.new ≡ rule.with_all names.old (rule.mentioned (map written.item_of items.now))) }
    ensures err { IfErr result (λ s. s ≡ Stop.Memory) }
{
    for item in items {
        mention_item(names, item)?;
    }
    Ok(())
}

/// The names by which a text tells types apart: those of the structs that it defines, and after
/// them the others that fields, results and parameters name.
fn type_names(alloc: Global, items: &[Item]) -> Result<Names, Stop>
    ensures ok { IfOk result (λ names. names ≡ rule.types_in (map written.item_of items.now)) }
    ensures err { IfErr result (λ s. s ≡ Stop.Memory) }
{
    let mut names = struct_names(alloc, items)?;
    mention_items(&mut names, items)?;
    Ok(names)
}

/// The base of a type whose struct is among these. There is no other in a text whose types they
/// are: one that is not among them is answered as if memory ran out.
fn base_in(types: &Names, base: &Base) -> Result<Ty, Stop>
    ensures ok { IfOk result (λ t. ty_of t ≡ base_type types.now base.now) }
    ensures err { IfErr result (λ s. s ≡ Stop.Memory) }
{
    match base {
        Base::Int(_) => Ok(Ty::Int),
        Base::Unsigned(_) => Ok(Ty::Unsigned),
        Base::Char(_) => Ok(Ty::Char),
        Base::Region(_) => Ok(Ty::Region),
        Base::Struct(_, name) => match types.find(name.text.as_slice()) {
            Some(number) => Ok(Ty::Struct(number)),
            None => Err(Stop::Memory),
        },
    }
}

/// A type as it is written, whose struct is among these.
pub fn type_in(alloc: Global, types: &Names, n: &TypeName) -> Result<Ty, Stop>
    ensures ok { IfOk result (λ t. ty_of t ≡ written_type types.now (written.type_of n.now)) }
    ensures err { IfErr result (λ s. s ≡ Stop.Memory) }
{
    let base = base_in(types, &n.base)?;
    starred(alloc, base, &n.stars)
}

fn name_of(alloc: Global, name: &Name) -> Result<Vec<u8>, Stop>
    ensures ok { IfOk result (λ bytes. bytes.items ≡ name.now.text) }
    ensures err { IfErr result (λ s. s ≡ Stop.Memory) }
{
    Ok(Vec::from_slice(alloc, name.text.as_slice())?)
}

/// A field with its name.
fn field(alloc: Global, types: &Names, f: &WrittenField) -> Result<NamedField, Stop>
    ensures ok { IfOk result (λ g. named_of g ≡ rule.field_of types.now (written.field_of f.now)) }
    ensures err { IfErr result (λ s. s ≡ Stop.Memory) }
{
    let name = name_of(alloc, &f.name)?;
    let ty = type_in(alloc, types, &f.type_name)?;
    Ok(NamedField {
        name,
        field: Field {
            ty,
            length: f.length,
        },
    })
}

fn with_field(fields: Fields, field: NamedField) -> Result<Fields, Stop>
    ensures ok { IfOk result (λ fs. fields_of fs ≡ fields_of fields ++ named_of field ∷ []) }
    ensures err { IfErr result (λ s. s ≡ Stop.Memory) }
{
    Ok(fields.with(field)?)
}

/// The fields of a struct in their order.
#[tactic(auto, using(crate::proofs::Gathered::fields_step, crate::proofs::Gathered::fields_end))]
fn fields_in(alloc: Global, types: &Names, fields: &[WrittenField]) -> Result<Fields, Stop>
    ensures ok { IfOk result (λ fs. fields_of fs ≡ map (rule.field_of types.now) (map written.field_of fields.now)) }
    ensures err { IfErr result (λ s. s ≡ Stop.Memory) }
{
    let mut all = Fields::new(alloc);
    for f in fields {
        let field = field(alloc, types, f)?;
        all = with_field(all, field)?;
    }
    Ok(all)
}

/// Whether a definition of a struct is the first of its name, after so many structs.
fn is_first(types: &Names, name: &Name, count: usize) -> bool
    ensures { result ≡ is_first_at (place_of types.now name.now.text) count }
{
    match types.find(name.text.as_slice()) {
        Some(number) => number as usize == count,
        None => false,
    }
}

/// Puts the struct that an item is the first to define after those before it.
fn add_struct(
    alloc: Global,
    types: &Names,
    structs: &mut Vec<Fields>,
    item: &Item,
) -> Result<(), Stop>
    ensures ok { let i = written.item_of item.now in (ds : List rule.Definition) (more : List (List ℕ)) → types.now ≡ rule.names_of (rule.with_struct ds i) ++ more → map fields_of structs.old.items ≡ map (rule.shape_of types.now) ds → OnOk result (map fields_of structs.new.items ≡ map (rule.shape_of types.now) (rule.with_struct ds i)) }
    ensures err { IfErr result (λ s. s ≡ Stop.Memory) }
{
    match item {
        Item::Struct(_, name, fields) => {
            if is_first(types, name, structs.len()) {
                let fields = fields_in(alloc, types, fields)?;
                return add(structs, fields);
            }
            Ok(())
        }
        _ => Ok(()),
    }
}

/// The fields of each struct that a text defines.
fn structs_in(alloc: Global, types: &Names, items: &[Item]) -> Result<Vec<Fields>, Stop>
    requires { types.now ≡ rule.types_in (map written.item_of items.now) }
    ensures ok { IfOk result (λ structs. map fields_of structs.items ≡ map (rule.shape_of types.now) (rule.struct_definitions (map written.item_of items.now))) }
    ensures err { IfErr result (λ s. s ≡ Stop.Memory) }
{
    let mut structs = Vec::new(alloc);
    for item in items {
        add_struct(alloc, types, &mut structs, item)?;
    }
    Ok(structs)
}

/// Gathers what a text with these items defines.
///
/// # Errors
///
/// Out of memory.
pub fn gather(alloc: Global, items: &[Item]) -> Result<Context, Stop>
    ensures ok { IfOk result (λ c. context_of c ≡ rule.context_of (map written.item_of items.now)) }
    ensures err { IfErr result (λ s. s ≡ Stop.Memory) }
{
    let types = type_names(alloc, items)?;
    let structs = structs_in(alloc, &types, items)?;
    let sizes = sizes_of(alloc, structs.as_slice())?;
    let functions = function_names(alloc, items)?;
    Ok(Context {
        types,
        structs,
        sizes,
        functions,
    })
}
