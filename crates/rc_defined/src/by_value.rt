// Structs that stand by value in fields and globals.
ghost use Rattle.std.specs.Prelude.{◌≡◌, ◌∷◌, ◌&&◌, true, map, nat_eq, IfOk, IfErr, OnOk};
ghost use Rattle.std.specs.Str.{bytes_eq};
ghost use Rattle.rc_core.specs.Shapes.{ty_of};
ghost use Rattle.rc_deletes.specs.Items as rule;
ghost use Rattle.rc_deletes.specs.Judged.{Holds};
ghost use Rattle.rc_deletes.specs.Kinds.{base_type, written_type};
ghost use Rattle.rc_typed_values.specs.Stops.{StopsAt};
ghost use Rattle.rc_syntax.specs.Shape as written;
ghost use Rattle.rc_syntax.specs.declared.tree.Base.TheVariants as base;
ghost use Rattle.rc_defined.specs.Contexts.{context_of};
ghost use Rattle.rc_defined.specs.Groups as group;

use crate::context::Context;
use crate::defined::defined_type;
use rc_core::ty::Ty;
use rc_deletes::Refusal;
use rc_syntax::tree::{Base, Field, Item, Name, TypeName};
use rc_typed_values::{Stop, fails};
use std::alloc::Global;

/// The number of the struct of this name, if it is among the first `count` definitions.
fn struct_before(context: &Context, count: u32, name: &Name) -> Result<Ty, Stop>
    ensures ok { IfOk result (λ t. (rule.value_base (context_of context.now) count (base.Struct name.now.spot name.now) ≡ Holds tt) × (ty_of t ≡ base_type (context_of context.now).types (base.Struct name.now.spot name.now))) }
    ensures err { IfErr result (StopsAt (rule.value_base (context_of context.now) count (base.Struct name.now.spot name.now))) }
{
    match context.structure(name) {
        Some(number) => {
            if number < count {
                return Ok(Ty::Struct(number));
            }
            fails(name.spot, Refusal::Unknown)
        }
        None => fails(name.spot, Refusal::Unknown),
    }
}

/// The base of a type that stands by value, whose struct is among the first `count` definitions.
fn value_base(context: &Context, count: u32, base: &Base) -> Result<Ty, Stop>
    ensures ok { IfOk result (λ t. (rule.value_base (context_of context.now) count base.now ≡ Holds tt) × (ty_of t ≡ base_type (context_of context.now).types base.now)) }
    ensures err { IfErr result (StopsAt (rule.value_base (context_of context.now) count base.now)) }
{
    match base {
        Base::Int(_) => Ok(Ty::Int),
        Base::Unsigned(_) => Ok(Ty::Unsigned),
        Base::Char(_) => Ok(Ty::Char),
        Base::Region(_) => Ok(Ty::Region),
        Base::Struct(_, name) => struct_before(context, count, name),
    }
}

/// The type of a field or a global: a struct that stands by value is defined before.
pub fn cell_type(alloc: Global, context: &Context, count: u32, n: &TypeName) -> Result<Ty, Stop>
    ensures ok { IfOk result (λ t. (rule.cell_type (context_of context.now) count (written.type_of n.now) ≡ Holds tt) × (ty_of t ≡ written_type (context_of context.now).types (written.type_of n.now))) }
    ensures err { IfErr result (StopsAt (rule.cell_type (context_of context.now) count (written.type_of n.now))) }
{
    if n.stars.is_empty() {
        return value_base(context, count, &n.base);
    }
    defined_type(alloc, context, n)
}

/// Whether a type has no star.
fn is_plain(n: &TypeName) -> bool
    ensures { result ≡ rule.is_plain (written.type_of n.now) }
{
    n.stars.is_empty()
}

/// Whether a name stands at the same place as another.
fn is_one_name(a: &Name, b: &Name) -> bool
    ensures { result ≡ (nat_eq a.now.spot.place b.now.spot.place && bytes_eq a.now.text b.now.text) }
{
    if a.spot.place == b.spot.place {
        return a.text.as_slice() == b.text.as_slice();
    }
    false
}

/// Whether two declarators share the name of a struct that is written before them.
fn same_struct(a: &Base, b: &Base) -> bool
    ensures { result ≡ rule.same_struct a.now b.now }
{
    match (a, b) {
        (Base::Struct(_, a), Base::Struct(_, b)) => is_one_name(a, b),
        (_, _) => false,
    }
}

/// Whether one of the next fields that share a struct is no pointer.
fn field_by_value(base: &Base, fields: &[Field]) -> bool
    ensures { result ≡ rule.field_by_value base.now (map written.field_of fields.now) }
{
    let mut rest = fields;
    while let [f, after @ ..] = rest {
        if !same_struct(base, &f.type_name.base) {
            return false;
        }
        if is_plain(&f.type_name) {
            return true;
        }
        rest = after;
    }
    false
}

/// Whether an item is a global that shares this struct.
fn shares(base: &Base, i: &Item) -> bool
    ensures { result ≡ group.shares base.now (written.item_of i.now) }
{
    match i {
        Item::Global(_, n, _, _, _) => same_struct(base, &n.base),
        _ => false,
    }
}

/// Whether an item is a global that is no pointer.
fn is_plain_global(i: &Item) -> bool
    ensures { result ≡ group.is_plain_global (written.item_of i.now) }
{
    match i {
        Item::Global(_, n, _, _, _) => is_plain(n),
        _ => false,
    }
}

/// Whether one of the next globals that share a struct is no pointer.
fn global_by_value(base: &Base, items: &[Item]) -> bool
    ensures { result ≡ rule.global_by_value base.now (map written.item_of items.now) }
{
    let mut rest = items;
    while let [i, after @ ..] = rest {
        if !shares(base, i) {
            return false;
        }
        if is_plain_global(i) {
            return true;
        }
        rest = after;
    }
    false
}

/// A struct that several declarators share, one of them by value, is among the first `count`
/// definitions.
fn shared_rule(context: &Context, count: u32, base: &Base, by_value: bool) -> Result<(), Stop>
    ensures ok { OnOk result (rule.shared_rule (context_of context.now) count base.now by_value ≡ Holds tt) }
    ensures err { IfErr result (StopsAt (rule.shared_rule (context_of context.now) count base.now by_value)) }
{
    if by_value {
        value_base(context, count, base)?;
    }
    Ok(())
}

/// The struct that a field shares with the next ones, which is known to be right where the field
/// shares it with the one before.
pub fn before_field(
    is_known: bool,
    context: &Context,
    count: u32,
    f: &Field,
    rest: &[Field],
) -> Result<(), Stop>
    requires { is_known ≡ true → rule.before_fields (context_of context.now) count (written.field_of f.now ∷ map written.field_of rest.now) ≡ Holds tt }
    ensures ok { OnOk result (rule.before_fields (context_of context.now) count (written.field_of f.now ∷ map written.field_of rest.now) ≡ Holds tt) }
    ensures err { IfErr result (StopsAt (rule.before_fields (context_of context.now) count (written.field_of f.now ∷ map written.field_of rest.now))) }
{
    if is_known {
        return Ok(());
    }
    let by_value = field_by_value(&f.type_name.base, rest);
    shared_rule(context, count, &f.type_name.base, by_value)
}

/// Whether the next field shares the struct of this one.
pub fn shares_with_next(f: &Field, rest: &[Field]) -> bool
    ensures { result ≡ group.shares_with_next (written.field_of f.now) (map written.field_of rest.now) }
{
    match rest {
        [next, ..] => same_struct(&f.type_name.base, &next.type_name.base),
        _ => false,
    }
}

/// The struct that a global shares with the next ones, which is known to be right where the global
/// shares it with the one before.
pub fn before_global(
    is_known: bool,
    context: &Context,
    count: u32,
    i: &Item,
    rest: &[Item],
) -> Result<(), Stop>
    requires { is_known ≡ true → rule.before_globals (context_of context.now) count (written.item_of i.now ∷ map written.item_of rest.now) ≡ Holds tt }
    ensures ok { OnOk result (rule.before_globals (context_of context.now) count (written.item_of i.now ∷ map written.item_of rest.now) ≡ Holds tt) }
    ensures err { IfErr result (StopsAt (rule.before_globals (context_of context.now) count (written.item_of i.now ∷ map written.item_of rest.now))) }
{
    if is_known {
        return Ok(());
    }
    match i {
        Item::Global(_, n, _, _, _) => {
            let by_value = global_by_value(&n.base, rest);
            shared_rule(context, count, &n.base, by_value)
        }
        _ => Ok(()),
    }
}

/// Whether the next item is a global that shares the struct of this one.
pub fn goes_on(i: &Item, rest: &[Item]) -> bool
    ensures { result ≡ group.goes_on (written.item_of i.now) (map written.item_of rest.now) }
{
    match (i, rest) {
        (Item::Global(_, n, _, _, _), [next, ..]) => shares(&n.base, next),
        (_, _) => false,
    }
}
