// Structs and globals.
ghost use Rattle.std.specs.Prelude.{◌≡◌, ◌≤◌, ◌+◌, suc, [], ◌∷◌, ◌++◌, map, IfOk, IfErr, OnOk, nat_lt, is_some};
ghost use Rattle.rc_base.specs.Limits.{most_global_cells, most_struct_cells};
ghost use Rattle.rc_core.specs.Shapes.{ty_of, global_of};
ghost use Rattle.rc_deletes.specs.Items as rule;
ghost use Rattle.rc_deletes.specs.Judged.{Holds};
ghost use Rattle.rc_deletes.specs.Kinds.{written_type};
ghost use Rattle.rc_deletes.specs.Scopes.{meaning_in};
ghost use Rattle.rc_rules.specs.Shapes.{meaning_of};
ghost use Rattle.rc_typed_values.specs.Stops.{StopsAt};
ghost use Rattle.rc_syntax.specs.Shape as written;
ghost use Rattle.rc_syntax.specs.Tree as t;
ghost use Rattle.rc_defined.specs.Contexts.{context_of, scope_of};
ghost use Rattle.rc_items.specs.Outside.{outside_of};
ghost use Rattle.rc_items.specs.Parts.{written_global};
ghost use Rattle.rc_defined.specs.Sizes.{SameUpTo};

use crate::outside::Outside;
use crate::parts::WrittenGlobal;
use rc_base::MOST_STRUCT_CELLS;
use rc_core::parts::Global as GlobalPart;
use rc_core::ty::Ty;
use rc_defined::{
    Context, add_name, before_field, cell_type, cells_of, meaning, shares_with_next, size_by,
};
use rc_deletes::Refusal;
use rc_item_rules::{global_rule, initial_of, is_defined_before, is_empty, once};
use rc_rules::Meaning;
use rc_scope::{Names, Scopes};
use rc_syntax::tree::{Field, Name, Spot};
use rc_typed_values::{Stop, copy_of, refuse_where};
use std::alloc::Global;

/// Whether a name is among others.
fn is_among(names: &Names, name: &Name) -> bool
    ensures { result ≡ rule.is_among names.now name.now.text }
{
    names.find(name.text.as_slice()).is_some()
}

/// A field of a struct, after the earlier ones.
#[tactic(auto, using(rc_defined::proofs::Stops::left_stops, rc_defined::proofs::Stops::right_stops, rc_defined::proofs::Stops::both_stop, rc_defined::proofs::Stops::both_ruled, crate::proofs::Ruled::ruled_kept, crate::proofs::Ruled::ruled_broken))]
fn field(
    f: &Field,
    alloc: Global,
    context: &Context,
    count: u32,
    earlier: &mut Names,
) -> Result<(), Stop>
    ensures ok { OnOk result (rule.field_rule (context_of context.now) count earlier.old (written.field_of f.now) ≡ Holds tt) }
    ensures behind { OnOk result (earlier.new ≡ earlier.old ++ f.now.name.text ∷ []) }
    ensures err { IfErr result (StopsAt (rule.field_rule (context_of context.now) count earlier.old (written.field_of f.now))) }
{
    cell_type(alloc, context, count, &f.type_name)?;
    once(&f.name, is_among(earlier, &f.name))?;
    refuse_where(is_empty(f.length), f.spot, Refusal::TooBig)?;
    add_name(earlier, &f.name)
}

/// The fields of a struct.
fn fields(fs: &[Field], alloc: Global, context: &Context, count: u32) -> Result<(), Stop>
    ensures ok { OnOk result (rule.fields_rule (context_of context.now) count [] (map written.field_of fs.now) ≡ Holds tt) }
    ensures err { IfErr result (StopsAt (rule.fields_rule (context_of context.now) count [] (map written.field_of fs.now))) }
{
    let mut earlier = Names::new(alloc);
    let mut is_known = false;
    let mut rest = fs;
    while let [f, after @ ..] = rest {
        before_field(is_known, context, count, f, after)?;
        field(f, alloc, context, count, &mut earlier)?;
        is_known = shares_with_next(f, after);
        rest = after;
    }
    Ok(())
}

/// Whether a struct that is defined has over 4,096 cells.
#[tactic(auto, using(crate::proofs::Totals::big_tells))]
fn is_too_big(context: &Context, number: Option<u32>) -> bool
    ensures { result ≡ nat_lt most_struct_cells (rule.cells_of_struct (context_of context.now) number) }
{
    match number {
        Some(number) => size_by(context.sizes.as_slice(), &Ty::Struct(number)) > MOST_STRUCT_CELLS,
        None => false,
    }
}

/// A struct with its fields.
pub(crate) fn structure(
    at: Spot,
    name: &Name,
    fs: &[Field],
    alloc: Global,
    context: &Context,
    outside: &Outside,
) -> Result<(), Stop>
    ensures ok { OnOk result (rule.item (context_of context.now) (outside_of outside.now) (t.struct at name.now (map written.field_of fs.now)) ≡ Holds rule.nothing_made) }
    ensures err { IfErr result (StopsAt (rule.item (context_of context.now) (outside_of outside.now) (t.struct at name.now (map written.field_of fs.now)))) }
{
    let number = context.structure(name);
    once(name, is_defined_before(outside.structs, number))?;
    fields(fs, alloc, context, outside.structs)?;
    refuse_where(is_too_big(context, number), at, Refusal::TooBig)
}

/// How many are defined after the definition with this number.
pub(crate) fn behind_definition(count: u32, number: Option<u32>) -> Result<u32, Stop>
    ensures ok { IfOk result (λ n. n ≡ rule.behind_definition count number) }
    ensures err { IfErr result (λ s. s ≡ Stop.Memory) }
{
    match number {
        None => Ok(count),
        Some(number) => {
            if number < count {
                return Ok(count);
            }
            if number == u32::MAX {
                return Err(Stop::Memory);
            }
            Ok(number + 1)
        }
    }
}

/// A name keeps its first meaning.
pub(crate) fn add_meaning(
    names: &mut Scopes<Meaning>,
    name: &Name,
    stands_for: Meaning,
) -> Result<(), Stop>
    ensures ok { OnOk result (scope_of names.new ≡ rule.with_name (scope_of names.old) name.now.text (meaning_of stands_for)) }
    ensures err { IfErr result (λ s. s ≡ Stop.Memory) }
{
    if is_known(names, name) {
        return Ok(());
    }
    Ok(names.push(name.text.as_slice(), stands_for)?)
}

/// The cells of the globals, with one more after those before it.
#[tactic(auto, using(crate::proofs::Totals::total_same))]
fn cells_with(context: &Context, cells: u64, ty: &Ty, length: Option<u32>) -> u64
    requires { cells ≤ most_global_cells }
    ensures { (n : t.TypeName) → ty_of ty.now ≡ written_type (context_of context.now).types n → SameUpTo most_global_cells result (cells + rule.cells_of_global (context_of context.now) n length) }
{
    cells + cells_of(size_by(context.sizes.as_slice(), ty), length)
}

/// A global of a program.
fn part(ty: Ty, length: Option<u32>, initial: i64) -> GlobalPart
    ensures { global_of result ≡ record { ty = ty_of ty; count = length; initial = initial } }
{
    GlobalPart {
        ty,
        length,
        initial,
    }
}

/// Whether a name stands for something.
#[tactic(auto, using(crate::proofs::Globals::is_known))]
fn is_known(names: &Scopes<Meaning>, name: &Name) -> bool
    ensures { result ≡ is_some (meaning_in (scope_of names.now) name.now.text) }
{
    meaning(names, name).is_some()
}

/// The number of globals, with one more.
fn next_global(globals: u32) -> Result<u32, Stop>
    ensures ok { IfOk result (λ n. n ≡ suc globals) }
    ensures err { IfErr result (λ s. s ≡ Stop.Memory) }
{
    if globals == u32::MAX {
        return Err(Stop::Memory);
    }
    Ok(globals + 1)
}

/// A global after those before it.
pub(crate) fn global(
    g: &WrittenGlobal<'_>,
    alloc: Global,
    context: &Context,
    outside: &mut Outside,
) -> Result<GlobalPart, Stop>
    ensures ok { IfOk result (λ made. rule.item (context_of context.now) (outside_of outside.old) (written_global g.now) ≡ Holds (record { globals = global_of made ∷ []; functions = [] })) }
    ensures behind { OnOk result (outside_of outside.new ≡ rule.behind_item (context_of context.now) (outside_of outside.old) (written_global g.now)) }
    ensures err { IfErr result (StopsAt (rule.item (context_of context.now) (outside_of outside.old) (written_global g.now))) }
{
    let ty = cell_type(alloc, context, outside.structs, g.type_name)?;
    once(g.name, is_known(&outside.names, g.name))?;
    let total = cells_with(context, outside.cells, &ty, g.length);
    let initial = global_rule(g.at, g.length, total, initial_of(&ty, g.length, g.constant))?;
    let next = next_global(outside.globals)?;
    let stands_for = Meaning::Global(outside.globals, copy_of(alloc, &ty)?, g.length);
    add_meaning(&mut outside.names, g.name, stands_for)?;
    outside.globals = next;
    outside.cells = total;
    Ok(part(ty, g.length, initial))
}
