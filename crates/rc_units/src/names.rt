// The names of functions.
ghost use Rattle.std.specs.Prelude.{◌≡◌, ◌++◌, ◌∷◌, [], false, OnOk, map};
ghost use Rattle.std.specs.Str.{bytes_eq};
ghost use Rattle.rc_deletes.specs.Builtins.{row};
ghost use Rattle.rc_deletes.specs.Items as rule;
ghost use Rattle.rc_syntax.specs.Shape as written;
ghost use Rattle.rc_linking.specs.Calls as calls;

use rc_base::NoMemory;
use rc_defined::add_name;
use rc_deletes::Builtin;
use rc_scope::Names;
use rc_syntax::tree::{Item, Name};

/// Whether every text has a function of this name.
pub fn is_built_in(name: &Name) -> bool
    ensures { result ≡ calls.is_built_in name.now.text }
{
    let all = Builtin::all();
    for builtin in all {
        if is_name_of(*builtin, name) {
            return true;
        }
    }
    false
}

fn is_name_of(builtin: Builtin, name: &Name) -> bool
    ensures { result ≡ bytes_eq (row builtin).name name.now.text }
{
    builtin.name() == name.text.as_slice()
}

/// Puts a name after others, where it is not among them.
pub(crate) fn with_name(names: &mut Names, name: &Name) -> Result<(), NoMemory>
    ensures ok { OnOk result (names.new ≡ rule.with_new names.old name.now.text) }
    ensures added { rule.is_among names.old name.now.text ≡ false → OnOk result (names.new ≡ names.old ++ name.now.text ∷ []) }
{
    match add_name(names, name) {
        Ok(()) => Ok(()),
        Err(_) => Err(NoMemory),
    }
}

fn with_function(names: &mut Names, item: &Item) -> Result<(), NoMemory>
    ensures { OnOk result (names.new ≡ rule.with_function_name names.old (written.item_of item.now)) }
{
    match item {
        Item::Function(_, _, _, name, _, Some(_)) => with_name(names, name),
        _ => Ok(()),
    }
}

/// Puts the name of each function that is defined in a file behind the names before, where it is not
/// among them.
///
/// # Errors
///
/// Out of memory.
#[tactic(auto, using(rc_defined::proofs::Gathered::functions_step, rc_defined::proofs::Gathered::functions_end))]
pub fn add_functions(names: &mut Names, items: &[Item]) -> Result<(), NoMemory>
    ensures { OnOk result (names.new ≡ rule.with_functions names.old (map written.item_of items.now)) }
{
    for item in items {
        with_function(names, item)?;
    }
    Ok(())
}
