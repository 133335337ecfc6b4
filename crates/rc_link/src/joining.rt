// The tree of all files.
ghost use Rattle.std.specs.Prelude.{◌≡◌, ◌++◌, ◌≤◌, List, IfOk, OnOk, length, map};
ghost use Rattle.rc_deletes.specs.Items as rule;
ghost use Rattle.rc_linking.specs.Joined as joining;
ghost use Rattle.rc_linking.specs.Limits.{most_files};
ghost use Rattle.rc_link.specs.Answers.{trees_of};
ghost use Rattle.rc_linking.specs.Moved.{moved_items};
ghost use Rattle.rc_syntax.specs.Shape.{item_of, tree_of};

use rc_base::{MOST_TEXT_BYTES, NoMemory};
use rc_defined::add_name;
use rc_scope::Names;
use rc_syntax::tree::{Item, Tree};
use rc_tree_copies::copy_item;
use rc_units::Unit;
use std::alloc::Global;

/// Whether an earlier file defines the struct that an item defines.
fn is_repeated(structs: &Names, item: &Item) -> bool
    ensures { result ≡ joining.is_repeated structs.now (item_of item.now) }
{
    match item {
        Item::Struct(_, name, _) => structs.find(name.text.as_slice()).is_some(),
        _ => false,
    }
}

/// Puts a file's items behind others, without the structs that an earlier file defines.
#[tactic(auto, using(crate::proofs::Walking::skipped_on, crate::proofs::Walking::kept_on, crate::proofs::Walking::nothing_left))]
fn add_file(
    alloc: Global,
    file: &[Item],
    structs: &Names,
    by: u32,
    joined: &mut Vec<Item>,
) -> Result<(), NoMemory>
    ensures { OnOk result (map item_of joined.new.items ≡ map item_of joined.old.items ++ moved_items by (joining.without structs.now (map item_of file.now))) }
{
    for item in file {
        if !is_repeated(structs, item) {
            let copy = copy_item(alloc, item, by)?;
            joined.push(Box::into_inner(copy))?;
        }
    }
    Ok(())
}

/// Puts the name of the struct that an item defines behind those before it.
#[tactic(auto, using(rc_defined::proofs::Gathered::named_more))]
fn add_struct(structs: &mut Names, item: &Item) -> Result<(), NoMemory>
    ensures { (ds : List rule.Definition) → structs.old ≡ rule.names_of ds → OnOk result (structs.new ≡ rule.names_of (rule.with_struct ds (item_of item.now))) }
{
    match item {
        Item::Struct(_, name, _) => match add_name(structs, name) {
            Ok(()) => Ok(()),
            Err(_) => Err(NoMemory),
        },
        _ => Ok(()),
    }
}

/// Puts the names of the structs that a file defines behind those before.
fn add_structs(structs: &mut Names, file: &[Item]) -> Result<(), NoMemory>
    ensures { (ds : List rule.Definition) → structs.old ≡ rule.names_of ds → OnOk result (structs.new ≡ rule.names_of (rule.with_structs ds (map item_of file.now))) }
{
    for item in file {
        add_struct(structs, item)?;
    }
    Ok(())
}

/// The tree of all files: the items of each behind those of the files before it, without the structs
/// that an earlier file defines. The last line of it is told as 1.
///
/// # Errors
///
/// Out of memory, or of places.
pub(crate) fn joined(alloc: Global, units: &[Unit]) -> Result<Tree, NoMemory>
    requires { length units.now ≤ most_files }
    ensures { IfOk result (λ tree. tree_of tree ≡ joining.joined (trees_of units.now)) }
{
    let mut items = Vec::new(alloc);
    let mut structs = Names::new(alloc);
    for i in 0..units.len() {
        let file = units[i].tree().items.as_slice();
        add_file(
            alloc,
            file,
            &structs,
            i as u32 * MOST_TEXT_BYTES,
            &mut items,
        )?;
        add_structs(&mut structs, file)?;
    }
    Ok(Tree { items, last: 1 })
}
