// Why files are no program together, as far as it can be told without joining them.
ghost use Rattle.std.specs.Prelude.{◌≡◌, ◌≤◌, [], IfOk, length, option_map};
ghost use Rattle.rc_clashes.specs.Clashing.{in_file};
ghost use Rattle.rc_deletes.specs.Items.{function_names};
ghost use Rattle.rc_linking.specs.Joined.{all_items};
ghost use Rattle.rc_linking.specs.Limits.{most_files};
ghost use Rattle.rc_linking.specs.Links as links;
ghost use Rattle.rc_link.specs.Answers.{entry_among, reason_of, refusal_of, trees_of};

use crate::missing::calls;
use rc_answers::LinkRefusal;
use rc_base::NoMemory;
use rc_clashes::{Clash, Earlier};
use rc_scope::Names;
use rc_units::{Unit, add_functions};
use std::alloc::Global;

const MAIN: &[u8] = b"main";

/// What is told of a clash in a file.
fn refusal_in(file: u32, clash: Clash) -> LinkRefusal
    ensures { refusal_of result ≡ in_file file clash }
{
    match clash {
        Clash::Disagree(line) => LinkRefusal::Disagree(file, line),
        Clash::Double(line) => LinkRefusal::Double(file, line),
    }
}

/// The first item that clashes with one of an earlier file.
fn clash(alloc: Global, units: &[Unit]) -> Result<Option<LinkRefusal>, NoMemory>
    requires { length units.now ≤ most_files }
    ensures { IfOk result (λ r. option_map refusal_of r ≡ links.clashes [] 1 (trees_of units.now)) }
{
    let mut earlier = Earlier::new(alloc);
    for i in 0..units.len() {
        let items = units[i].tree().items.as_slice();
        if let Some(clash) = earlier.clash(items) {
            return Ok(Some(refusal_in(i as u32 + 1, clash)));
        }
        earlier.add(items)?;
    }
    Ok(None)
}

/// The names of the functions that the files define.
#[tactic(auto, using(crate::proofs::Walking::functions_on, crate::proofs::Walking::functions_end))]
fn functions_of(alloc: Global, units: &[Unit]) -> Result<Names, NoMemory>
    ensures { IfOk result (λ names. names ≡ function_names (all_items (trees_of units.now))) }
{
    let mut names = Names::new(alloc);
    for unit in units {
        add_functions(&mut names, &unit.tree().items)?;
    }
    Ok(names)
}

/// The first call of a function that no file defines.
fn missing(units: &[Unit], functions: &Names) -> Option<LinkRefusal>
    requires { length units.now ≤ most_files }
    ensures { option_map refusal_of result ≡ links.missing_of functions.now 1 (trees_of units.now) }
{
    for i in 0..units.len() {
        if let Err(line) = calls(&units[i].tree().items, functions) {
            return Some(LinkRefusal::Missing(i as u32 + 1, line));
        }
    }
    None
}

/// Where no file defines `main`.
fn entry(functions: &Names) -> Option<LinkRefusal>
    ensures { option_map refusal_of result ≡ entry_among functions.now }
{
    match functions.find(MAIN) {
        Some(_place) => None,
        None => Some(LinkRefusal::Entry),
    }
}

/// What keeps files apart, but for the cells of their globals.
///
/// # Errors
///
/// Out of memory.
pub(crate) fn reason(alloc: Global, units: &[Unit]) -> Result<Option<LinkRefusal>, NoMemory>
    requires { length units.now ≤ most_files }
    ensures { IfOk result (λ r. option_map refusal_of r ≡ reason_of (trees_of units.now)) }
{
    if let Some(refusal) = clash(alloc, units)? {
        return Ok(Some(refusal));
    }
    let functions = functions_of(alloc, units)?;
    if let Some(refusal) = missing(units, &functions) {
        return Ok(Some(refusal));
    }
    Ok(entry(&functions))
}
