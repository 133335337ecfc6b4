// What stands behind a file's items while it is checked by itself.
ghost use Rattle.std.specs.Prelude.{◌≡◌, ◌++◌, ◌∷◌, ◌||◌, ℕ, List, [], Some, None, false, IfOk, OnOk, map};
ghost use Rattle.std.specs.Fmt.{decimal};
ghost use Rattle.rc_deletes.specs.Items.{function_names, is_among};
ghost use Rattle.rc_syntax.specs.Shape as written;
ghost use Rattle.rc_syntax.specs.Shape.{item_of, param_of, tree_of};
ghost use Rattle.rc_syntax.specs.Tree as t;
ghost use Rattle.rc_linking.specs.Calls as calls;
ghost use Rattle.rc_linking.specs.Stubs as stub;

use crate::names::{add_functions, is_built_in, with_name};
use itoa::Buffer;
use rc_base::NoMemory;
use rc_scope::Names;
use rc_syntax::tree::{Base, Item, Name, Param, Spot, Tree, TypeName};
use rc_syntax::word::Text;
use rc_tree_copies::{same_items, same_name, same_type};
use std::alloc::Global;

const MAIN: &[u8] = b"main";

/// A spot on another line.
fn on_line(at: Spot, line: u32) -> Spot
    ensures { result ≡ stub.on_line line at }
{
    Spot {
        place: at.place,
        line,
    }
}

/// The digits of a number.
fn digits(alloc: Global, number: u64) -> Result<Text, NoMemory>
    ensures { IfOk result (λ text. text ≡ decimal number) }
{
    let mut buffer = Buffer::new();
    let bytes = Vec::from_slice(alloc, buffer.format(number).as_bytes())?;
    Ok(Text::new(bytes)?)
}

/// What parameter number `number` is called in a stub.
fn named(
    alloc: Global,
    number: u64,
    name: &Option<Name>,
    at: Spot,
    line: u32,
) -> Result<Name, NoMemory>
    ensures { IfOk result (λ n. n ≡ stub.named line number name.now at) }
{
    match name {
        Some(name) => same_name(name),
        None => {
            let text = digits(alloc, number)?;
            Ok(Name {
                spot: on_line(at, line),
                text,
            })
        }
    }
}

fn stub_param(alloc: Global, number: u64, param: &Param, line: u32) -> Result<Param, NoMemory>
    ensures { IfOk result (λ q. param_of q ≡ stub.stub_param line number (param_of param.now)) }
{
    let type_name = same_type(alloc, &param.type_name)?;
    let name = named(alloc, number, &param.name, param.spot, line)?;
    Ok(Param {
        spot: on_line(param.spot, line),
        type_name,
        name: Some(name),
    })
}

#[tactic(auto, using(crate::proofs::Stubbing::params_step, crate::proofs::Stubbing::params_end))]
fn stub_params(alloc: Global, params: &[Param], line: u32) -> Result<Vec<Param>, NoMemory>
    ensures { IfOk result (λ qs. map param_of qs.items ≡ stub.stub_params line 0 (map param_of params.now)) }
{
    let mut stubbed = Vec::new(alloc);
    for number in 0..params.len() {
        let param = stub_param(alloc, number as u64, &params[number], line)?;
        stubbed.push(param)?;
    }
    Ok(stubbed)
}

/// The head of a prototype.
#[derive(Drop)]
struct Head<'a> {
    at: Spot,
    deletes: bool,
    gives: &'a Option<TypeName>,
    name: &'a Name,
    params: &'a [Param],
}

fn result_type(alloc: Global, gives: &Option<TypeName>) -> Result<Option<TypeName>, NoMemory>
    ensures { IfOk result (λ n. written.mapped written.type_of n ≡ written.mapped written.type_of gives.now) }
{
    match gives {
        Some(n) => {
            let n = same_type(alloc, n)?;
            Ok(Some(n))
        }
        None => Ok(None),
    }
}

/// The function with this head that does nothing.
fn stub_of(alloc: Global, head: &Head<'_>, line: u32) -> Result<Box<Item>, NoMemory>
    ensures { let h = head.now in IfOk result (λ i. item_of i.value ≡ t.function (stub.on_line line h.at) h.deletes (written.mapped written.type_of h.gives.now) h.name.now (stub.stub_params line 0 (map param_of h.params.now)) (Some t.done)) }
{
    let gives = result_type(alloc, head.gives)?;
    let name = same_name(head.name)?;
    let params = stub_params(alloc, head.params, line)?;
    let body = Some(Vec::new(alloc));
    let at = on_line(head.at, line);
    Ok(Box::new(
        alloc,
        Item::Function(at, head.deletes, gives, name, params, body),
    )?)
}

/// Whether a function needs no stub.
fn is_known(known: &Names, name: &Name) -> bool
    ensures { result ≡ calls.is_built_in name.now.text || is_among known.now name.now.text }
{
    if is_built_in(name) {
        return true;
    }
    known.find(name.text.as_slice()).is_some()
}

fn add_new(
    alloc: Global,
    head: &Head<'_>,
    line: u32,
    known: &mut Names,
    items: &mut Vec<Item>,
) -> Result<(), NoMemory>
    requires { calls.is_built_in head.now.name.now.text || is_among known.old head.now.name.now.text ≡ false }
    ensures { let h = head.now in (rest : List t.Item) → OnOk result (map item_of items.new.items ++ stub.stubs_of line known.new rest ≡ map item_of items.old.items ++ stub.stubs_of line known.old (t.function h.at h.deletes (written.mapped written.type_of h.gives.now) h.name.now (map param_of h.params.now) None ∷ rest)) }
{
    with_name(known, head.name)?;
    let stub = stub_of(alloc, head, line)?;
    items.push(Box::into_inner(stub))?;
    Ok(())
}

/// Puts the stub that an item needs behind the items.
fn add_stub(
    alloc: Global,
    item: &Item,
    line: u32,
    known: &mut Names,
    items: &mut Vec<Item>,
) -> Result<(), NoMemory>
    ensures { (rest : List t.Item) → OnOk result (map item_of items.new.items ++ stub.stubs_of line known.new rest ≡ map item_of items.old.items ++ stub.stubs_of line known.old (item_of item.now ∷ rest)) }
{
    match item {
        Item::Function(at, deletes, gives, name, params, body) => match body {
            Some(_body) => Ok(()),
            None => {
                if is_known(known, name) {
                    return Ok(());
                }
                let head = Head {
                    at: *at,
                    deletes: *deletes,
                    gives,
                    name,
                    params,
                };
                add_new(alloc, &head, line, known, items)
            }
        },
        _ => Ok(()),
    }
}

/// Puts the stubs that a file's items need behind other items.
fn add_stubs(alloc: Global, file: &[Item], line: u32, items: &mut Vec<Item>) -> Result<(), NoMemory>
    ensures { OnOk result (map item_of items.new.items ≡ map item_of items.old.items ++ stub.stubs_of line (function_names (map item_of file.now)) (map item_of file.now)) }
{
    let mut known = Names::new(alloc);
    add_functions(&mut known, file)?;
    for item in file {
        add_stub(alloc, item, line, &mut known, items)?;
    }
    Ok(())
}

fn is_main(item: &Item) -> bool
    ensures { result ≡ stub.is_main (item_of item.now) }
{
    match item {
        Item::Struct(_, _, _) => false,
        Item::Global(_, _, name, _, _) => name.text.as_slice() == MAIN,
        Item::Function(_, _, _, name, _, _) => name.text.as_slice() == MAIN,
    }
}

fn declares_main(file: &[Item]) -> bool
    ensures { result ≡ stub.declares_main (map item_of file.now) }
{
    for item in file {
        if is_main(item) {
            return true;
        }
    }
    false
}

/// `int main(void) {}`.
fn empty_main(alloc: Global, line: u32) -> Result<Box<Item>, NoMemory>
    ensures { IfOk result (λ i. item_of i.value ≡ stub.empty_main line) }
{
    let at = Spot { place: 0, line };
    let gives = TypeName {
        base: Base::Int(at),
        stars: Vec::new(alloc),
    };
    let bytes = Vec::from_slice(alloc, MAIN)?;
    let text = Text::new(bytes)?;
    let name = Name { spot: at, text };
    let params = Vec::new(alloc);
    let body = Some(Vec::new(alloc));
    Ok(Box::new(
        alloc,
        Item::Function(at, false, Some(gives), name, params, body),
    )?)
}

/// Puts `main` behind other items, where a file declares none.
fn add_main(alloc: Global, file: &[Item], line: u32, items: &mut Vec<Item>) -> Result<(), NoMemory>
    ensures { OnOk result (map item_of items.new.items ≡ map item_of items.old.items ++ stub.main_stub line (stub.declares_main (map item_of file.now))) }
{
    if declares_main(file) {
        return Ok(());
    }
    let stub = empty_main(alloc, line)?;
    items.push(Box::into_inner(stub))?;
    Ok(())
}

/// A file's tree with the stubs that it needs, on the line of its last word.
pub(crate) fn stubbed(alloc: Global, tree: &Tree) -> Result<Tree, NoMemory>
    ensures tree { IfOk result (λ r. tree_of r ≡ stub.stubbed tree.now.last (tree_of tree.now)) }
    ensures line { IfOk result (λ r. r.last ≡ tree.now.last) }
{
    let mut items = same_items(alloc, &tree.items)?;
    add_stubs(alloc, &tree.items, tree.last, &mut items)?;
    add_main(alloc, &tree.items, tree.last, &mut items)?;
    Ok(Tree {
        items,
        last: tree.last,
    })
}
