// Items, and whole trees.
ghost use Rattle.std.specs.Prelude.{◌≡◌, IfOk, map};
ghost use Rattle.rc_syntax.specs.Shape as written;
ghost use Rattle.rc_syntax.specs.Tree as t;
ghost use Rattle.rc_linking.specs.Moved as place;

use crate::lists::{Part, copies};
use crate::nodes::item_node;
use crate::parts::{constant_option, name_option, type_option};
use crate::statements::body;
use rc_base::NoMemory;
use rc_expression_copies::{boxed, copy_name, copy_type, spot};
use rc_syntax::tree::{Constant, Field, Item, Name, Param, Spot, Stmt, TypeName};
use std::alloc::Global;

impl Part for Field {
    ghost Shape = { t.Field };

    ghost shape = { written.field_of };

    ghost moved = { place.moved_field };

    fn copied(&self, alloc: Global, by: u32) -> Result<Box<Field>, NoMemory> {
        let spot = spot(self.spot, by)?;
        let name = copy_name(&self.name, by)?;
        let type_name = copy_type(alloc, &self.type_name, by)?;
        boxed(
            alloc,
            Field {
                spot,
                type_name,
                name,
                length: self.length,
            },
        )
    }
}

impl Part for Param {
    ghost Shape = { t.Param };

    ghost shape = { written.param_of };

    ghost moved = { place.moved_param };

    fn copied(&self, alloc: Global, by: u32) -> Result<Box<Param>, NoMemory> {
        let spot = spot(self.spot, by)?;
        let name = name_option(&self.name, by)?;
        let type_name = copy_type(alloc, &self.type_name, by)?;
        boxed(
            alloc,
            Param {
                spot,
                type_name,
                name,
            },
        )
    }
}

fn copy_struct(
    alloc: Global,
    at: Spot,
    n: &Name,
    fs: &[Field],
    by: u32,
) -> Result<Box<Item>, NoMemory>
    ensures { IfOk result (λ r. written.item_of r.value ≡ place.moved_item by (t.struct at n.now (map written.field_of fs.now))) }
{
    let at = spot(at, by)?;
    let fs = copies(fs, alloc, by)?;
    let n = copy_name(n, by)?;
    item_node(alloc, Item::Struct(at, n, fs))
}

fn copy_global(
    alloc: Global,
    at: Spot,
    ty: &TypeName,
    n: &Name,
    length: Option<u32>,
    c: &Option<Constant>,
    by: u32,
) -> Result<Box<Item>, NoMemory>
    ensures { IfOk result (λ r. written.item_of r.value ≡ place.moved_item by (t.global at (written.type_of ty.now) n.now length c.now)) }
{
    let at = spot(at, by)?;
    let c = constant_option(c, by)?;
    let n = copy_name(n, by)?;
    let ty = copy_type(alloc, ty, by)?;
    item_node(alloc, Item::Global(at, ty, n, length, c))
}

fn copy_function(
    alloc: Global,
    at: Spot,
    deletes: bool,
    gives: &Option<TypeName>,
    n: &Name,
    qs: &[Param],
    b: &Option<Vec<Stmt>>,
    by: u32,
) -> Result<Box<Item>, NoMemory>
    ensures { IfOk result (λ r. written.item_of r.value ≡ place.moved_item by (t.function at deletes (written.mapped written.type_of gives.now) n.now (map written.param_of qs.now) (written.mapped (λ b. written.stmts_of b.items) b.now))) }
{
    let at = spot(at, by)?;
    let b = body(b, alloc, by)?;
    let qs = copies(qs, alloc, by)?;
    let n = copy_name(n, by)?;
    let gives = type_option(alloc, gives, by)?;
    item_node(alloc, Item::Function(at, deletes, gives, n, qs, b))
}

/// A copy of an item whose words stand `by` words later. Each node keeps its line, and names and
/// strings share their bytes.
///
/// # Errors
///
/// Out of memory, or a place would be over 4,294,967,295.
pub fn copy_item(alloc: Global, i: &Item, by: u32) -> Result<Box<Item>, NoMemory>
    ensures { IfOk result (λ r. written.item_of r.value ≡ place.moved_item by (written.item_of i.now)) }
{
    match i {
        Item::Struct(at, n, fs) => copy_struct(alloc, *at, n, fs, by),
        Item::Global(at, ty, n, length, c) => copy_global(alloc, *at, ty, n, *length, c, by),
        Item::Function(at, deletes, gives, n, qs, b) => {
            copy_function(alloc, *at, *deletes, gives, n, qs, b, by)
        }
    }
}

impl Part for Item {
    ghost Shape = { t.Item };

    ghost shape = { written.item_of };

    ghost moved = { place.moved_item };

    fn copied(&self, alloc: Global, by: u32) -> Result<Box<Item>, NoMemory> {
        copy_item(alloc, self, by)
    }
}

/// Copies of items, as `copy_item` makes them.
///
/// # Errors
///
/// As `copy_item`.
pub fn copy_items(alloc: Global, is: &[Item], by: u32) -> Result<Vec<Item>, NoMemory>
    ensures { IfOk result (λ r. map written.item_of r.items ≡ place.moved_items by (map written.item_of is.now)) }
{
    copies(is, alloc, by)
}

/// Copies of items at the same places.
///
/// # Errors
///
/// Out of memory.
pub fn same_items(alloc: Global, is: &[Item]) -> Result<Vec<Item>, NoMemory>
    ensures { IfOk result (λ r. map written.item_of r.items ≡ map written.item_of is.now) }
{
    copy_items(alloc, is, 0)
}
