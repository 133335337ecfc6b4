// Copies of trees, and how items clash with copies of themselves.

use rc_clashes::{Clash, Earlier};
use rc_compile::tree;
use rc_expression_copies::{add, boxed, expression, expression_option, spot};
use rc_syntax::tree::{Base, Expr, Item, Name, Spot, Stmt, TypeName};
use rc_tree_copies::{
    copy_item, copy_items, copy_name, copy_type, same_items, same_name, same_type,
};
use std::alloc::Global;
use std::test::Fail;

/// Items that may stand in several files.
const SHARED: &[u8] = b"struct pair {\nint a; char b[2]; };\nint sum(struct pair *q);";

/// Items of which one may not: the function.
const OWN: &[u8] = b"struct pair { int a; };\n\nint *sameregion f(int n) { return NULL; }";

/// Where an item begins.
fn spot_of(item: &Item) -> Spot {
    match item {
        Item::Struct(at, _, _) => *at,
        Item::Global(at, _, _, _, _) => *at,
        Item::Function(at, _, _, _, _, _) => *at,
    }
}

/// Whether the copies begin so many words later, on the same lines.
fn are_later(items: &[Item], copies: &[Item], by: u32) -> bool {
    if items.len() != copies.len() {
        return false;
    }
    for i in 0..items.len() {
        let (at, copy) = (spot_of(&items[i]), spot_of(&copies[i]));
        if at.place.checked_add(by) != Some(copy.place) || at.line != copy.line {
            return false;
        }
    }
    true
}

/// How later items clash with earlier ones.
fn clash_of(alloc: Global, earlier: &[Item], later: &[Item]) -> Result<Option<Clash>, Fail> {
    let mut kept = Earlier::new(alloc);
    kept.add(earlier)?;
    Ok(kept.clash(later))
}

/// Whether the items of a text and their copies so many words later clash in this way, and stand where
/// they should.
fn are_copied(alloc: Global, text: &[u8], by: u32, clash: Option<Clash>) -> Result<bool, Fail> {
    let tree = tree(alloc, text)?;
    let copies = copy_items(alloc, &tree.items, by)?;
    Ok(are_later(&tree.items, &copies, by) && clash_of(alloc, &tree.items, &copies)? == clash)
}

/// The same of copies at the same places.
fn are_the_same(alloc: Global, text: &[u8], clash: Option<Clash>) -> Result<bool, Fail> {
    let tree = tree(alloc, text)?;
    let copies = same_items(alloc, &tree.items)?;
    Ok(are_later(&tree.items, &copies, 0) && clash_of(alloc, &tree.items, &copies)? == clash)
}

/// Whether the first item's copy stands so many words later, and is a struct's.
fn is_one_copied(alloc: Global, by: u32) -> Result<bool, Fail> {
    let tree = tree(alloc, OWN)?;
    let Some(item) = tree.items.first() else {
        return Ok(false);
    };
    let copy = copy_item(alloc, item, by)?;
    Ok(spot_of(&*copy).place == by && matches!(*copy, Item::Struct(_, _, _)))
}

/// Whether a name's copies have its bytes, and stand so many words later and at its place.
fn is_name_copied(name: &Name, by: u32) -> Result<bool, Fail> {
    let (later, same) = (copy_name(name, by)?, same_name(name)?);
    Ok(
        Some(later.spot.place) == by.checked_add(11)
            && same.spot.place == 11
            && later.text.as_slice() == b"f".as_slice()
            && same.text.as_slice() == b"f".as_slice(),
    )
}

/// Where the type `int` with a star stands.
fn place_of(type_name: &TypeName) -> Option<u32> {
    match type_name.base {
        Base::Int(at) if type_name.stars.len() == 1 => Some(at.place),
        _ => None,
    }
}

/// Whether a type's copies have its base and its star, and stand so many words later and at its place.
fn is_type_copied(alloc: Global, type_name: &TypeName, by: u32) -> Result<bool, Fail> {
    let later = copy_type(alloc, type_name, by)?;
    let same = same_type(alloc, type_name)?;
    Ok(place_of(&later) == by.checked_add(8) && place_of(&same) == Some(8))
}

/// Whether the type and the name of the function are copied.
fn is_head_copied(alloc: Global, by: u32) -> Result<bool, Fail> {
    let tree = tree(alloc, OWN)?;
    let Some(Item::Function(_, _, Some(type_name), name, _, _)) = tree.items.get(1) else {
        return Ok(false);
    };
    Ok(is_type_copied(alloc, type_name, by)? && is_name_copied(name, by)?)
}

/// Where `NULL` stands, if it is that.
fn place_of_null(e: &Expr) -> Option<u32> {
    match e {
        Expr::Null(at) => Some(at.place),
        _ => None,
    }
}

/// Whether the copies of the function's value are `NULL` too, so many words later.
fn is_null_copied(alloc: Global, value: &Option<Expr>, by: u32) -> Result<bool, Fail> {
    let Some(e) = value else {
        return Ok(false);
    };
    let one = expression(e, alloc, by)?;
    let Some(other) = expression_option(value, alloc, by)? else {
        return Ok(false);
    };
    let place = by.checked_add(18);
    Ok(place_of_null(&*one) == place && place_of_null(&*other) == place)
}

/// Whether the value that the function gives is copied.
fn is_value_copied(alloc: Global, by: u32) -> Result<bool, Fail> {
    let tree = tree(alloc, OWN)?;
    let Some(Item::Function(_, _, _, _, _, Some(body))) = tree.items.get(1) else {
        return Ok(false);
    };
    let Some(Stmt::Return(_, value)) = body.first() else {
        return Ok(false);
    };
    is_null_copied(alloc, value, by)
}

/// Whether a spot so many words later is put behind others, from memory of its own.
fn is_spot_added(alloc: Global, by: u32) -> Result<bool, Fail> {
    let at = spot(Spot { place: 3, line: 2 }, by)?;
    let mut spots = Vec::new(alloc);
    add(&mut spots, boxed(alloc, at)?)?;
    let Some(last) = spots.first() else {
        return Ok(false);
    };
    Ok(Some(last.place) == by.checked_add(3) && last.line == 2)
}

#[test]
fn copies_say_the_same(rt: HostRuntime) -> Result<(), Fail> {
    let double = Some(Clash::Double(3));
    assert!(rt; are_copied(rt.alloc(), SHARED, 5, None)?);
    assert!(rt; are_copied(rt.alloc(), OWN, 1_048_576, double)?);
    assert!(rt; are_the_same(rt.alloc(), SHARED, None)?);
    assert!(rt; are_the_same(rt.alloc(), OWN, double)?);
    Ok(())
}

#[test]
fn parts_are_copied(rt: HostRuntime) -> Result<(), Fail> {
    assert!(rt; is_one_copied(rt.alloc(), 7)?);
    assert!(rt; is_head_copied(rt.alloc(), 7)?);
    assert!(rt; is_value_copied(rt.alloc(), 7)?);
    assert!(rt; is_spot_added(rt.alloc(), 7)?);
    Ok(())
}
