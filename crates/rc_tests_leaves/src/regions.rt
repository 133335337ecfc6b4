// A long chain, a slot that is used again, and siblings that are removed in all orders.
ghost use Rattle.std.specs.Prelude.{◌≡◌, ◌≢◌, ◌+◌, ◌<◌, slice_set, IsTrue};
ghost use Rattle.rc_regions.specs.declared.record.Slot.TheVariants.{Free, Child};
ghost use Rattle.rc_regions.specs.Above.{IsTree};
ghost use Rattle.rc_regions.specs.Slots.{IsLive, live_slots, slot_at};

use rc_base::Steps;
use rc_regions::Tree;
use std::alloc::Global;
use std::marker::Brand;
use std::sync::ledger::{Blank, Ledger};
use std::test::Fail;

fn is_above_from<L: Ledger>(tree: &Tree, a: u32, b: u32, blank: Blank) -> bool
    requires a { IsLive tree.now a }
    requires b { IsLive tree.now b }
    requires name { blank.name ≡ L.name }
    requires parts { blank.parts ≡ L.parts }
    requires some { 0 < L.parts }
{
    let mut steps = Steps::<L>::start(blank);
    tree.is_above(a, b, &mut steps)
}

/// Whether a is above b, asked by one who counts no steps.
fn is_above(tree: &Tree, a: u32, b: u32) -> bool
    requires a { IsLive tree.now a }
    requires b { IsLive tree.now b }
{
    is_above_from::<Brand>(tree, a, b, Blank::new(1))
}

/// A chain of 1,000 regions below the root, which takes the slots in order, and another child of the root.
fn root_is_above_a_chain(alloc: Global) -> Result<bool, Fail> {
    let mut tree = Tree::new(alloc)?;
    let mut last = 0;
    let mut in_order = true;
    for above in 0..1000 {
        last = tree.add(last)?;
        in_order = in_order && last == above + 1;
    }
    let side = tree.add(0)?;
    Ok(
        in_order
            && is_above(&tree, 0, last)
            && !is_above(&tree, last, 0)
            && is_above(&tree, last, last)
            && !is_above(&tree, side, last)
            && !is_above(&tree, last, side),
    )
}

#[test]
fn the_root_is_above_a_chain(rt: HostRuntime) -> Result<(), Fail> {
    assert!(rt; root_is_above_a_chain(rt.alloc())?);
    Ok(())
}

/// Removes a slot where it is a leaf, and says whether it was one.
fn removes_leaf(tree: &mut Tree, slot: u32) -> bool
    requires live { IsLive tree.old slot }
    requires not_root { slot ≢ 0 }
    ensures removed { IsTrue result → tree.new ≡ slice_set tree.old slot Free }
    ensures one_less { IsTrue result → live_slots tree.new + 1 ≡ live_slots tree.old }
    ensures tree { IsTree tree.new }
{
    if tree.has_child(slot) {
        return false;
    }
    tree.remove(slot);
    true
}

/// Children of the root come and go, 100,000 one after another, all in slot 1.
fn one_slot_is_enough(alloc: Global) -> Result<bool, Fail> {
    let mut tree = Tree::new(alloc)?;
    for _ in 0..100_000 {
        let slot = tree.add(0)?;
        if slot != 1 || !tree.has_child(0) || !removes_leaf(&mut tree, slot) {
            return Ok(false);
        }
    }
    Ok(!tree.has_child(0))
}

#[test]
fn one_slot_is_used_again(rt: HostRuntime) -> Result<(), Fail> {
    assert!(rt; one_slot_is_enough(rt.alloc())?);
    Ok(())
}

/// Removes three children, and says whether the parent has a child until the last is gone.
fn removes_all(tree: &mut Tree, parent: u32, first: u32, second: u32, third: u32) -> bool
    requires tree { IsTree tree.old }
    requires first { slot_at tree.old first ≡ Child parent }
    requires second { slot_at tree.old second ≡ Child parent }
    requires third { slot_at tree.old third ≡ Child parent }
    ensures tree { IsTree tree.new }
    ensures parent { IsTrue result → IsLive tree.new parent }
    ensures live { IsTrue result → live_slots tree.new + 3 ≡ live_slots tree.old }
{
    if first == second || first == third || second == third {
        return false;
    }
    if first == parent || second == parent || third == parent {
        return false;
    }
    removes_leaf(tree, first)
        && tree.has_child(parent)
        && removes_leaf(tree, second)
        && tree.has_child(parent)
        && removes_leaf(tree, third)
        && !tree.has_child(parent)
}

/// The same, in one of the six orders.
fn removes_in_order(tree: &mut Tree, parent: u32, order: u32, a: u32, b: u32, c: u32) -> bool
    requires tree { IsTree tree.old }
    requires a { slot_at tree.old a ≡ Child parent }
    requires b { slot_at tree.old b ≡ Child parent }
    requires c { slot_at tree.old c ≡ Child parent }
    ensures tree { IsTree tree.new }
    ensures parent { IsTrue result → IsLive tree.new parent }
    ensures live { IsTrue result → live_slots tree.new + 3 ≡ live_slots tree.old }
{
    match order {
        0 => removes_all(tree, parent, a, b, c),
        1 => removes_all(tree, parent, a, c, b),
        2 => removes_all(tree, parent, b, a, c),
        3 => removes_all(tree, parent, b, c, a),
        4 => removes_all(tree, parent, c, a, b),
        _ => removes_all(tree, parent, c, b, a),
    }
}

/// Three children are made and removed, in each order.
fn siblings_come_and_go(alloc: Global) -> Result<bool, Fail> {
    let mut tree = Tree::new(alloc)?;
    let parent = tree.add(0)?;
    for order in 0..6 {
        let a = tree.add(parent)?;
        let b = tree.add(parent)?;
        let c = tree.add(parent)?;
        if !removes_in_order(&mut tree, parent, order, a, b, c) {
            return Ok(false);
        }
    }
    Ok(true)
}

#[test]
fn siblings_are_removed_in_all_orders(rt: HostRuntime) -> Result<(), Fail> {
    assert!(rt; siblings_come_and_go(rt.alloc())?);
    Ok(())
}

/// A slot that was a child of the root is used again at depth 2, and has a chain below it.
fn slot_goes_deeper(alloc: Global) -> Result<bool, Fail> {
    let mut tree = Tree::new(alloc)?;
    let first = tree.add(0)?;
    let second = tree.add(0)?;
    if second == first || !removes_leaf(&mut tree, first) {
        return Ok(false);
    }
    let third = tree.add(second)?;
    let fourth = tree.add(third)?;
    let fifth = tree.add(fourth)?;
    Ok(
        third == first
            && is_above(&tree, third, fifth)
            && is_above(&tree, fourth, fifth)
            && !is_above(&tree, fifth, third),
    )
}

#[test]
fn a_slot_is_used_again_deeper(rt: HostRuntime) -> Result<(), Fail> {
    assert!(rt; slot_goes_deeper(rt.alloc())?);
    Ok(())
}
