// Long scripts: many regions, objects and pins.
use crate::case::Case;
use crate::running::{is_counted, is_looked_up};
use rc_base::NoMemory;
use std::alloc::Global;
use std::test::Fail;

/// Whether the heap that counts answers so.
fn is_answered(alloc: Global, case: &Case) -> Result<bool, NoMemory> {
    is_counted(alloc, case.script(), case.output())
}

/// Whether both heaps answer so.
fn is_answered_by_both(alloc: Global, case: &Case) -> Result<bool, NoMemory> {
    Ok(is_answered(alloc, case)? && is_looked_up(alloc, case.script(), case.output())?)
}

/// A chain of so many regions, each under the one before.
fn chain(case: &mut Case, length: u32) -> Result<(), NoMemory> {
    for parent in 0..length {
        case.region(parent, parent.wrapping_add(1))?;
    }
    Ok(())
}

/// A chain goes whole, parents before children, and not without its last.
fn whole_chain(case: &mut Case, length: u32) -> Result<(), NoMemory> {
    chain(case, length)?;
    case.drop_up_to(length.wrapping_sub(1), "subregion")?;
    case.drop_up_to(length, "ok")?;
    case.line("new", 1, "bad")
}

/// Of a chain each region is tried from the top, and stays but for the last; then all go from below.
fn chain_from_both_ends(case: &mut Case, length: u32) -> Result<(), NoMemory> {
    chain(case, length)?;
    for region in 1..length {
        case.line("drop", region, "subregion")?;
    }
    for below in 0..length {
        case.line("drop", length.wrapping_sub(below), "ok")?;
    }
    Ok(())
}

/// So many objects of region 1 name region 2, and go with it.
fn objects(case: &mut Case, count: u32) -> Result<(), NoMemory> {
    case.region(0, 1)?;
    case.region(0, 2)?;
    for object in 0..count {
        case.cell(1, object)?;
        case.link(1, object, 2)?;
    }
    case.line("drop", 2, "reference")?;
    case.line("drop", 1, "ok")?;
    case.line("drop", 2, "ok")
}

/// A region is pinned so many times, and goes when as many pins are taken away.
fn pins(case: &mut Case, count: u32) -> Result<(), NoMemory> {
    case.region(0, 1)?;
    for _ in 0..count {
        case.line("pin", 1, "ok")?;
    }
    for _ in 0..count {
        case.line("drop", 1, "reference")?;
        case.line("unpin", 1, "ok")?;
    }
    case.line("unpin", 1, "bad")?;
    case.line("drop", 1, "ok")
}

/// So many regions each name the next one, and the last the first. All go together, and not without
/// the last.
fn ring(case: &mut Case, length: u32) -> Result<(), NoMemory> {
    for before in 0..length {
        case.region(0, before.wrapping_add(1))?;
        case.cell(before.wrapping_add(1), 0)?;
    }
    for before in 1..length {
        case.link(before, 0, before.wrapping_add(1))?;
    }
    case.link(length, 0, 1)?;
    case.drop_up_to(length.wrapping_sub(1), "reference")?;
    case.drop_up_to(length, "ok")?;
    case.line("drop", 1, "bad")
}

#[test]
fn a_chain_of_many_regions_goes(rt: HostRuntime) -> Result<(), Fail> {
    let mut case = Case::new(rt.alloc());
    whole_chain(&mut case, 100_000)?;
    assert!(rt; is_answered(rt.alloc(), &case)?);
    Ok(())
}

#[test]
fn a_parent_stays_as_long_as_its_child(rt: HostRuntime) -> Result<(), Fail> {
    let mut case = Case::new(rt.alloc());
    chain_from_both_ends(&mut case, 300)?;
    assert!(rt; is_answered_by_both(rt.alloc(), &case)?);
    Ok(())
}

#[test]
fn a_region_has_many_objects(rt: HostRuntime) -> Result<(), Fail> {
    let mut case = Case::new(rt.alloc());
    objects(&mut case, 20_000)?;
    assert!(rt; is_answered(rt.alloc(), &case)?);
    Ok(())
}

#[test]
fn a_region_is_pinned_many_times(rt: HostRuntime) -> Result<(), Fail> {
    let mut case = Case::new(rt.alloc());
    pins(&mut case, 1000)?;
    assert!(rt; is_answered_by_both(rt.alloc(), &case)?);
    Ok(())
}

#[test]
fn a_ring_of_many_regions_goes(rt: HostRuntime) -> Result<(), Fail> {
    let mut case = Case::new(rt.alloc());
    ring(&mut case, 100)?;
    assert!(rt; is_answered_by_both(rt.alloc(), &case)?);
    Ok(())
}
