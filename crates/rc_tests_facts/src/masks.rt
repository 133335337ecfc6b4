// Masks that are made by hand: without a mark, and with a mark at one point.

use rc_base::NoMemory;
use rc_compile::program;
use rc_elab::elaborate;
use rc_elim::{Mask, needless, removable};
use rc_infer::{graphs_of, infer_over};
use rc_reports::{entries, removed_count};
use rc_rlang::rlang::Rlang;
use std::alloc::Global;
use std::test::Fail;

/// Two stores to annotated cells, in one function.
const TEXT: &[u8] =
    b"struct s { struct s *sameregion next; }; int main(void) { struct s *p = ralloc(newregion(), struct s); struct s *q = ralloc(newregion(), struct s); q->next = p; p->next = q; return 0; }";

/// A store whose check may go, and one whose check may not.
const ONE_OF_TWO: &[u8] =
    b"struct s { struct s *sameregion next; }; int main(void) { struct s *p = ralloc(newregion(), struct s); struct s *q = ralloc(regionof(p), struct s); struct s *o = ralloc(newregion(), struct s); p->next = q; p->next = o; return 0; }";

/// No store to an annotated cell.
const SILENT: &[u8] = b"int main(void) { return 0; }";

/// The mask with a mark at this point of the first function, where a store to an annotated cell stands.
fn marked_at(alloc: Global, code: &Rlang, point: u32) -> Result<Mask, NoMemory> {
    let mut mask = Mask::none(alloc, code)?;
    mask.remove(alloc, code, 0, point)?;
    Ok(mask)
}

/// How many checks a mask removes.
fn removed(alloc: Global, code: &Rlang, mask: &Mask) -> Result<u64, NoMemory> {
    Ok(removed_count(entries(alloc, code, mask)?.as_slice()))
}

/// Whether of the first points, so many, this one alone may be marked.
fn is_alone(mask: &Mask, point: u32, points: u32) -> bool {
    for other in 0..points {
        if other != point && mask.removed(0, other) {
            return false;
        }
    }
    true
}

/// At how many points of the first function a store stands that a mark removes the check of, where no mark
/// removes another.
fn telling_points(alloc: Global, code: &Rlang) -> Result<Option<u64>, NoMemory> {
    let points = u32::try_from(Mask::none(alloc, code)?.points(0)).map_err(|_| NoMemory)?;
    let mut telling = 0u64;
    for point in 0..points {
        let mask = marked_at(alloc, code, point)?;
        let checks = removed(alloc, code, &mask)?;
        let tells = mask.removed(0, point) == (checks == 1);
        if checks > 1 || !tells || !is_alone(&mask, point, points) {
            return Ok(None);
        }
        telling = telling.wrapping_add(checks);
    }
    Ok(Some(telling))
}

#[test]
fn a_mask_without_a_mark_removes_no_check(rt: HostRuntime) -> Result<(), Fail> {
    let alloc = rt.alloc();
    let program = program(alloc, TEXT)?;
    let code = elaborate(alloc, &program)?;
    let mask = Mask::none(alloc, &code)?;
    assert!(rt; entries(alloc, &code, &mask)?.len() == 2);
    assert!(rt; removed(alloc, &code, &mask)? == 0);
    assert!(rt; mask.points(1) == 0);
    Ok(())
}

#[test]
fn a_mark_removes_the_check_of_its_point(rt: HostRuntime) -> Result<(), Fail> {
    let alloc = rt.alloc();
    let program = program(alloc, TEXT)?;
    let code = elaborate(alloc, &program)?;
    assert!(rt; telling_points(alloc, &code)? == Some(2));
    Ok(())
}

#[test]
fn needless_checks_are_those_that_inferred_facts_prove(rt: HostRuntime) -> Result<(), Fail> {
    let alloc = rt.alloc();
    let program = program(alloc, ONE_OF_TWO)?;
    let code = elaborate(alloc, &program)?;
    let mask = needless(alloc, &code)?;
    let facts = infer_over(alloc, &code, graphs_of(alloc, &code)?)?;
    let proved = removable(alloc, &code, &facts)?;
    assert!(rt; removed(alloc, &code, &mask)? == 1);
    let points = u32::try_from(mask.points(0)).map_err(|_| NoMemory)?;
    for point in 0..points {
        assert!(rt; mask.removed(0, point) == proved.removed(0, point));
    }
    Ok(())
}

#[test]
fn code_that_asks_for_no_fact_has_a_mask_without_a_mark(rt: HostRuntime) -> Result<(), Fail> {
    let alloc = rt.alloc();
    let program = program(alloc, SILENT)?;
    let code = elaborate(alloc, &program)?;
    let mask = needless(alloc, &code)?;
    let none = Mask::none(alloc, &code)?;
    assert!(rt; mask.points(0) == none.points(0));
    assert!(rt; removed(alloc, &code, &mask)? == 0);
    Ok(())
}
