// Of small programs how many stores to annotated cells there are, and of how many the check may go. The
// numbers follow from the rules of facts, by hand.

use rc_reports::{inspect, removed_count};
use std::alloc::Global;
use std::test::Fail;

/// Whether a text has a report, with so many stores, of which so many make no check.
fn has_stores(alloc: Global, text: &[u8], stores: usize, removed: u64) -> bool {
    match inspect(alloc, text) {
        Ok(entries) => entries.len() == stores && removed_count(entries.as_slice()) == removed,
        Err(_) => false,
    }
}

#[test]
fn a_store_within_a_region_is_needless(rt: HostRuntime) -> Result<(), Fail> {
    let text =
        b"struct s { struct s *sameregion next; }; int main(void) { region r = newregion(); struct s *p = ralloc(r, struct s); struct s *q = ralloc(r, struct s); q->next = p; return 0; }";
    assert!(rt; has_stores(rt.alloc(), text, 1, 1));
    Ok(())
}

#[test]
fn a_store_between_regions_is_not(rt: HostRuntime) -> Result<(), Fail> {
    let text =
        b"struct s { struct s *sameregion next; }; int main(void) { struct s *p = ralloc(newregion(), struct s); struct s *q = ralloc(newregion(), struct s); q->next = p; return 0; }";
    assert!(rt; has_stores(rt.alloc(), text, 1, 0));
    Ok(())
}

#[test]
fn a_list_is_built_in_a_loop(rt: HostRuntime) -> Result<(), Fail> {
    let text =
        b"struct s { struct s *sameregion next; }; int main(void) { region r = newregion(); struct s *l = NULL; int i; for (i = 0; i < 9; i++) { struct s *p = ralloc(r, struct s); p->next = l; l = p; } return 0; }";
    assert!(rt; has_stores(rt.alloc(), text, 1, 1));
    Ok(())
}

#[test]
fn facts_go_through_calls(rt: HostRuntime) -> Result<(), Fail> {
    let text =
        b"struct s { struct s *sameregion next; }; struct s *put(struct s *l) { struct s *p = ralloc(regionof(l), struct s); p->next = l; return p; } int main(void) { region r = newregion(); struct s *l = ralloc(r, struct s); struct s *q = put(l); l->next = q; return 0; }";
    assert!(rt; has_stores(rt.alloc(), text, 2, 2));
    Ok(())
}

/// The end of a body gives null, and no test tells that it is never come to.
#[test]
fn the_end_of_a_body_may_give_null(rt: HostRuntime) -> Result<(), Fail> {
    let text =
        b"struct s { struct s *sameregion next; }; struct s *put(struct s *l) { struct s *p = ralloc(regionof(l), struct s); p->next = l; return p; } int main(void) { region r = newregion(); struct s *l = ralloc(r, struct s); struct s *q = put(l); q->next = l; return 0; }";
    assert!(rt; has_stores(rt.alloc(), text, 2, 1));
    Ok(())
}

#[test]
fn a_text_that_is_refused_has_none(rt: HostRuntime) -> Result<(), Fail> {
    assert!(rt; !has_stores(rt.alloc(), b"int main(void) { return x; }", 0, 0));
    Ok(())
}
