// The live locals of translated programs are listed: where regions are deleted in loops and calls, at
// the most points, and where loops stand deep in one another. Which locals they are is proved.

use crate::repeated::Repeated;
use rc_compile::program;
use rc_elab::elaborate;
use rc_live::{live, none};
use std::alloc::Global;
use std::test::Fail;

/// Whether the text is a program whose live locals are listed.
fn is_listed(alloc: Global, text: &[u8]) -> Result<bool, Fail> {
    let program = program(alloc, text)?;
    match elaborate(alloc, &program) {
        Ok(code) => Ok(live(alloc, &code).is_ok()),
        Err(_) => Ok(false),
    }
}

/// Whether the text is a program of which a map without locals is made.
fn has_empty_lists(alloc: Global, text: &[u8]) -> Result<bool, Fail> {
    let program = program(alloc, text)?;
    match elaborate(alloc, &program) {
        Ok(code) => Ok(none(alloc, &code).is_ok()),
        Err(_) => Ok(false),
    }
}

#[test]
fn empty_lists_are_made(rt: HostRuntime) -> Result<(), Fail> {
    let text =
        b"int main(void) deletes { region r = newregion(); region s = newregion(); deleteregion(r); deleteregion(s); return 0; }";
    assert!(rt; has_empty_lists(rt.alloc(), text)?);
    Ok(())
}

#[test]
fn live_locals_at_deletions_are_listed(rt: HostRuntime) -> Result<(), Fail> {
    let text =
        b"struct s { struct s *next; }; int down(region r, int n) deletes { struct s *p = ralloc(r, struct s); if (n > 0) return down(newsubregion(r), n - 1); p = NULL; deleteregion(r); return n; } int main(void) deletes { int i; for (i = 0; i < 3; i++) { region r = newregion(); while (i > 1) { if (i) break; else continue; } down(r, i); } return 0; }";
    assert!(rt; is_listed(rt.alloc(), text)?);
    Ok(())
}

#[test]
fn live_locals_at_the_most_points_are_listed(rt: HostRuntime) -> Result<(), Fail> {
    let text = Repeated {
        front: b"int main(void){ int x; ",
        part: b"x=1;",
        times: 32_765,
        end: b" return 0; }",
    };
    assert!(rt; is_listed(rt.alloc(), text.text(rt.alloc())?.as_slice())?);
    Ok(())
}

#[test]
fn live_locals_in_deep_loops_are_listed(rt: HostRuntime) -> Result<(), Fail> {
    let text = Repeated {
        front: b"int main(void) deletes { region r = newregion(); int x = 1; ",
        part: b"while (x) ",
        times: 190,
        end: b"{ deleteregion(r); x = 0; } return 0; }",
    };
    assert!(rt; is_listed(rt.alloc(), text.text(rt.alloc())?.as_slice())?);
    Ok(())
}
