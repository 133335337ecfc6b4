// The graphs of translated programs are made: of a small one, of one at the most points, and of loops
// deep in one another. What stands at their points is proved.

use crate::repeated::Repeated;
use rc_compile::program;
use rc_core::Layouts;
use rc_elab::elaborate;
use rc_graph::graph_of;
use std::alloc::Global;
use std::test::Fail;

/// How many points the graphs of a program's functions have.
fn points(alloc: Global, text: &[u8]) -> Result<usize, Fail> {
    let program = program(alloc, text)?;
    let Ok(code) = elaborate(alloc, &program) else {
        return Ok(0);
    };
    let parts = code.parts();
    let layouts = Layouts::new(alloc, parts.structs.as_slice())?;
    let mut count = 0usize;
    for routine in &parts.functions {
        let Ok(graph) = graph_of(alloc, &layouts, routine) else {
            return Ok(0);
        };
        count = count.saturating_add(graph.nodes.len());
    }
    Ok(count)
}

#[test]
fn small_graphs_are_made(rt: HostRuntime) -> Result<(), Fail> {
    let straight = b"int main(void) deletes { region r = newregion(); deleteregion(r); return 0; }";
    assert!(rt; points(rt.alloc(), straight)? == 9);
    let looping =
        b"struct s { struct s *sameregion next; }; struct s *put(struct s *p) { struct s *q = ralloc(regionof(p), struct s); q->next = p; return q; } int main(void) { struct s *p = ralloc(newregion(), struct s); while (p) p = put(p); return 0; }";
    assert!(rt; points(rt.alloc(), looping)? > 20);
    Ok(())
}

#[test]
fn a_graph_of_the_most_points_is_made(rt: HostRuntime) -> Result<(), Fail> {
    let text = Repeated {
        front: b"int main(void){ int x; ",
        part: b"x=1;",
        times: 32_765,
        end: b" return 0; }",
    };
    assert!(rt; points(rt.alloc(), text.text(rt.alloc())?.as_slice())? == 65_536);
    Ok(())
}

#[test]
fn a_graph_of_deep_loops_is_made(rt: HostRuntime) -> Result<(), Fail> {
    let text = Repeated {
        front: b"int main(void) deletes { region r = newregion(); int x = 1; ",
        part: b"while (x) ",
        times: 60,
        end: b"{ deleteregion(r); x = 0; } return 0; }",
    };
    assert!(rt; points(rt.alloc(), text.text(rt.alloc())?.as_slice())? > 120);
    Ok(())
}
