// The stores of the images of small programs, row by row: a text, and of each store its line and whether
// it makes no check. Checks are left out where facts prove them needless, which follows by hand.

use rc_base::NoMemory;
use rc_code::{Function, Instruction};
use rc_compile::program;
use rc_emit::compile_program;
use std::alloc::Global;
use std::test::Fail;

const ROWS: [(&[u8], &[(u32, bool)]); 5] = [
    // A list is built in a loop. The store of a number has no mark.
    (
        b"#include \"regions.h\"\nstruct node { int v; struct node *sameregion next; };\nint main(void) deletes {\n  region r = newregion();\n  struct node *last = NULL, *n;\n  int i, sum = 0;\n  for (i = 1; i <= 9; i++) {\n    n = ralloc(r, struct node);\n    n->v = i;\n    n->next = last;\n    last = n;\n  }\n  for (n = last; n; n = n->next) sum += n->v;\n  putchar('0' + sum / 10); putchar('0' + sum % 10);\n  deleteregion(r);\n  return 0;\n}\n",
        &[(9, false), (10, true)],
    ),
    // The store of a loop's body is needless, that of its third part, which stands before it, is not.
    (
        b"struct s { struct s *sameregion next; };\nint main(void) {\n  region r = newregion();\n  struct s *a = ralloc(r, struct s), *b = ralloc(r, struct s), *c = ralloc(newregion(), struct s);\n  int i = 0;\n  for (; i < 3;\n       a->next = c)\n  {\n    a->next = b;\n    i++;\n  }\n  return 0;\n}\n",
        &[(9, true), (7, false)],
    ),
    // And the other way round.
    (
        b"struct s { struct s *sameregion next; };\nint main(void) {\n  region r = newregion();\n  struct s *a = ralloc(r, struct s), *b = ralloc(r, struct s), *c = ralloc(newregion(), struct s);\n  int i = 0;\n  for (; i < 3;\n       a->next = b)\n  {\n    a->next = c;\n    i++;\n  }\n  return 0;\n}\n",
        &[(9, false), (7, true)],
    ),
    // Each function has marks of its own.
    (
        b"struct s { struct s *sameregion next; };\nstruct s *put(struct s *l) { struct s *p = ralloc(regionof(l), struct s);\n  p->next = l; return p; }\nint main(void) { region r = newregion(); struct s *l = ralloc(r, struct s); struct s *q = put(l);\n  q->next = l; return 0; }\n",
        &[(3, true), (5, false)],
    ),
    // Of a struct that is copied within its region, the annotated cells have marks.
    (
        b"struct s { int v; struct s *sameregion next; struct s *any; };\nint main(void) {\n  region r = newregion();\n  struct s *a = ralloc(r, struct s), *b = ralloc(r, struct s);\n  *a = *b;\n  return 0;\n}\n",
        &[(5, false), (5, true), (5, false)],
    ),
];

/// Adds the stores of a function.
fn add_stores(function: &Function, out: &mut Vec<(u32, bool)>) -> Result<(), NoMemory> {
    for (instruction, line) in function
        .code
        .as_slice()
        .iter()
        .zip(function.lines.as_slice())
    {
        if let Instruction::Store(_, proved) = instruction {
            out.push((*line, *proved))?;
        }
    }
    Ok(())
}

/// The stores of the image of a text, from the first to the last.
fn stores(alloc: Global, text: &[u8]) -> Result<Vec<(u32, bool)>, Fail> {
    let program = program(alloc, text)?;
    let mut all = Vec::new(alloc);
    let Ok(image) = compile_program(alloc, &program) else {
        return Ok(all);
    };
    for function in image.parts().functions.as_slice() {
        add_stores(function, &mut all)?;
    }
    Ok(all)
}

#[test]
fn stores_have_the_marks_of_their_points(rt: HostRuntime) -> Result<(), Fail> {
    for (text, wanted) in ROWS {
        assert!(rt; stores(rt.alloc(), text)?.as_slice() == wanted);
    }
    Ok(())
}
