// The images of small programs, row by row: a text, and the listing of its image.

use rc_build::finish;
use rc_compile::typed_program;
use rc_listing::list;
use std::alloc::Global;
use std::test::Fail;

const ROWS: [(&[u8], &str); 7] = [
    (
        b"int main(void) { putchar(72); return 0; }",
        "0 0 1 INT 72\n0 1 1 PUT\n0 2 1 POP\n0 3 1 INT 0\n0 4 1 RET\n0 5 1 INT 0\n0 6 1 RET\n",
    ),
    (
        b"struct s { int a; }; int main(void) { struct s *p = ralloc(newregion(), struct s); p->a = 3; while (p->a) p->a = 0; return p->a; }",
        "0 0 1 NEWREGION\n0 1 1 RALLOC 0\n0 2 1 SET 0\n0 3 1 GET 0\n0 4 1 INT 3\n0 5 1 STORE 0 0\n0 6 1 GET 0\n0 7 1 LOAD 0\n0 8 1 JZ 13\n0 9 1 GET 0\n0 10 1 INT 0\n0 11 1 STORE 0 0\n0 12 1 BACK 6\n0 13 1 GET 0\n0 14 1 LOAD 0\n0 15 1 RET\n0 16 1 INT 0\n0 17 1 RET\n",
    ),
    // a test's jumps, over the other arm and out of a loop
    (
        b"int main(void) { int i; for (i = 0; i < 3; i++) if (i) continue; else break; return i; }",
        "0 0 1 INT 0\n0 1 1 SET 0\n0 2 1 INT 0\n0 3 1 SET 0\n0 4 1 GET 0\n0 5 1 INT 3\n0 6 1 LT 0\n0 7 1 JZ 18\n0 8 1 GET 0\n0 9 1 JZ 12\n0 10 1 JUMP 13\n0 11 1 JUMP 13\n0 12 1 JUMP 18\n0 13 1 GET 0\n0 14 1 INT 1\n0 15 1 ADD 0\n0 16 1 SET 0\n0 17 1 BACK 4\n0 18 1 GET 0\n0 19 1 RET\n0 20 1 INT 0\n0 21 1 RET\n",
    ),
    // a loop whose test comes last
    (
        b"int main(void) { int *p = NULL; do { if (p == NULL) break; } while (p); return 0; }",
        "0 0 1 NULLP 0\n0 1 1 SET 0\n0 2 1 GET 0\n0 3 1 NILP 0\n0 4 1 JZ 7\n0 5 1 JUMP 12\n0 6 1 JUMP 7\n0 7 1 GET 0\n0 8 1 NILP 0\n0 9 1 ZERO\n0 10 1 JZ 12\n0 11 1 BACK 2\n0 12 1 INT 0\n0 13 1 RET\n0 14 1 INT 0\n0 15 1 RET\n",
    ),
    // an operand that waits is kept in a local
    (
        b"int main(void) { int a = 1; char c = 2; a = 1 + (a ? c : 2); return a; }",
        "0 0 1 INT 1\n0 1 1 SET 0\n0 2 1 INT 2\n0 3 1 TOC\n0 4 1 SET 1\n0 5 1 INT 1\n0 6 1 GET 0\n0 7 1 SET 3\n0 8 1 SET 2\n0 9 1 GET 3\n0 10 1 JZ 14\n0 11 1 GET 1\n0 12 1 SET 3\n0 13 1 JUMP 16\n0 14 1 INT 2\n0 15 1 SET 3\n0 16 1 GET 2\n0 17 1 GET 3\n0 18 1 ADD 0\n0 19 1 SET 0\n0 20 1 GET 0\n0 21 1 RET\n0 22 1 INT 0\n0 23 1 RET\n",
    ),
    // a region that is deleted, and calls that delete
    (
        b"int down(region r, int n) deletes { if (n) return down(newsubregion(r), n - 1); deleteregion(r); return n; } int main(void) deletes { region r = newregion(); return down(r, 2); }",
        "0 0 1 GET 1\n0 1 1 JZ 10\n0 2 1 GET 0\n0 3 1 NEWSUB\n0 4 1 GET 1\n0 5 1 INT 1\n0 6 1 SUB 0\n0 7 1 CALL 0 0\n0 8 1 RET\n0 9 1 JUMP 10\n0 10 1 GET 0\n0 11 1 DELETE 0\n0 12 1 GET 1\n0 13 1 RET\n0 14 1 INT 0\n0 15 1 RET\n1 0 1 NEWREGION\n1 1 1 SET 0\n1 2 1 GET 0\n1 3 1 INT 2\n1 4 1 CALL 0 0\n1 5 1 RET\n1 6 1 INT 0\n1 7 1 RET\n",
    ),
    // globals, a struct that is copied and a cell that is added to
    (
        b"struct s { int a; }; struct s g; struct s h; void f(void) { g = h; g.a += 2; } int main(void) { f(); return 0; }",
        "0 0 1 GLOBAL 0\n0 1 1 GLOBAL 1\n0 2 1 SET 0\n0 3 1 SET 2\n0 4 1 GET 2\n0 5 1 GET 0\n0 6 1 LOAD 0\n0 7 1 STORE 0 0\n0 8 1 GLOBAL 0\n0 9 1 INT 2\n0 10 1 SET 1\n0 11 1 SET 2\n0 12 1 GET 2\n0 13 1 GET 2\n0 14 1 LOAD 0\n0 15 1 GET 1\n0 16 1 ADD 0\n0 17 1 STORE 0 0\n0 18 1 RET\n1 0 1 CALL 0 0\n1 1 1 INT 0\n1 2 1 RET\n1 3 1 INT 0\n1 4 1 RET\n",
    ),
];

/// Whether the image of the text has the listing.
fn is_listed(alloc: Global, text: &[u8], listing: &str) -> Result<bool, Fail> {
    let program = typed_program(alloc, text)?;
    let image = finish(alloc, &program)?;
    Ok(list(alloc, &image)?.as_slice() == listing.as_bytes())
}

#[test]
fn images_of_small_programs_are_listed(rt: HostRuntime) -> Result<(), Fail> {
    for (text, listing) in ROWS {
        assert!(rt; is_listed(rt.alloc(), text, listing)?);
    }
    Ok(())
}
