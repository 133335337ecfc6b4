// The code of small programs, row by row: a text, and its region code as words.

use crate::listing::listing;
use rc_compile::program;
use rc_elab::elaborate;
use std::alloc::Global;
use std::test::Fail;

const ROWS: [(&[u8], &str); 8] = [
    (
        b"int main(void) { int a; int b = 7; a = b - 2; return a; }",
        "{ clear constant0 to_second second0 constant1 binary0 to_first first0 leave }",
    ),
    (
        b"int main(void) { char c = 300; return c; }",
        "{ constant0 convert0 to_first first0 convert0 leave }",
    ),
    (
        b"int main(void) { int a = 0; if (!a) return 1; else return 2; }",
        "{ constant0 to_first first0 unless ( constant0 leave ) ( constant0 leave ) }",
    ),
    (
        b"int main(void) { int i; for (i = 0; i < 3; i++) continue; return i; }",
        "{ clear { constant0 to_first loop first0 constant1 binary0 if ( first0 constant1 binary0 to_first ) ( continue ) } first0 leave }",
    ),
    (
        b"struct s { int a[4]; }; int main(void) { struct s *p = ralloc(newregion(), struct s); p->a[2] = p->a[1]; p->a[1] += 2; return 0; }",
        "{ new_region0 allocate0 to_first first0 constant1 first2 constant3 load2 store first0 constant1 constant2 update constant0 leave }",
    ),
    (
        b"int main(void) { int a = 1; int b; b = a && b; b = a ? b : 2; return b || a; }",
        "{ constant0 to_first clear first0 fork0 ( second0 truth0 ) ( constant0 ) to_second first0 fork0 ( second0 ) ( constant0 ) to_second second0 fork0 ( constant0 ) ( first0 truth0 ) leave }",
    ),
    (
        b"int main(void) { int *p = NULL; do { if (p == NULL) break; } while (p); return 0; }",
        "{ null0 to_first repeat ( { first0 unless ( break ) ( { } ) } ) first0 if constant0 leave }",
    ),
    (
        b"struct s { int a; }; struct s g; struct s h; void f(void) { g = h; } int main(void) { f(); return 0; }",
        "{ static0 static1 move } { perform constant0 leave }",
    ),
];

/// Whether the text's region code is these words.
fn is_code(alloc: Global, text: &[u8], words: &str) -> Result<bool, Fail> {
    let program = program(alloc, text)?;
    match elaborate(alloc, &program) {
        Ok(code) => Ok(listing(alloc, code.parts())?.as_str() == words),
        Err(_) => Ok(false),
    }
}

#[test]
fn small_programs_have_their_code(rt: HostRuntime) -> Result<(), Fail> {
    for (text, words) in ROWS {
        assert!(rt; is_code(rt.alloc(), text, words)?);
    }
    Ok(())
}
