// The program of a text, and a refusal of each stage.

use rc_compile::{CompileFault, Refusal, a_text_has_one_answer, program};
use std::alloc::Global;
use std::test::Fail;

/// Whether a text gives a program of two functions, with a struct and a global, whose second is `main`.
fn gives_its_program(alloc: Global, text: &[u8]) -> bool {
    a_text_has_one_answer();
    let Ok(found) = program(alloc, text) else {
        return false;
    };
    let parts = found.parts();
    parts.structs.len() == 1
        && parts.globals.len() == 1
        && parts.strings.is_empty()
        && parts.functions.len() == 2
        && parts.main == 1
}

#[test]
fn a_text_gives_its_program(rt: HostRuntime) {
    let text =
        b"struct pair { int a; int b[2]; };\nint k = 7;\nint f(int n) { return n + k; }\nint main(void) { return f(1); }\n";
    assert!(rt; gives_its_program(rt.alloc(), text));
}

/// Why a text gives no program, if it gives none.
fn fault_of(alloc: Global, text: &[u8]) -> Option<CompileFault> {
    match program(alloc, text) {
        Ok(_) => None,
        Err(fault) => Some(fault),
    }
}

#[test]
fn each_stage_refuses(rt: HostRuntime) -> Result<(), Fail> {
    let texts: [(&[u8], Refusal); 9] = [
        (b"\nint main(void) { return 0; } @", Refusal::Byte(2)),
        (b"int main(void) { return 0; } /*", Refusal::Token(1)),
        (b"int main(void) { return 0 }", Refusal::Syntax(1)),
        (b"int main(void) {\nreturn f(1);\n}", Refusal::Unknown(2)),
        (
            b"int a;\nint a;\nint main(void) { return 0; }",
            Refusal::Twice(2),
        ),
        (b"int main(void) {\nreturn NULL;\n}", Refusal::Mistyped(2)),
        (
            b"int f(int a) { return a; }\nint main(void) { return f(); }",
            Refusal::Arity(2),
        ),
        (b"\nint main(int a) { return a; }", Refusal::Main(2)),
        (
            b"int main(void) {\nregion r = newregion();\ndeleteregion(r);\nreturn 0; }",
            Refusal::NotDeletes(3),
        ),
    ];
    for (text, refusal) in texts {
        assert!(rt; fault_of(rt.alloc(), text) == Some(CompileFault::Refused(refusal)));
    }
    Ok(())
}
