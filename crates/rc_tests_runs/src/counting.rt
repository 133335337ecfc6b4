// A program that keeps within the bounds. Texts at the bounds, and beyond them, are rows of rc_rows.
use rc_compile::program;
use rc_elab::count;
use std::alloc::Global;

/// Whether the text is a program that keeps within 65,536 points and 128 region variables a function.
fn keeps_within(alloc: Global, text: &[u8]) -> bool {
    match program(alloc, text) {
        Ok(program) => count(alloc, &program) == Ok(()),
        Err(_) => false,
    }
}

#[test]
fn the_smallest_program_is_within_the_bounds(rt: HostRuntime) {
    assert!(rt; keeps_within(rt.alloc(), b"int main(void) { return 0; }"));
}
