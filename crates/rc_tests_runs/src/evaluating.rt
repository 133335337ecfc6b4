// A program that is run by itself. Others are rows of rc_rows.
use rc_base::{Buffer, Bytes, End, Limits};
use rc_compile::program;
use rc_slow::evaluate;
use std::alloc::Global;
use std::test::Fail;

/// Writes each second byte, up to a full stop, or to a byte before `!`.
const COPYING: &[u8] =
    b"int main(void) { while (putchar(getchar()) - '.') if (getchar() - '!') 0; else return 7; }";

/// Whether the program ends by its `return`, with two of the five bytes written.
fn runs_to_its_end(alloc: Global) -> Result<bool, Fail> {
    let mut input = Bytes::new(b"a b!c".to_vec(alloc)?, Vec::new(alloc));
    let mut out = Buffer::new(alloc, 9, Vec::new(alloc))?;
    let program = program(alloc, COPYING)?;
    let limits = Limits {
        turns: 9,
        regions: 0,
        blocks: 0,
    };
    let end = evaluate(alloc, &program, &limits, &mut input, &mut out);
    Ok(end == Ok(End::Exit(7)) && out.taken() == b"ab".as_slice())
}

#[test]
fn a_program_runs_to_its_end(rt: HostRuntime) -> Result<(), Fail> {
    assert!(rt; runs_to_its_end(rt.alloc())?);
    Ok(())
}
