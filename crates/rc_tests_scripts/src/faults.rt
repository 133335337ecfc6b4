// Outputs that fail.
use crate::running::{Script, count};
use rc_base::{Buffer, NoMemory};
use rc_sets::ScriptFault;
use std::alloc::Global;
use std::test::Fail;

const TWO_LINES: Script<'static> = Script {
    regions: 10,
    blocks: 10,
    text: b"new 0\nnew 0\n",
};

const OUTPUT: &[u8] = b"region 1\nregion 2\n";

/// What an output that fails at the put of this number takes.
fn takes(alloc: Global, fails_at: u64) -> Result<bool, NoMemory> {
    let mut fails = Vec::new(alloc);
    fails.push(fails_at)?;
    let mut out = Buffer::new(alloc, 100, fails)?;
    let answer = count(alloc, TWO_LINES, &mut out)?;
    let length = OUTPUT.len();
    if fails_at as usize >= length {
        return Ok(answer == Ok(()) && out.taken() == OUTPUT);
    }
    Ok(answer == Err(ScriptFault::WriteFault) && out.taken() == &OUTPUT[..fails_at as usize])
}

#[test]
fn a_failed_put_ends_a_script(rt: HostRuntime) -> Result<(), Fail> {
    for fails_at in 0..20 {
        assert!(rt; takes(rt.alloc(), fails_at)?);
    }
    Ok(())
}
