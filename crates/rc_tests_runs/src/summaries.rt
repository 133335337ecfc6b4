// Lines that sum up runs, one for each kind of end.
use rc_base::{End, Trap};
use rc_summaries::{Summary, summary_text};
use std::alloc::Global;
use std::test::Fail;

/// Whether this is the line of a run that ended so.
fn is_line(alloc: Global, number: u64, end: End, line: &[u8]) -> bool {
    let summary = Summary {
        number,
        functions: 643,
        checks: 481,
        removed: 321,
        end,
    };
    match summary_text(alloc, &summary) {
        Ok(text) => text.as_slice() == line,
        Err(_) => false,
    }
}

#[test]
fn each_end_has_its_words(rt: HostRuntime) -> Result<(), Fail> {
    let alloc = rt.alloc();
    assert!(rt;
        is_line(
            alloc,
            7,
            End::Exit(20160),
            b"soak 7: 643 functions, 481 checks, 321 removed, exit 20160\n"
        )
    );
    assert!(rt;
        is_line(
            alloc,
            0,
            End::Exit(-3),
            b"soak 0: 643 functions, 481 checks, 321 removed, exit -3\n"
        )
    );
    assert!(rt;
        is_line(
            alloc,
            10,
            End::Trapped(Trap::ParentPtr, 5),
            b"soak 10: 643 functions, 481 checks, 321 removed, trap parentptr\n"
        )
    );
    assert!(rt;
        is_line(
            alloc,
            18446744073709551615,
            End::Spent,
            b"soak 18446744073709551615: 643 functions, 481 checks, 321 removed, spent\n"
        )
    );
    Ok(())
}
