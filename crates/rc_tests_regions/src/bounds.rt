// Programs at the bounds, and deep trees. Programs beyond the bounds come to no call from a text; that
// `count` refuses them is in rows of rc_rows.

use crate::repeated::Repeated;
use rc_compile::{typed_program, within_bounds};
use rc_elab::elaborate;
use std::alloc::Global;
use std::test::Fail;

/// Whether the text is a program, keeps within the bounds and is translated.
fn is_translated(alloc: Global, text: &Repeated<'_>) -> Result<bool, Fail> {
    let program = typed_program(alloc, &text.text(alloc)?)?;
    within_bounds(alloc, &program)?;
    Ok(elaborate(alloc, &program).is_ok())
}

/// 65,536 points: two for each assignment, and six more.
#[test]
fn a_program_of_the_most_points_is_translated(rt: HostRuntime) -> Result<(), Fail> {
    let text = Repeated {
        front: b"int main(void){ int x; ",
        part: b"x=1;",
        times: 32_765,
        end: b" return 0; }",
    };
    assert!(rt; is_translated(rt.alloc(), &text)?);
    Ok(())
}

/// 128 region variables: three stand beside the regions.
#[test]
fn a_program_of_the_most_region_variables_is_translated(rt: HostRuntime) -> Result<(), Fail> {
    let text = Repeated {
        front: b"int main(void) { ",
        part: b"{ region r; }",
        times: 125,
        end: b" return 0; }",
    };
    assert!(rt; is_translated(rt.alloc(), &text)?);
    Ok(())
}

#[test]
fn chains_of_512_operands_are_translated(rt: HostRuntime) -> Result<(), Fail> {
    let sum = Repeated {
        front: b"int main(void) { int a = 1; return a",
        part: b"+a",
        times: 511,
        end: b"; }",
    };
    assert!(rt; is_translated(rt.alloc(), &sum)?);
    let both = Repeated {
        part: b"&&a",
        ..sum
    };
    assert!(rt; is_translated(rt.alloc(), &both)?);
    Ok(())
}

#[test]
fn deep_statements_are_translated(rt: HostRuntime) -> Result<(), Fail> {
    let loops = Repeated {
        front: b"int main(void) { ",
        part: b"for (;;) ",
        times: 190,
        end: b"; }",
    };
    assert!(rt; is_translated(rt.alloc(), &loops)?);
    Ok(())
}

/// 127 ways of 510 steps each: the types of a way's parts take no walk back along it.
#[test]
fn long_ways_are_translated(rt: HostRuntime) -> Result<(), Fail> {
    let way = Repeated {
        front: b"p=p",
        part: b"->n",
        times: 510,
        end: b";",
    };
    let way = way.text(rt.alloc())?;
    let text = Repeated {
        front: b"struct s { struct s *n; }; int main(void) { struct s *p = NULL; ",
        part: &way,
        times: 127,
        end: b" return 0; }",
    };
    assert!(rt; is_translated(rt.alloc(), &text)?);
    Ok(())
}
