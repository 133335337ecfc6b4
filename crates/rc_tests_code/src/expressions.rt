ghost use Rattle.rc_lines.specs.Over.{StepsListed};

use rc_base::NoMemory;
use rc_core::Layouts;
use rc_core::ty::{Signedness, Ty};
use rc_lines::{Body, Instruction, Line, kept_key, steps};
use rc_rlang::code::{Act, Code, RegionParts, Routine};
use rc_rlang::live_map::LiveMap;
use rc_rlang::steps::{Operation, Step};
use rc_scope::Names;
use std::alloc::Global;
use std::test::Fail;

fn is_number(line: &Line<'_>, made_for: u32, value: i64) -> bool {
    match &line.instruction {
        Instruction::Number(Signedness::Signed, number) => {
            line.line == made_for && *number == value
        }
        _ => false,
    }
}

fn is_zero_test(line: &Line<'_>, made_for: u32) -> bool {
    match &line.instruction {
        Instruction::ZeroTest => line.line == made_for,
        _ => false,
    }
}

/// Whether these steps become `7` and a test of it, on lines 3 and 4.
fn is_a_tested_number<'a>(
    alloc: Global,
    body: &Body<'a, '_>,
    sum: &'a [Step],
) -> Result<bool, NoMemory>
    requires { StepsListed body.now sum.now 1 }
{
    let mut out = Vec::new(alloc);
    let behind = steps(&mut out, body, sum, 0, 1)?;
    let [first, second] = out.as_slice() else {
        return Ok(false);
    };
    let shown = is_number(first, 3, 7) && is_zero_test(second, 4);
    Ok(shown && behind.point == 3 && behind.operands.len() == 1)
}

/// `!7`, over a program that has nothing else.
fn tested_with_a_body(alloc: Global) -> Result<bool, Fail> {
    let sum = [
        Step::Set {
            line: 3,
            temporary: 0,
            ty: Ty::Int,
            operation: Operation::Constant {
                signedness: Signedness::Signed,
                value: 7,
            },
        },
        Step::Set {
            line: 4,
            temporary: 0,
            ty: Ty::Int,
            operation: Operation::NotZero { operand: Ty::Int },
        },
    ];
    let parts = RegionParts {
        structs: Vec::new(alloc),
        globals: Vec::new(alloc),
        strings: Vec::new(alloc),
        functions: Vec::new(alloc),
        main: 0,
    };
    let layouts = Layouts::new(alloc, parts.structs.as_slice())?;
    let routine = Routine {
        parameters: 0,
        locals: Vec::new(alloc),
        result: None,
        deletes: false,
        line: 1,
        body: Code::Simple {
            steps: Vec::new(alloc),
            act: Act::Drop,
        },
    };
    let live = LiveMap::new(Vec::new(alloc));
    let kept = Names::new(alloc);
    let body = Body {
        alloc,
        parts: &parts,
        layouts: &layouts,
        routine: &routine,
        live: &live,
        kept: &kept,
        first: 0,
    };
    Ok(is_a_tested_number(alloc, &body, &sum)?)
}

#[test]
fn numbers_are_tested(rt: HostRuntime) -> Result<(), Fail> {
    assert!(rt; tested_with_a_body(rt.alloc())?);
    Ok(())
}

#[test]
fn keys_begin_with_the_height(rt: HostRuntime) -> Result<(), Fail> {
    let key = kept_key(rt.alloc(), 2, &Ty::Char)?;
    assert!(rt; key.as_slice() == [2, 0, 0, 0, 0, 0, 0, 0, 2].as_slice());
    Ok(())
}
