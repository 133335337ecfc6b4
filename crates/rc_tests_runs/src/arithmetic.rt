// Arithmetic at the edges of its types.
use rc_base::Trap;
use rc_core::calculate;
use rc_core::operators::Operator;
use rc_core::ty::Signedness;

/// A signed result that doesn't fit is a trap; an unsigned one wraps.
const ROWS: &[(Operator, Signedness, i64, i64, Result<i64, Trap>)] = &[
    (
        Operator::Add,
        Signedness::Signed,
        2_147_483_647,
        1,
        Err(Trap::Overflow),
    ),
    (
        Operator::Subtract,
        Signedness::Signed,
        -2_147_483_648,
        1,
        Err(Trap::Overflow),
    ),
    (
        Operator::Divide,
        Signedness::Signed,
        -2_147_483_648,
        -1,
        Err(Trap::Overflow),
    ),
    (
        Operator::Remainder,
        Signedness::Signed,
        -2_147_483_648,
        -1,
        Err(Trap::Overflow),
    ),
    (Operator::Divide, Signedness::Signed, 1, 0, Err(Trap::Zero)),
    (
        Operator::ShiftLeft,
        Signedness::Signed,
        1,
        32,
        Err(Trap::Shift),
    ),
    (Operator::Divide, Signedness::Signed, -7, 2, Ok(-3)),
    (Operator::ShiftRight, Signedness::Signed, -7, 1, Ok(-4)),
    (Operator::Add, Signedness::Unsigned, 4_294_967_295, 1, Ok(0)),
    (
        Operator::Subtract,
        Signedness::Unsigned,
        0,
        1,
        Ok(4_294_967_295),
    ),
];

#[test]
fn results_trap_or_wrap(rt: HostRuntime) {
    for (operator, signedness, left, right, want) in ROWS {
        assert!(rt; calculate(*operator, *signedness, *left, *right) == *want);
    }
}
