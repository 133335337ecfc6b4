use rc_decode::{Op, Other, decode};
use rc_image::read;
use std::alloc::Global;
use std::test::Fail;

/// `main` writes `H`, calls a second function, and leaves with 0. That one sets a `char` to 5, looks at
/// a region, and does so for ever.
const BYTES: &[u8] =
    b"RCIM\x01\x00\x00\x00\x02\x00\x00\x00\x06\x00\x48\x29\x2e\x27\x01\x00\x00\x00\x28\x01\x01\x01\x01\x01\x01\x00\x02\x02\x03\x05\x05\x00\x05\x06\x00\x05\x01\x2e\x2d\x00\x02\x02\x02\x02\x02\x00";

const OPS: [Op; 11] = [
    Op::Int(72),
    Op::Other(Other::PutChar, 0),
    Op::Other(Other::Pop, 0),
    Op::Call(false, 1),
    Op::Int(0),
    Op::Return(true),
    Op::Int(5),
    Op::Other(Other::SetChar, 0),
    Op::GetPointer(1),
    Op::Other(Other::Pop, 0),
    Op::Back(6),
];

fn short_forms_are(alloc: Global, bytes: &[u8], ops: &[Op]) -> Result<bool, Fail> {
    let Ok(image) = read(alloc, bytes) else {
        return Ok(false);
    };
    let decoded = decode(alloc, &image)?;
    let [first, second] = decoded.bodies.as_slice() else {
        return Ok(false);
    };
    let bodies = first.start == 0
        && first.room == 1
        && second.start == 6
        && second.room == 3
        && second.locals.len() == 2
        && second.locals[1].is_null()
        && !first.has_pins
        && !second.has_chars;
    Ok(bodies && decoded.ops.as_slice() == ops)
}

#[test]
fn short_forms_stand_one_function_behind_the_other(rt: HostRuntime) -> Result<(), Fail> {
    assert!(rt; short_forms_are(rt.alloc(), BYTES, &OPS)?);
    Ok(())
}
