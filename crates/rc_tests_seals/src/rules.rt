// The rules of code, asked of an image that is kept.
use rc_image::read;
use rc_loader::{LoadFault, Rule, Violation, sound};
use std::alloc::Global;

/// An image that leaves with 0, and the same with a jump to itself.
const SOUND: &[u8] = b"RCIM\x02\x00\x00\x00\x01\x00\x00\x00\x02\x00\x00\x28\x01\x02\x01\x00\x00";

const LOOPING: &[u8] =
    b"RCIM\x02\x00\x00\x00\x01\x00\x00\x00\x03\x2b\x00\x00\x00\x28\x01\x03\x01\x00\x00";

/// Whether the bytes are of an image of which this is said.
fn is_said(alloc: Global, bytes: &[u8], wanted: Result<(), LoadFault>) -> bool {
    match read(alloc, bytes) {
        Ok(image) => sound(alloc, &image) == wanted,
        Err(_) => false,
    }
}

#[test]
fn the_first_broken_rule_is_told(rt: HostRuntime) {
    let broken = Violation {
        rule: Rule::Target,
        function: 0,
        instruction: 0,
    };
    assert!(rt; is_said(rt.alloc(), SOUND, Ok(())));
    assert!(rt; is_said(rt.alloc(), LOOPING, Err(LoadFault::Broken(broken))));
}
