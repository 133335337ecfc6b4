// Images with calls and steps back, whose proofs claim facts at entries, at exits and in frames.

use crate::verified::tells;
use rc_sealed::ProofFault;
use std::alloc::Global;

/// The proofs of an image as bytes, and what is told of it with these.
type Row = (&'static [u8], Option<ProofFault>);

/// `main` makes two objects in one region and calls the second function, which stores a pointer to the
/// second in the first without a check.
const LINKING: &[u8] =
    b"RCIM\x02\x01\x01\x05\x00\x00\x01\x00\x00\x00\x00\x02\x00\x03\x03\x04\x00\x04\x00\x00\x0d\x21\x06\x00\x05\x00\x24\x00\x06\x01\x05\x00\x24\x00\x06\x02\x05\x01\x05\x02\x27\x01\x00\x00\x00\x28\x01\x0d\x01\x02\x02\x04\x00\x04\x00\x05\x04\x05\x00\x05\x01\x20\x00\x01\x28\x01\x04\x01\x00";

const OF_LINKING: [Row; 5] = [
    // At the entry the second parameter is in the region of the first.
    (b"\x01\x00\x04\x00\x00\x00\x00", None),
    // And at the exit the first is not null, since it was stored through it.
    (b"\x01\x00\x04\x00\x00\x04\x00", None),
    // Nothing is claimed: the store isn't proved.
    (
        b"\x01\x00\x00\x00\x00\x00\x00",
        Some(ProofFault::Facts(1, 2)),
    ),
    // At the exit the first is in the region of the second.
    (
        b"\x01\x00\x04\x00\x02\x00\x00",
        Some(ProofFault::Facts(1, 3)),
    ),
    // At the entry the second is traditional, too: the call isn't proved.
    (
        b"\x01\x00\x04\x02\x00\x00\x00",
        Some(ProofFault::Facts(0, 10)),
    ),
];

/// The same with objects of two regions.
const APART: &[u8] =
    b"RCIM\x02\x01\x01\x05\x00\x00\x01\x00\x00\x00\x00\x02\x00\x02\x04\x00\x04\x00\x00\x0b\x21\x24\x00\x06\x00\x21\x24\x00\x06\x01\x05\x00\x05\x01\x27\x01\x00\x00\x00\x28\x01\x0b\x01\x02\x02\x04\x00\x04\x00\x05\x04\x05\x00\x05\x01\x20\x00\x01\x28\x01\x04\x01\x00";

const OF_APART: [Row; 2] = [
    (
        b"\x01\x00\x04\x00\x00\x00\x00",
        Some(ProofFault::Facts(0, 8)),
    ),
    // At the entry the second parameter is not null, which doesn't prove the store.
    (
        b"\x01\x00\x00\x08\x00\x00\x00",
        Some(ProofFault::Facts(1, 2)),
    ),
];

/// `main` calls the second function twice, which makes an object in a region, and stores a pointer to the
/// one in the other without a check.
const FRESH: &[u8] =
    b"RCIM\x02\x01\x01\x05\x00\x00\x01\x00\x00\x00\x00\x02\x00\x03\x03\x04\x00\x04\x00\x00\x0d\x21\x06\x00\x05\x00\x27\x01\x00\x06\x01\x05\x00\x27\x01\x00\x06\x02\x05\x01\x05\x02\x20\x00\x01\x00\x00\x28\x01\x0d\x01\x01\x01\x03\x04\x00\x03\x05\x00\x24\x00\x28\x01\x03\x01\x00";

const OF_FRESH: [Row; 3] = [
    // At the exit the result is in the region of the parameter, and is not null.
    (b"\x01\x00\x00\x04\x08\x00", None),
    // It may be null.
    (b"\x01\x00\x00\x04\x00\x00", Some(ProofFault::Facts(0, 10))),
    // It is traditional, which the return doesn't give.
    (b"\x01\x00\x00\x04\x0a\x00", Some(ProofFault::Facts(1, 2))),
];

/// It makes objects in one region until the input ends, and stores in each a pointer to the one before,
/// without a check. It steps back to its fifth instruction, 4.
const LOOPING: &[u8] =
    b"RCIM\x02\x01\x01\x05\x00\x00\x01\x00\x00\x00\x00\x01\x00\x03\x03\x04\x00\x04\x00\x00\x11\x21\x06\x00\x03\x00\x06\x01\x2a\x2c\x0f\x05\x00\x24\x00\x06\x02\x05\x02\x05\x01\x20\x00\x01\x05\x02\x06\x01\x2d\x04\x00\x00\x28\x01\x11\x01\x00";

const OF_LOOPING: [Row; 5] = [
    // Before the fifth instruction the object before is in the region.
    (b"\x01\x01\x04\x08\x00\x00", None),
    // And so it is where the loop is left.
    (b"\x01\x02\x04\x08\x00\x00\x0f\x08\x00\x00", None),
    // Nothing is claimed: the store isn't proved.
    (b"\x01\x00", Some(ProofFault::Facts(0, 11))),
    // The new object is in the region before the first step, which isn't given.
    (b"\x01\x01\x04\x48\x00\x00", Some(ProofFault::Facts(0, 3))),
    // Where the loop is left the object before is not null, which isn't given.
    (
        b"\x01\x02\x04\x08\x00\x00\x0f\x00\x00\x40",
        Some(ProofFault::Facts(0, 5)),
    ),
];

/// The same, but the region is another one in each step.
const FORGETTING: &[u8] =
    b"RCIM\x02\x01\x01\x05\x00\x00\x01\x00\x00\x00\x00\x01\x00\x03\x03\x04\x00\x04\x00\x00\x13\x21\x06\x00\x03\x00\x06\x01\x2a\x2c\x11\x05\x00\x24\x00\x06\x02\x05\x02\x05\x01\x20\x00\x01\x05\x02\x06\x01\x21\x06\x00\x2d\x04\x00\x00\x28\x01\x13\x01\x00";

const OF_FORGETTING: [Row; 1] = [
    // What holds before the first step isn't given by the step back.
    (b"\x01\x01\x04\x08\x00\x00", Some(ProofFault::Facts(0, 16))),
];

/// It steps back to its first instruction until the input ends, and has a region.
const AT_ONCE: &[u8] =
    b"RCIM\x02\x00\x00\x00\x01\x00\x01\x03\x00\x05\x2a\x2c\x03\x2d\x00\x00\x00\x28\x01\x05\x01\x00";

const OF_AT_ONCE: [Row; 2] = [
    // The region is in itself.
    (b"\x01\x01\x00\x01", None),
    // It is not null, which the entry doesn't give.
    (b"\x01\x01\x00\x08", Some(ProofFault::Facts(0, 0))),
];

/// `main` calls a function that deletes the region which it is handed, pins nothing, and gets a local that
/// names another one.
const DELETING: &[u8] =
    b"RCIM\x02\x00\x00\x00\x02\x00\x02\x03\x03\x00\x0a\x21\x06\x00\x21\x06\x01\x05\x01\x27\x01\x00\x05\x00\x2e\x00\x00\x28\x01\x0a\x01\x01\x01\x03\x05\x03\x05\x00\x26\x00\x28\x01\x03\x01\x00";

const OF_DELETING: [Row; 2] = [
    (b"\x01\x00\x00\x00\x00", Some(ProofFault::Pins(0, 5))),
    // Of one call the facts are told before the pins.
    (b"\x01\x00\x04\x00\x00", Some(ProofFault::Facts(0, 5))),
];

/// The same, where it pins that local.
const PINNING: &[u8] =
    b"RCIM\x02\x00\x00\x00\x02\x00\x02\x03\x03\x00\x0a\x21\x06\x00\x21\x06\x01\x05\x01\x27\x01\x01\x00\x05\x00\x2e\x00\x00\x28\x01\x0a\x01\x01\x01\x03\x05\x03\x05\x00\x26\x00\x28\x01\x03\x01\x00";

const OF_PINNING: [Row; 2] = [
    // At the entry the region is not null.
    (b"\x01\x00\x08\x00\x00", None),
    (b"\x01\x00\x04\x00\x00", Some(ProofFault::Facts(0, 5))),
];

/// Whether this is told of an image with the proofs of each row.
fn all_are_told(alloc: Global, image: &[u8], rows: &[Row]) -> bool {
    for (proofs, wanted) in rows {
        let Ok(mut whole) = Vec::from_slice(alloc, image) else {
            return false;
        };
        if whole.extend_from_slice(proofs).is_err() {
            return false;
        }
        if !tells(alloc, &whole, *wanted) {
            return false;
        }
    }
    true
}

#[test]
fn calls_give_what_entries_and_exits_claim(rt: HostRuntime) {
    assert!(rt; all_are_told(rt.alloc(), LINKING, &OF_LINKING));
    assert!(rt; all_are_told(rt.alloc(), APART, &OF_APART));
    assert!(rt; all_are_told(rt.alloc(), FRESH, &OF_FRESH));
}

#[test]
fn steps_give_what_frames_claim(rt: HostRuntime) {
    assert!(rt; all_are_told(rt.alloc(), LOOPING, &OF_LOOPING));
    assert!(rt; all_are_told(rt.alloc(), FORGETTING, &OF_FORGETTING));
    assert!(rt; all_are_told(rt.alloc(), AT_ONCE, &OF_AT_ONCE));
}

#[test]
fn calls_of_a_function_that_deletes_pin(rt: HostRuntime) {
    assert!(rt; all_are_told(rt.alloc(), DELETING, &OF_DELETING));
    assert!(rt; all_are_told(rt.alloc(), PINNING, &OF_PINNING));
}
