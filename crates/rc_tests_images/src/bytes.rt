// Images as bytes, in both versions.
use rc_image::{ImageFault, read, write, write_version};
use std::alloc::Global;

/// An image that writes `H` and leaves with 0, in version 1.
const FIRST: &[u8] =
    b"RCIM\x01\x00\x00\x00\x01\x00\x00\x00\x05\x00\x48\x29\x2e\x00\x00\x28\x01\x01\x01\x01\x01\x00";

/// The same image in version 2.
const SECOND: &[u8] =
    b"RCIM\x02\x00\x00\x00\x01\x00\x00\x00\x05\x00\x48\x29\x2e\x00\x00\x28\x01\x05\x01\x00\x00";

const REFUSED: [(&[u8], ImageFault); 21] = [
    (b"", ImageFault::Short),
    (b"RCI", ImageFault::Short),
    (b"RCIM", ImageFault::Short),
    (b"RCI\x00", ImageFault::Magic),
    (b"SCIM\x01", ImageFault::Magic),
    (b"RCIM\x09", ImageFault::Version),
    (b"RCIM\x00", ImageFault::Version),
    // The last byte is missing, or one follows.
    (
        b"RCIM\x01\x00\x00\x00\x01\x00\x00\x00\x05\x00\x48\x29\x2e\x00\x00\x28\x01\x01\x01\x01\x01",
        ImageFault::Short,
    ),
    (
        b"RCIM\x01\x00\x00\x00\x01\x00\x00\x00\x05\x00\x48\x29\x2e\x00\x00\x28\x01\x01\x01\x01\x01\x00\x00",
        ImageFault::Extra,
    ),
    // A padded number.
    (
        b"RCIM\x01\x00\x00\x00\x01\x00\x00\x00\x05\x00\xc8\x00\x29\x2e\x00\x00\x28\x01\x01\x01\x01\x01\x00",
        ImageFault::Field(14),
    ),
    // Two runs of line 1.
    (
        b"RCIM\x02\x00\x00\x00\x01\x00\x00\x00\x05\x00\x48\x29\x2e\x00\x00\x28\x02\x03\x01\x02\x01\x00\x00",
        ImageFault::Field(24),
    ),
    // A proof.
    (
        b"RCIM\x02\x00\x00\x00\x01\x00\x00\x00\x05\x00\x48\x29\x2e\x00\x00\x28\x01\x05\x01\x00\x01",
        ImageFault::Field(24),
    ),
    // One instruction is left without a line, and a run of one too many.
    (
        b"RCIM\x02\x00\x00\x00\x01\x00\x00\x00\x05\x00\x48\x29\x2e\x00\x00\x28\x01\x04\x01\x00\x00",
        ImageFault::Field(21),
    ),
    (
        b"RCIM\x02\x00\x00\x00\x01\x00\x00\x00\x05\x00\x48\x29\x2e\x00\x00\x28\x01\x06\x01\x00\x00",
        ImageFault::Field(21),
    ),
    // Numbers that don't end, end too late, and are too large.
    (b"RCIM\x01\xff\xff\xff\xff", ImageFault::Short),
    (b"RCIM\x01\xff\xff\xff\xff\x1f", ImageFault::Field(5)),
    (b"RCIM\x01\xff\xff\xff\xff\xff", ImageFault::Field(5)),
    // As many types as can be counted, in two bytes.
    (b"RCIM\x01\xff\xff\xff\xff\x0f\x01\x00", ImageFault::Short),
    // A type without cells, a cell of an unknown kind, and a pointer to no type.
    (b"RCIM\x01\x01\x00", ImageFault::Field(6)),
    (b"RCIM\x01\x01\x01\x08", ImageFault::Field(7)),
    (b"RCIM\x01\x01\x01\x04\x01", ImageFault::Field(8)),
];

/// Whether the bytes are no image, for this reason.
fn is_refused(alloc: Global, bytes: &[u8], fault: ImageFault) -> bool {
    match read(alloc, bytes) {
        Ok(_) => false,
        Err(found) => found == fault,
    }
}

fn are_refused(alloc: Global, rows: &[(&[u8], ImageFault)]) -> bool {
    for (bytes, fault) in rows {
        if !is_refused(alloc, bytes, *fault) {
            return false;
        }
    }
    true
}

/// Whether the bytes are an image that is written as `first` in version 1 and as `second` in version
/// 2.
fn is_written(alloc: Global, bytes: &[u8], first: &[u8], second: &[u8]) -> bool {
    let Ok(image) = read(alloc, bytes) else {
        return false;
    };
    let Ok(old) = write_version(alloc, &image, 1) else {
        return false;
    };
    let Ok(new) = write(alloc, &image) else {
        return false;
    };
    old.as_slice() == first && new.as_slice() == second
}

#[test]
fn images_are_written_as_they_are_read(rt: HostRuntime) {
    assert!(rt; is_written(rt.alloc(), FIRST, FIRST, SECOND));
    assert!(rt; is_written(rt.alloc(), SECOND, FIRST, SECOND));
}

#[test]
fn the_first_fault_is_answered(rt: HostRuntime) {
    assert!(rt; are_refused(rt.alloc(), &REFUSED));
}
