// Small images, of which some instruction doesn't pin what is used after it, or each does.
ghost use Rattle.std.specs.Prelude.{◌≡◌};
ghost use Rattle.rc_code.specs.Image.{FieldsFit};
ghost use Rattle.rc_code.specs.Soundness.{Sound};
ghost use Rattle.rc_sealed.specs.Faults.{NoneIsWide};

use rc_code::{Loaded, Parts};
use rc_deleters::deleters_of;
use rc_image::read;
use rc_image_shapes::first_wide;
use rc_loader::load;
use rc_pinning::{first_unpinned, used_in};
use std::alloc::Global;
use std::test::Fail;

/// Its third instruction, from 0 on, deletes a region and pins nothing. Behind it the local that named the
/// region is got.
const DANGLING: &[u8] =
    b"RCIM\x01\x00\x00\x00\x01\x00\x01\x03\x00\x08\x21\x06\x00\x05\x00\x26\x00\x05\x00\x2e\x00\x00\x28\x01\x01\x01\x01\x01\x01\x01\x01\x00";

/// The same, where it pins that local.
const PINNED: &[u8] =
    b"RCIM\x01\x00\x00\x00\x01\x00\x01\x03\x00\x08\x21\x06\x00\x05\x00\x26\x01\x00\x05\x00\x2e\x00\x00\x28\x01\x01\x01\x01\x01\x01\x01\x01\x00";

/// Its second instruction calls a function that deletes a region, and pins nothing. Behind it a local that
/// names another region is got.
const CALLING: &[u8] =
    b"RCIM\x01\x00\x00\x00\x02\x00\x01\x03\x00\x07\x21\x06\x00\x27\x01\x00\x05\x00\x2e\x00\x00\x28\x01\x01\x01\x01\x01\x01\x01\x00\x00\x05\x03\x21\x26\x00\x28\x01\x01\x01\x00";

/// The image of these bytes, if it may be run.
fn loaded(alloc: Global, bytes: &[u8]) -> Option<Loaded> {
    match read(alloc, bytes) {
        Err(_) => None,
        Ok(image) => match load(alloc, image) {
            Err(_) => None,
            Ok(loaded) => Some(loaded),
        },
    }
}

/// Whether this is told of the first function of an image without wide ones.
fn is_told(alloc: Global, parts: &Parts, wanted: Option<u32>) -> bool
    requires fields { FieldsFit parts.now }
    requires sound { Sound parts.now }
    requires narrow { NoneIsWide parts.now }
{
    match deleters_of(alloc, parts) {
        Err(_) => false,
        Ok(deleters) => match first_unpinned(alloc, parts, 0, &deleters) {
            Err(_) => false,
            Ok(found) => found == wanted,
        },
    }
}

/// Whether this is told of the first function of an image.
fn is_told_of(alloc: Global, image: &Loaded, wanted: Option<u32>) -> bool {
    let parts = image.image().parts();
    match first_wide(parts) {
        Some(_) => false,
        None => is_told(alloc, parts, wanted),
    }
}

/// Whether this is told of the first function of the image of these bytes.
fn tells(alloc: Global, bytes: &[u8], wanted: Option<u32>) -> bool {
    match loaded(alloc, bytes) {
        None => false,
        Some(image) => is_told_of(alloc, &image, wanted),
    }
}

#[test]
fn instructions_that_pin_too_little_are_found(rt: HostRuntime) -> Result<(), Fail> {
    assert!(rt; tells(rt.alloc(), DANGLING, Some(3)));
    assert!(rt; tells(rt.alloc(), PINNED, None));
    assert!(rt; tells(rt.alloc(), CALLING, Some(2)));
    Ok(())
}

/// Whether the first function may delete.
fn may_delete(alloc: Global, image: &Loaded) -> bool {
    let parts = image.image().parts();
    match deleters_of(alloc, parts) {
        Err(_) => false,
        Ok(deleters) => deleters.may_delete(0),
    }
}

/// Whether the first function of the image of these bytes may delete.
fn deletes(alloc: Global, bytes: &[u8]) -> bool {
    match loaded(alloc, bytes) {
        None => false,
        Some(image) => may_delete(alloc, &image),
    }
}

#[test]
fn a_function_may_delete_by_a_call(rt: HostRuntime) -> Result<(), Fail> {
    assert!(rt; deletes(rt.alloc(), CALLING));
    Ok(())
}

/// Whether the local 0 of the first function is used from an instruction on.
fn is_used(alloc: Global, parts: &Parts, at: usize) -> bool
    requires fields { FieldsFit parts.now }
    requires sound { Sound parts.now }
    requires narrow { NoneIsWide parts.now }
{
    match used_in(alloc, parts, 0) {
        Err(_) => false,
        Ok(rows) => match rows.get(at) {
            None => false,
            Some(row) => row.contains(0),
        },
    }
}

fn is_used_of(alloc: Global, image: &Loaded, at: usize) -> bool {
    let parts = image.image().parts();
    match first_wide(parts) {
        Some(_) => false,
        None => is_used(alloc, parts, at),
    }
}

fn uses(alloc: Global, bytes: &[u8], at: usize) -> bool {
    match loaded(alloc, bytes) {
        None => false,
        Some(image) => is_used_of(alloc, &image, at),
    }
}

#[test]
fn a_get_uses_and_a_set_ends_a_use(rt: HostRuntime) -> Result<(), Fail> {
    assert!(rt; uses(rt.alloc(), DANGLING, 4));
    assert!(rt; uses(rt.alloc(), DANGLING, 2));
    assert!(rt; !uses(rt.alloc(), DANGLING, 1));
    assert!(rt; !uses(rt.alloc(), DANGLING, 5));
    Ok(())
}
