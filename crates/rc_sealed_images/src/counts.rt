// How many variables claims speak of.
ghost use Rattle.std.specs.Prelude.{◌≡◌, ◌<◌, ◌≤◌, ◌+◌, length, map};
ghost use Rattle.rc_code.specs.Soundness.{is_regional};
ghost use Rattle.rc_claims.specs.Counts.{trues, one_if, regional_result, copies, exit_count, frame_count};
ghost use Rattle.rc_sealed_images.specs.Counted.{IsCounted};

use rc_code::{Function, Storage};

/// Whether it is a region or a pointer.
fn is_regional(storage: Storage) -> bool
    ensures { result ≡ is_regional storage }
{
    match storage {
        Storage::Number(_) => false,
        Storage::Region | Storage::Pointer(_) => true,
    }
}

/// Whether the result is one.
fn regional_result(storage: Option<Storage>) -> bool
    ensures { result ≡ regional_result storage }
{
    match storage {
        None => false,
        Some(held) => is_regional(held),
    }
}

/// One more, if so.
fn count_on(count: u64, so: bool) -> u64
    requires { count < 18446744073709551615 }
    ensures { result ≡ count + one_if so }
{
    if so { count + 1 } else { count }
}

/// How many of the first `end` locals are regions or pointers.
fn regionals_before(locals: &[Storage], end: usize) -> u64
    requires { end ≤ length locals.now }
    ensures count { result ≡ trues (map is_regional locals.now) end }
    ensures few { result ≤ end }
{
    let mut count = 0;
    for at in 0..end {
        let storage = locals[at];
        count = count_on(count, is_regional(storage));
    }
    count
}

/// How many hidden copies a function has.
pub(crate) fn copies(function: &Function) -> u64
    ensures count { result ≡ copies function.now }
    ensures few { result < 4294967296 }
{
    let locals = function.locals.as_slice();
    regionals_before(locals, locals.len().min(function.parameters as usize))
}

/// How many variables its exit speaks of.
pub(crate) fn exit_count(function: &Function) -> u64
    ensures count { result ≡ exit_count function.now }
    ensures few { result ≤ 4294967296 }
{
    count_on(copies(function), regional_result(function.result))
}

/// How many variables its frames speak of.
pub(crate) fn frame_count(function: &Function) -> u64
    requires { IsCounted function.now }
    ensures count { result ≡ frame_count function.now }
    ensures few { result ≤ 8589934592 }
{
    let locals = function.locals.as_slice();
    copies(function) + regionals_before(locals, locals.len())
}
