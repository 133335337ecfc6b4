// Locals that are regions or pointers.
ghost use Rattle.std.specs.Prelude.{◌≡◌, ◌≤◌, ◌+◌, ◌^◌, ◌<◌, length, map};
ghost use Rattle.rc_code.specs.Soundness.{is_regional};
ghost use Rattle.rc_claims.specs.Counts.{one_if, trues};

use rc_code::Storage;

/// Whether it is a region or a pointer.
pub fn is_regional(storage: Storage) -> bool
    ensures { result ≡ is_regional storage }
{
    match storage {
        Storage::Number(_) => false,
        Storage::Region | Storage::Pointer(_) => true,
    }
}

/// One more, if so.
fn count_on(count: usize, so: bool) -> usize
    requires { count < 2 ^ 63 }
    ensures { result ≡ count + one_if so }
{
    if so { count + 1 } else { count }
}

/// How many of them are regions or pointers.
pub fn count_regional(locals: &[Storage]) -> usize
    requires { length locals.now < 2 ^ 32 }
    ensures count { result ≡ trues (map is_regional locals.now) (length locals.now) }
    ensures most { result ≤ length locals.now }
{
    let mut count = 0;
    for at in 0..locals.len() {
        let storage = locals[at];
        let more = count_on(count, is_regional(storage));
        count = more;
    }
    count
}
