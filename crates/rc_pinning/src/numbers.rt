// The numbers of locals among those that are regions or pointers.
ghost use Rattle.std.specs.Prelude.{◌≡◌, ◌<◌, ◌+◌, ◌-◌, ◌^◌, ◌++◌, ◌∷◌, [], length, OnOk, IfOk};
ghost use Rattle.rc_claims.specs.Counts.{one_if};
ghost use Rattle.rc_pinning.specs.Numbers.{AreNumbers};

use rc_base::NoMemory;
use rc_code::Storage;
use rc_image_counts::is_regional;
use std::alloc::Global;

/// One more, if so.
fn count_on(count: u32, so: bool) -> u32
    requires { count < 2 ^ 32 - 1 }
    ensures { result ≡ count + one_if so }
{
    if so { count + 1 } else { count }
}

fn put(out: &mut Vec<u32>, number: u32) -> Result<(), NoMemory>
    ensures { OnOk result (out.new.items ≡ out.old.items ++ number ∷ []) }
{
    out.push(number)?;
    Ok(())
}

/// For each local, how many before it are regions or pointers. So those that are have numbers from 0 on.
///
/// # Errors
///
/// Out of memory.
pub(crate) fn numbers_of(alloc: Global, locals: &[Storage]) -> Result<Vec<u32>, NoMemory>
    requires { length locals.now < 2 ^ 32 }
    ensures { IfOk result (λ numbers. AreNumbers locals.now numbers.items) }
{
    let mut numbers = Vec::new(alloc);
    let mut count = 0;
    for at in 0..locals.len() {
        let storage = locals[at];
        put(&mut numbers, count)?;
        let more = count_on(count, is_regional(storage));
        count = more;
    }
    Ok(numbers)
}
