// Sums of numbers of points and temporaries.
ghost use Rattle.std.specs.Prelude.{◌≡◌, ◌+◌, IfOk};

use rc_base::NoMemory;

/// The sum.
///
/// # Errors
///
/// Out of memory, which is said where it is no `u32`.
pub fn add(a: u32, b: u32) -> Result<u32, NoMemory>
    ensures { IfOk result (λ n. n ≡ a + b) }
{
    a.checked_add(b).ok_or(NoMemory)
}
