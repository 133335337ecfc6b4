// Numbers of functions.
ghost use Rattle.std.specs.Prelude.{◌≡◌, length, IfOk};

use rc_base::NoMemory;
use rc_code::Parts;

/// The number as a field has it. There is no memory for more.
pub(crate) fn number_of(at: usize) -> Result<u32, NoMemory>
    ensures { IfOk result (λ number. number ≡ at) }
{
    u32::try_from(at).map_err(|_| NoMemory)
}

/// How many functions there are.
pub(crate) fn functions_in(parts: &Parts) -> usize
    ensures { result ≡ length parts.now.functions }
{
    parts.functions.as_slice().len()
}
