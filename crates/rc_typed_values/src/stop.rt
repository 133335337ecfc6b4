// Why a rule gives no answer.
ghost use Rattle.std.specs.Prelude.{◌≡◌, ◌++◌, ◌∷◌, [], IfOk, IfErr, OnOk, true, false};

use rc_base::NoMemory;
use rc_deletes::{Fault, Refusal};
use rc_syntax::tree::Spot;
use std::alloc::{AllocError, AllocFailed, Global};

/// What ends a walk: a rule that fails at a node, or that it is out of memory.
#[derive(Clone, Copy, Debug, PartialEq, Eq)]
pub enum Stop {
    Rule(Fault),
    Memory,
}

impl From<AllocError> for Stop {
    ghost use Rattle.rc_typed_values.specs.declared.stop.Stop.TheVariants.{Memory};

    ghost from_gives = { λ _ stop. stop ≡ Memory };

    fn from(_error: AllocError) -> Stop {
        Stop::Memory
    }
}

impl<T: Drop> From<AllocFailed<T>> for Stop {
    ghost use Rattle.rc_typed_values.specs.declared.stop.Stop.TheVariants.{Memory};

    ghost from_gives = { λ _ stop. stop ≡ Memory };

    fn from(_error: AllocFailed<T>) -> Stop {
        Stop::Memory
    }
}

impl From<NoMemory> for Stop {
    ghost use Rattle.rc_typed_values.specs.declared.stop.Stop.TheVariants.{Memory};

    ghost from_gives = { λ _ stop. stop ≡ Memory };

    fn from(_error: NoMemory) -> Stop {
        Stop::Memory
    }
}

/// A rule fails at a node.
pub fn fails<T>(at: Spot, refusal: Refusal) -> Result<T, Stop>
    ensures { result ≡ Err (Stop.Rule (record { at = at; refusal = refusal })) }
{
    Err(Stop::Rule(Fault { at, refusal }))
}

/// Nothing, where a rule is kept.
///
/// # Errors
///
/// The rule fails at the node.
pub fn refuse_where(is_broken: bool, at: Spot, refusal: Refusal) -> Result<(), Stop>
    ensures ok { OnOk result (is_broken ≡ false) }
    ensures broken { IfErr result (λ s. is_broken ≡ true) }
    ensures err { IfErr result (λ s. s ≡ Stop.Rule (record { at = at; refusal = refusal })) }
{
    if is_broken {
        return fails(at, refusal);
    }
    Ok(())
}

/// A value in memory of its own.
///
/// # Errors
///
/// Out of memory.
pub fn boxed<T: Drop>(alloc: Global, value: T) -> Result<Box<T>, Stop>
    ensures ok { IfOk result (λ b. b.value ≡ value) }
    ensures err { IfErr result (λ s. s ≡ Stop.Memory) }
{
    Ok(Box::new(alloc, value)?)
}

/// Puts an item after those before it.
///
/// # Errors
///
/// Out of memory.
pub fn add<T: Drop>(items: &mut Vec<T>, item: T) -> Result<(), Stop>
    ensures ok { OnOk result (items.new.items ≡ items.old.items ++ item ∷ []) }
    ensures err { IfErr result (λ s. s ≡ Stop.Memory) }
{
    Ok(items.push(item)?)
}
