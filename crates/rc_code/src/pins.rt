// The locals that an instruction pins.
ghost use Rattle.std.specs.Prelude.{◌≡◌, IfOk};

use std::alloc::{AllocError, Global};
use std::marker::Model;

/// The numbers of the locals that a call or a deletion pins, which contracts see as a list. They lie behind
/// an address, so that an instruction, which seldom has any, takes no more room than that.
#[derive(Drop)]
pub struct Pins {
    locals: Box<Vec<u32>>,
}

impl Model for Pins {
    ghost use Rattle.std.specs.Prelude.{ℕ, List, box_value};

    ghost Value = { List ℕ };

    ghost view = { λ p. (box_value p.locals).items };
}

impl Pins {
    /// These locals.
    ///
    /// # Errors
    ///
    /// Where there is no memory.
    pub fn new(alloc: Global, locals: Vec<u32>) -> Result<Pins, AllocError>
        ensures { IfOk result (λ pins. pins ≡ locals.items) }
    {
        Ok(Pins {
            locals: Box::new(alloc, locals)?,
        })
    }

    /// Their numbers.
    pub fn as_slice(&self) -> &[u32]
        ensures { result.now ≡ self.now }
    {
        &self.locals
    }
}
