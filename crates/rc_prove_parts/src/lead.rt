// The number of a set, or none, in the room of a number.
ghost use Rattle.std.specs.Prelude.{◌≡◌, IfOk};

use rc_base::NoMemory;
use std::marker::Model;

/// The number of a set, if there is one, in the room of a number: there are as many of these as
/// instructions. It is one more than the number of the set, and 0 where there is none.
#[derive(Drop)]
pub struct Lead {
    number: u32,
}

impl Model for Lead {
    ghost use Rattle.std.specs.Prelude.{ℕ, Option};
    ghost use Rattle.rc_prove_parts.specs.Leads.{named};

    ghost Value = { Option ℕ };

    ghost view = { λ lead. named lead.number };
}

impl Lead {
    /// That number, or none.
    ///
    /// # Errors
    ///
    /// Out of memory: there is none for as many sets as numbers.
    pub fn new(set: Option<u32>) -> Result<Lead, NoMemory>
        ensures { IfOk result (λ lead. lead ≡ set) }
    {
        match set {
            None => Ok(Lead { number: 0 }),
            Some(number) => Ok(Lead {
                number: number.checked_add(1).ok_or(NoMemory)?,
            }),
        }
    }

    /// The number of the set, if there is one.
    pub fn set(&self) -> Option<u32>
        ensures { result ≡ self.now }
    {
        self.number.checked_sub(1)
    }
}
