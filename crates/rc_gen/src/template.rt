// The numbers that stand for the holes of a template.
ghost use Rattle.std.specs.Prelude.{◌≡◌};

/// What stands for the holes of a template: `@I`, `@A` and `@W`, in this order.
#[derive(Clone, Copy)]
pub(crate) struct Numbers {
    pub(crate) index: u64,
    pub(crate) amount: u64,
    pub(crate) weight: u64,
}

impl Numbers {
    ghost use Rattle.rc_gen.specs.Program.{numbers_of};
    ghost use Rattle.rc_gen.specs.Template.{number_at};

    /// Those of one function of the program made from `n`.
    pub(crate) fn of(n: u64, index: u32) -> Numbers
        ensures { result ≡ numbers_of n index }
    {
        let index = u64::from(index);
        Numbers {
            index,
            amount: (n % 64 + index) % 64,
            weight: 1 + n % 7,
        }
    }

    /// The number that stands for `@` and this letter.
    pub(crate) fn at(&self, letter: u8) -> u64
        ensures { result ≡ number_at self.now letter }
    {
        match letter {
            b'I' => self.index,
            b'A' => self.amount,
            _ => self.weight,
        }
    }
}
