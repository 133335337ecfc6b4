// A sink that keeps nothing.
ghost use Rattle.std.specs.Prelude.{IsFalse, IsOk};
ghost use Rattle.rc_base.specs.Sinks.{Puts, Flushes};

use crate::{Failed, Sink};

/// A sink that drops every byte, never fails, and doesn't tell what it took.
#[derive(Clone, Copy, Debug, Default, PartialEq, Eq)]
pub struct Discard;

impl Discard {
    /// It takes no memory.
    pub fn new() -> Discard
        ensures tells_nothing { IsFalse (⟦<Discard as Sink>⟧.state result).tells }
    {
        Discard
    }
}

impl Sink for Discard {
    ghost use Rattle.std.specs.Prelude.{false, []};

    ghost state = { λ _. record { tells = false; taken = []; flushed = 0; faults = 0 } };

    fn put(&mut self, byte: u8) -> Result<(), Failed>
        ensures puts { Puts byte (⟦<Discard as Sink>⟧.state self.old) (⟦<Discard as Sink>⟧.state self.new) result }
        ensures never_fails { IsOk result }
    {
        let _ = byte;
        Ok(())
    }

    fn flush(&mut self) -> Result<(), Failed>
        ensures flushes { Flushes (⟦<Discard as Sink>⟧.state self.old) (⟦<Discard as Sink>⟧.state self.new) result }
        ensures never_fails { IsOk result }
    {
        Ok(())
    }
}
