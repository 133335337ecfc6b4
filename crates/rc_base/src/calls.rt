// Which calls of an object in memory fail.
ghost use Rattle.std.specs.Prelude.{◌≡◌, ◌↔◌, IsTrue, MatchBool};
ghost use Rattle.rc_base.specs.Memory.{IsListed, OneCall, OneFault, no_calls};

use std::marker::Model;

/// The calls of an object, counted from 0: those that are to fail, and how many were made and failed.
#[derive(Drop)]
pub(crate) struct CallCount {
    fails: Vec<u64>,
    made: u64,
    faults: u64,
}

impl Model for CallCount {
    ghost use Rattle.rc_base.specs.Memory.{Calls};

    ghost Value = { Calls };

    ghost view = { λ c. record { fails = c.fails.items; made = c.made; faults = c.faults } };
}

impl CallCount {
    pub(crate) fn new(fails: Vec<u64>) -> CallCount
        ensures { result ≡ no_calls fails.items }
    {
        CallCount {
            fails,
            made: 0,
            faults: 0,
        }
    }

    /// Makes a call, and says whether it is to fail, which is then a fault.
    pub(crate) fn fails_now(&mut self) -> bool
        ensures listed { IsTrue result ↔ IsListed self.old }
        ensures call { OneCall self.old self.new }
        ensures fault { MatchBool result (OneFault self.old self.new) (self.new.faults ≡ self.old.faults) }
    {
        let listed = self.fails.contains(&self.made);
        self.made = self.made.saturating_add(1);
        if listed {
            self.faults = self.faults.saturating_add(1);
        }
        listed
    }

    /// One more fault.
    pub(crate) fn fault(&mut self)
        ensures fault { OneFault self.old self.new }
        ensures same { self.new ≡ record self.old { faults = self.new.faults } }
    {
        self.faults = self.faults.saturating_add(1);
    }
}
