// A source in memory.
ghost use Rattle.std.specs.Prelude.{◌≡◌, ◌↔◌, ◌≤◌, false, length, drop, IsErr};
ghost use Rattle.rc_base.specs.Memory.{IsListed, OneCall, no_calls, source_of};
ghost use Rattle.rc_base.specs.Sources.{Nexts};

use crate::calls::CallCount;
use crate::{Failed, Source};
use std::marker::Model;

/// A source of these bytes.
#[derive(Drop)]
pub struct Bytes {
    bytes: Vec<u8>,
    at: usize,
    ended: bool,
    calls: CallCount,
}

impl Model for Bytes {
    ghost use Rattle.std.specs.Prelude.{◌≡◌, ◌≤◌, true, drop, length};
    ghost use Rattle.rc_base.specs.Memory.{BytesState};

    ghost Value = { BytesState };

    ghost view = { λ b. record { rest = drop b.at b.bytes.items; ended = b.ended; calls = b.calls } };

    ghost invariant = { λ b. (b.at ≤ length b.bytes.items) × (b.ended ≡ true → b.at ≡ length b.bytes.items) };
}

impl Bytes {
    /// A source of these bytes. The calls of `next` whose numbers are listed fail.
    pub fn new(bytes: Vec<u8>, fails: Vec<u64>) -> Bytes
        ensures { result ≡ record { rest = bytes.items; ended = false; calls = no_calls fails.items } }
    {
        Bytes {
            bytes,
            at: 0,
            ended: false,
            calls: CallCount::new(fails),
        }
    }
}

impl Source for Bytes {
    ghost use Rattle.rc_base.specs.Memory.{source_of};

    ghost state = { source_of };

    fn next(&mut self) -> Result<Option<u8>, Failed>
        ensures nexts { Nexts (source_of self.old) (source_of self.new) result }
        ensures listed { IsErr result ↔ IsListed self.old.calls }
        ensures call { OneCall self.old.calls self.new.calls }
    {
        if self.calls.fails_now() {
            return Err(Failed);
        }
        if self.at == self.bytes.len() {
            self.ended = true;
            return Ok(None);
        }
        let byte = self.bytes[self.at];
        self.at += 1;
        Ok(Some(byte))
    }
}
