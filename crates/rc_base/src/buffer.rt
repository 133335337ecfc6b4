// A sink in memory.
ghost use Rattle.std.specs.Prelude.{◌≡◌, ◌↔◌, ◌≤◌, ◌⊎◌, [], IfOk, IsErr, OnErr};
ghost use Rattle.rc_base.specs.Memory.{IsListed, IsFull, OneCall, no_calls, sink_of};
ghost use Rattle.rc_base.specs.Sinks.{Puts, Flushes};

use crate::calls::CallCount;
use crate::{Failed, NoMemory, Sink};
use std::alloc::Global;
use std::marker::Model;

/// A sink that keeps what it took, with room for so many bytes.
#[derive(Drop)]
pub struct Buffer {
    bytes: Vec<u8>,
    flushed: usize,
    room: u32,
    calls: CallCount,
}

impl Model for Buffer {
    ghost use Rattle.std.specs.Prelude.{◌≤◌, vec_capacity};
    ghost use Rattle.rc_base.specs.Memory.{BufferState};

    ghost Value = { BufferState };

    ghost view = { λ b. record { taken = b.bytes.items; flushed = b.flushed; room = b.room; calls = b.calls } };

    ghost invariant = { λ b. b.room ≤ vec_capacity b.bytes };
}

impl Buffer {
    /// An empty sink with its room reserved. The calls of `put` and `flush`, numbered together, whose
    /// numbers are listed fail, and so does each put into a full one.
    pub fn new(alloc: Global, room: u32, fails: Vec<u64>) -> Result<Buffer, NoMemory>
        ensures { IfOk result (λ b. b ≡ record { taken = []; flushed = 0; room = room; calls = no_calls fails.items }) }
    {
        Ok(Buffer {
            bytes: Vec::with_capacity(alloc, room as usize)?,
            flushed: 0,
            room,
            calls: CallCount::new(fails),
        })
    }

    /// The bytes that it took, in their order.
    pub fn taken(&self) -> &[u8]
        ensures { result.now ≡ self.now.taken }
    {
        &self.bytes
    }
}

impl Sink for Buffer {
    ghost use Rattle.rc_base.specs.Memory.{sink_of};

    ghost state = { sink_of };

    fn put(&mut self, byte: u8) -> Result<(), Failed>
        ensures puts { Puts byte (sink_of self.old) (sink_of self.new) result }
        ensures fails { IsErr result ↔ (IsListed self.old.calls ⊎ IsFull self.old) }
        ensures call { OneCall self.old.calls self.new.calls }
        ensures room { self.new.room ≡ self.old.room }
    {
        if self.calls.fails_now() {
            return Err(Failed);
        }
        if self.bytes.len() >= self.room as usize {
            self.calls.fault();
            return Err(Failed);
        }
        self.bytes.push(byte).unwrap();
        Ok(())
    }

    fn flush(&mut self) -> Result<(), Failed>
        ensures flushes { Flushes (sink_of self.old) (sink_of self.new) result }
        ensures kept { OnErr result (self.new.flushed ≡ self.old.flushed) }
        ensures listed { IsErr result ↔ IsListed self.old.calls }
        ensures call { OneCall self.old.calls self.new.calls }
        ensures room { self.new.room ≡ self.old.room }
    {
        if self.calls.fails_now() {
            return Err(Failed);
        }
        self.flushed = self.bytes.len();
        Ok(())
    }
}
