// A sink over a writer.
ghost use Rattle.std.specs.Prelude.{◌≡◌, ◌≤◌, OnOk};
ghost use Rattle.rc_base.specs.Causes.{HasCause};
ghost use Rattle.rc_base.specs.Limits.{buffer_bytes};
ghost use Rattle.rc_adapters.specs.Adapters.{untold_sink};

use crate::write_front::write_front;
use rc_base::{BUFFER_BYTES, Failed, Sink};
use std::io::Write;

/// A sink over a writer, such as standard output. It doesn't tell its bytes.
///
/// A write that fails or takes nothing is a fault, and so is a flush of the writer that fails. The bytes
/// that weren't written stay, and are written first by the next call.
#[derive(Drop)]
pub struct StdSink<W: Write + Drop> {
    writer: W,
    buffer: [u8; BUFFER_BYTES],
    /// The first byte of the buffer that wasn't written.
    start: usize,
    end: usize,
    faults: u64,
    ghost within: { start ≤ end },
    ghost bound: { end ≤ buffer_bytes },
}

impl<W: Write + Drop> StdSink<W> {
    /// A sink that wrote nothing yet, with no fault counted.
    pub fn new(writer: W) -> StdSink<W>
        ensures { ⟦<StdSink<W> as Sink>⟧.state result ≡ untold_sink 0 }
    {
        StdSink {
            writer,
            buffer: [0; BUFFER_BYTES],
            start: 0,
            end: 0,
            faults: 0,
        }
    }
}

impl<W: Write + Drop> StdSink<W> {
    /// Writes what the buffer holds.
    fn empty(&mut self) -> Result<(), Failed>
        ensures cause { HasCause self.old.faults self.new.faults result }
        ensures empty { OnOk result (self.new.end ≡ 0) }
    {
        self.start = write_front(&mut self.writer, &self.buffer[..self.end], self.start);
        if self.start < self.end {
            self.faults = self.faults.saturating_add(1);
            return Err(Failed);
        }
        self.start = 0;
        self.end = 0;
        Ok(())
    }
}

impl<W: Write + Drop> Sink for StdSink<W> {
    ghost use Rattle.rc_adapters.specs.Adapters.{untold_sink};

    ghost state = { λ s. untold_sink s.faults };

    fn put(&mut self, byte: u8) -> Result<(), Failed> {
        if self.end == BUFFER_BYTES {
            self.empty()?;
        }
        self.buffer[self.end] = byte;
        self.end += 1;
        Ok(())
    }

    fn flush(&mut self) -> Result<(), Failed> {
        self.empty()?;
        if self.writer.flush().is_err() {
            self.faults = self.faults.saturating_add(1);
            return Err(Failed);
        }
        Ok(())
    }
}
