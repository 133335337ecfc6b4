// A source over a reader.
ghost use Rattle.std.specs.Prelude.{◌≡◌, ◌≤◌, false};
ghost use Rattle.rc_base.specs.Limits.{buffer_bytes};
ghost use Rattle.rc_adapters.specs.Adapters.{untold_source};

use rc_base::{BUFFER_BYTES, Failed, Source};
use std::io::Read;

/// A source over a reader, such as standard input. It doesn't tell its bytes.
///
/// A read that fails is a fault. Once the reader ended, no more is read.
#[derive(Drop)]
pub struct StdSource<R: Read + Drop> {
    reader: R,
    buffer: [u8; BUFFER_BYTES],
    /// The first byte of the buffer that wasn't given.
    start: usize,
    end: usize,
    ended: bool,
    faults: u64,
    ghost within: { start ≤ end },
    ghost bound: { end ≤ buffer_bytes },
}

impl<R: Read + Drop> StdSource<R> {
    /// A source that read nothing yet, with no fault counted.
    pub fn new(reader: R) -> StdSource<R>
        ensures { ⟦<StdSource<R> as Source>⟧.state result ≡ untold_source false 0 }
    {
        StdSource {
            reader,
            buffer: [0; BUFFER_BYTES],
            start: 0,
            end: 0,
            ended: false,
            faults: 0,
        }
    }
}

impl<R: Read + Drop> Source for StdSource<R> {
    ghost use Rattle.rc_adapters.specs.Adapters.{untold_source};

    ghost state = { λ s. untold_source s.ended s.faults };

    fn next(&mut self) -> Result<Option<u8>, Failed> {
        if self.ended {
            return Ok(None);
        }
        if self.start == self.end {
            let Ok(count) = self.reader.read(&mut self.buffer) else {
                self.faults = self.faults.saturating_add(1);
                return Err(Failed);
            };
            self.start = 0;
            self.end = count;
            if count == 0 {
                self.ended = true;
                return Ok(None);
            }
        }
        let byte = self.buffer[self.start];
        self.start += 1;
        Ok(Some(byte))
    }
}
