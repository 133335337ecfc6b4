// The objects over the real outside.
use rc_adapters::{Folder, StdSink, StdSource};
use rc_base::{Failed, Shelf, ShelfFault, Sink, Source};
use std::alloc::Global;
use std::io::{self, ErrorKind, Write};
use std::test::Fail;

#[test]
fn a_source_reads_a_reader(rt: HostRuntime) {
    let mut source = StdSource::new(b"ab".as_slice());
    let holds = source.next() == Ok(Some(b'a'))
        && source.next() == Ok(Some(b'b'))
        && source.next() == Ok(None)
        && source.next() == Ok(None);
    assert!(rt; holds);
}

/// The bytes of a reader that fills the buffer more than twice come one after the other.
fn all_is_read(alloc: Global) -> Result<bool, Fail> {
    let mut bytes = Vec::new(alloc);
    for number in 0..10_000u32 {
        bytes.push((number % 251) as u8)?;
    }
    let mut source = StdSource::new(bytes.as_slice());
    for byte in bytes.iter() {
        if source.next() != Ok(Some(*byte)) {
            return Ok(false);
        }
    }
    Ok(source.next() == Ok(None))
}

#[test]
fn a_source_loses_nothing(rt: HostRuntime) -> Result<(), Fail> {
    assert!(rt; all_is_read(rt.alloc())?);
    Ok(())
}

/// Puts so many bytes, and answers whether none failed.
fn takes<S: Sink>(sink: &mut S, count: u32) -> bool {
    for _ in 0..count {
        if sink.put(b'x').is_err() {
            return false;
        }
    }
    true
}

/// More bytes than the buffer holds, and one more, reach the writer once they are flushed.
fn all_is_written(alloc: Global) -> bool {
    let mut written = Vec::new(alloc);
    let mut sink = StdSink::new(&mut written);
    let put = takes(&mut sink, 4097) && sink.put(b'y') == Ok(()) && sink.flush() == Ok(());
    put && written.len() == 4098 && written.last() == Some(&b'y')
}

/// Three bytes don't reach a writer with room for two.
fn full_writer_fails() -> bool {
    let mut room = [0u8; 2];
    let mut full = StdSink::new(room.as_mut_slice());
    takes(&mut full, 3) && full.flush() == Err(Failed) && full.flush() == Err(Failed)
}

/// A writer that takes two bytes at a time, and fails once behind the first two.
#[derive(Drop)]
struct Faltering {
    has_failed: bool,
    written: Vec<u8>,
}

impl Write for Faltering {
    fn write(&mut self, bytes: &[u8]) -> io::Result<usize> {
        if !self.written.is_empty() && !self.has_failed {
            self.has_failed = true;
            return Err(io::Error::from(ErrorKind::Other));
        }
        let count = bytes.len().min(2);
        self.written.extend_from_slice(&bytes[..count])?;
        Ok(count)
    }

    fn flush(&mut self) -> io::Result<()> {
        Ok(())
    }
}

/// Behind a write that failed only what wasn't written yet is written.
fn nothing_is_written_twice(alloc: Global) -> bool {
    let mut writer = Faltering {
        has_failed: false,
        written: Vec::new(alloc),
    };
    let mut sink = StdSink::new(&mut writer);
    let mut put = true;
    for byte in b"abcde" {
        put = put && sink.put(*byte) == Ok(());
    }
    let flushed = sink.flush() == Err(Failed) && sink.flush() == Ok(());
    put && flushed && writer.written.as_slice() == b"abcde".as_slice()
}

#[test]
fn a_sink_writes_nothing_twice(rt: HostRuntime) {
    assert!(rt; nothing_is_written_twice(rt.alloc()));
}

#[test]
fn a_sink_writes_when_it_is_flushed_or_full(rt: HostRuntime) {
    assert!(rt; all_is_written(rt.alloc()) && full_writer_fails());
}

/// A file is stored, and loaded whole and in part; another is missing.
fn files_are_kept(rt: &HostRuntime, name: &str) -> Result<bool, Fail> {
    let alloc = rt.alloc();
    let mut files = Folder::new(rt.clone()?);
    files.store(alloc, name, b"bytes")?;
    let whole = files.load(alloc, name, 5)?;
    let front = files.load(alloc, name, 4)?;
    let missing = matches!(
        files.load(alloc, "rc_tests_no_file", 4),
        Err(ShelfFault::Absent)
    );
    std::fs::remove_file(rt, name)?;
    Ok(
        whole.whole
            && whole.bytes.as_slice() == b"bytes".as_slice()
            && !front.whole
            && front.bytes.as_slice() == b"byte".as_slice()
            && missing,
    )
}

#[test]
fn a_folder_keeps_files(rt: HostRuntime) -> Result<(), Fail> {
    assert!(rt; files_are_kept(&rt, "rc_tests_file")?);
    Ok(())
}
