//! Sources and sinks over readers and writers: standard input and output answer, and how often a reader and a writer are called.

use crate::calls::{gives, takes};
use cc_outside::{Failed, StdSink, StdSource};
use std::alloc::Global;
use std::io::{self, ErrorKind, Read, Write};

#[test]
fn standard_input_and_output_answer(rt: HostRuntime) {
    let mut source = StdSource::new(rt.stdin());
    let failed = gives(&mut source, &mut [0; 4]).is_err();
    assert!(rt; source.faults() == u64::from(failed));
    let mut sink = StdSink::new(rt.stdout());
    let failed = takes(&mut sink, b"a line of cc_outside\n").is_err();
    assert!(rt; sink.faults() == u64::from(failed));
}

/// A reader that is at its end or fails, each time that it is called, and counts how often that is.
#[derive(Drop)]
struct Asked {
    fails: bool,
    calls: u64,
}

impl Read for Asked {
    fn read(&mut self, _: &mut [u8]) -> io::Result<usize> {
        self.calls = self.calls.saturating_add(1);
        if self.fails {
            return Err(io::Error::from(ErrorKind::Interrupted));
        }
        Ok(0)
    }
}

#[test]
fn the_end_is_asked_for_once(rt: HostRuntime) {
    let mut reader = Asked {
        fails: false,
        calls: 0,
    };
    assert!(rt; gives(&mut StdSource::new(&mut reader), &mut [0; 4]) == Ok(0));
    assert!(rt; reader.calls == 1);
}

#[test]
fn a_read_that_fails_is_made_once(rt: HostRuntime) {
    let mut reader = Asked {
        fails: true,
        calls: 0,
    };
    assert!(rt; gives(&mut StdSource::new(&mut reader), &mut [0; 4]) == Err(Failed));
    assert!(rt; reader.calls == 1);
}

/// A writer that keeps what it takes, at most three bytes at a time, and how much that was at each flush; it fails to
/// flush where it says so.
#[derive(Drop)]
struct Keeper {
    kept: Vec<u8>,
    flushed: Vec<usize>,
    fails: bool,
}

impl Write for Keeper {
    fn write(&mut self, buf: &[u8]) -> io::Result<usize> {
        let count = buf.len().min(3);
        self.kept.extend_from_slice(&buf[..count])?;
        Ok(count)
    }

    fn flush(&mut self) -> io::Result<()> {
        self.flushed.push(self.kept.len())?;
        if self.fails {
            return Err(io::Error::from(ErrorKind::BrokenPipe));
        }
        Ok(())
    }
}

impl Keeper {
    /// One that has taken nothing.
    fn new(alloc: Global, fails: bool) -> Keeper {
        Keeper {
            kept: Vec::new(alloc),
            flushed: Vec::new(alloc),
            fails,
        }
    }
}

#[test]
fn each_piece_is_written_once_and_flushed(rt: HostRuntime) {
    let mut keeper = Keeper::new(rt.alloc(), false);
    let mut sink = StdSink::new(&mut keeper);
    assert!(rt; takes(&mut sink, b"hello") == Ok(3));
    assert!(rt; takes(&mut sink, b"") == Ok(0));
    assert!(rt; keeper.kept.as_slice() == b"hel".as_slice());
    assert!(rt; keeper.flushed.as_slice() == [3, 3].as_slice());
}

#[test]
fn a_piece_that_is_not_flushed_is_written_once(rt: HostRuntime) {
    let mut keeper = Keeper::new(rt.alloc(), true);
    assert!(rt; takes(&mut StdSink::new(&mut keeper), b"hello") == Err(Failed));
    assert!(rt; keeper.kept.as_slice() == b"hel".as_slice());
    assert!(rt; keeper.flushed.as_slice() == [3].as_slice());
}
