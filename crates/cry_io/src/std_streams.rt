//! Standard readers and writers as a source and a sink. Nothing proved knows what a stream gives or takes, so
//! they tell no contents: this is the trusted edge.
ghost use Rattle.std.specs.Prelude.{◌≡◌, None};

use crate::tally::Tally;
use crate::{Failed, Sink, Source};
use std::io::{ErrorKind, Read, Write};
use std::marker::Model;

/// How often a call that was interrupted is made again.
const TRIES: u32 = 1024;

/// A standard reader as a source.
#[derive(Drop)]
pub struct StdSource<T> {
    inner: T,
    faults: Tally,
}

impl<T> Model for StdSource<T> {
    ghost use Rattle.std.specs.Prelude.{ℕ};

    ghost Value = { ℕ };

    ghost view = { λ s. s.faults.count };
}

impl<T: Read + Drop> StdSource<T> {
    /// A source of what the reader gives. No call has failed.
    pub fn new(inner: T) -> StdSource<T>
        ensures { result ≡ 0 }
    {
        StdSource {
            inner,
            faults: Tally::new(),
        }
    }
}

impl<T: Read + Drop> Source for StdSource<T> {
    ghost left = { λ _. None };

    ghost faults = { λ s. s };

    fn read(&mut self, buf: &mut [u8]) -> Result<usize, Failed> {
        for _ in 0..TRIES {
            match self.inner.read(buf) {
                Ok(count) => return Ok(count),
                Err(error) if error.kind() == ErrorKind::Interrupted => {}
                Err(_) => break,
            }
        }
        self.faults = self.faults.raised();
        Err(Failed)
    }
}

/// A standard writer as a sink. It is never flushed: give one that keeps nothing back.
#[derive(Drop)]
pub struct StdSink<T> {
    inner: T,
    faults: Tally,
}

impl<T> Model for StdSink<T> {
    ghost use Rattle.std.specs.Prelude.{ℕ};

    ghost Value = { ℕ };

    ghost view = { λ s. s.faults.count };
}

impl<T: Write + Drop> StdSink<T> {
    /// A sink into the writer. No call has failed.
    pub fn new(inner: T) -> StdSink<T>
        ensures { result ≡ 0 }
    {
        StdSink {
            inner,
            faults: Tally::new(),
        }
    }
}

impl<T: Write + Drop> Sink for StdSink<T> {
    ghost written = { λ _. None };

    ghost faults = { λ s. s };

    fn write(&mut self, piece: &[u8]) -> Result<usize, Failed> {
        for _ in 0..TRIES {
            match self.inner.write(piece) {
                Ok(count) if count > 0 || piece.is_empty() => return Ok(count),
                Err(error) if error.kind() == ErrorKind::Interrupted => {}
                _ => break,
            }
        }
        self.faults = self.faults.raised();
        Err(Failed)
    }
}
