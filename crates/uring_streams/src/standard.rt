//! Readers and writers of std as sources and sinks.

ghost use Rattle.std.specs.Prelude.{◌≡◌, ◌<◌, IfOk, length, true};
ghost use Rattle.std.specs.Io.{ReadsAtMost, WritesAtMost};
ghost use Rattle.std.specs.Io.KnownBytes.{ReadConsumes, WriteAppends};
ghost use Rattle.uring_base.specs.Causes.{HasCause};
ghost use Rattle.uring_streams.specs.Bytes.{CountsBytes, CountsFaults};

use crate::traits::{Failed, Sink, Source};
use std::io::{Read, Write};
use std::marker::Model;

/// A reader of std as a source.
#[derive(Drop)]
pub struct StdSource<R: Drop> {
    inner: R,
    given: u64,
    count: u64,
}

impl<R: Drop> Model for StdSource<R> {
    ghost use Rattle.uring_streams.specs.States.{OverReader};

    ghost Value = { OverReader R };

    ghost view = { λ s. record { inner = s.inner; taken = s.given; faults = s.count } };
}

impl<R: Read + Drop> StdSource<R> {
    /// A source over `inner`. It fails, and counts it as a fault, where `inner` does, and where
    /// the bytes given in all might go past 2^64 - 1.
    pub fn new(inner: R) -> Self
        ensures { result ≡ record { inner = inner; taken = 0; faults = 0 } }
    {
        StdSource {
            inner,
            given: 0,
            count: 0,
        }
    }
}

impl<R: Read + Drop> Source for StdSource<R> {
    ghost left = { λ s. R.remaining s.inner };

    ghost taken = { λ s. s.taken };

    ghost faults = { λ s. s.faults };

    fn read(&mut self, into: &mut [u8]) -> Result<usize, Failed>
        ensures bound { ReadsAtMost result into.new }
        ensures bytes { ReadConsumes (R.remaining self.old.inner) (R.remaining self.new.inner) result into.new }
        ensures count { CountsBytes self.old.taken self.new.taken result }
        ensures cause { HasCause (λ _. true) self.old.faults self.new.faults result }
        ensures faults { CountsFaults self.old.faults self.new.faults result }
    {
        if into.len() as u64 <= u64::MAX - self.given {
            if let Ok(count) = self.inner.read(into) {
                self.given += count as u64;
                return Ok(count);
            }
        }
        self.count = self.count.saturating_add(1);
        Err(Failed)
    }
}

/// A writer of std as a sink.
#[derive(Drop)]
pub struct StdSink<W: Drop> {
    inner: W,
    count: u64,
}

impl<W: Drop> Model for StdSink<W> {
    ghost use Rattle.uring_streams.specs.States.{OverWriter};

    ghost Value = { OverWriter W };

    ghost view = { λ s. record { inner = s.inner; faults = s.count } };
}

impl<W: Write + Drop> StdSink<W> {
    /// A sink over `inner`. It fails, and counts it as a fault, where `inner` does, and where
    /// `inner` takes nothing of a piece that isn't empty.
    pub fn new(inner: W) -> Self
        ensures { result ≡ record { inner = inner; faults = 0 } }
    {
        StdSink { inner, count: 0 }
    }
}

impl<W: Write + Drop> Sink for StdSink<W> {
    ghost written = { λ s. W.contents s.inner };

    ghost faults = { λ s. s.faults };

    fn write(&mut self, bytes: &[u8]) -> Result<usize, Failed>
        ensures bound { WritesAtMost result bytes.now }
        ensures some { IfOk result (λ n. 0 < length bytes.now → 0 < n) }
        ensures bytes { WriteAppends (W.contents self.old.inner) (W.contents self.new.inner) result bytes.now }
        ensures cause { HasCause (λ _. true) self.old.faults self.new.faults result }
        ensures faults { CountsFaults self.old.faults self.new.faults result }
    {
        match self.inner.write(bytes) {
            Ok(count) if count > 0 || bytes.is_empty() => Ok(count),
            _ => {
                self.count = self.count.saturating_add(1);
                Err(Failed)
            }
        }
    }
}
