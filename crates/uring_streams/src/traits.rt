//! What gives bytes and what takes them.

ghost use Rattle.std.specs.Prelude.{◌≡◌, ◌<◌, ℕ, List, Option, IfOk, length, true};
ghost use Rattle.std.specs.Io.{ReadsAtMost, WritesAtMost};
ghost use Rattle.std.specs.Io.KnownBytes.{ReadConsumes, WriteAppends};
ghost use Rattle.std.specs.IoError.{error_kind};
ghost use Rattle.std.specs.declared.io.ErrorKind.TheVariants.{Other};
ghost use Rattle.uring_base.specs.Causes.{HasCause};
ghost use Rattle.uring_streams.specs.Bytes.{CountsBytes};

use std::io;
use thiserror::Error;

/// The source or the sink failed, and did nothing.
#[derive(Clone, Copy, Debug, PartialEq, Eq, Error)]
#[error("stream failed")]
pub struct Failed;

impl From<Failed> for io::Error {
    ghost from_gives = { λ _ e. error_kind e ≡ Other };

    fn from(_failed: Failed) -> io::Error {
        io::Error::from(io::ErrorKind::Other)
    }
}

/// What gives bytes.
pub trait Source {
    /// The bytes that are left, where the source tells.
    ghost left: { Self → Option (List ℕ) };

    /// How many bytes it has given in all.
    ghost taken: { Self → ℕ };

    /// How often it has failed.
    ghost faults: { Self → ℕ };

    /// Places bytes at the front of `into`, and says how many: 0, where `into` isn't empty, only
    /// at the end of the input. Behind them `into` may have been written over too.
    fn read(&mut self, into: &mut [u8]) -> Result<usize, Failed>
        ensures bound { ReadsAtMost result into.new }
        ensures bytes { ReadConsumes (left self.old) (left self.new) result into.new }
        ensures count { CountsBytes (taken self.old) (taken self.new) result }
        ensures cause { HasCause (λ _. true) (faults self.old) (faults self.new) result };
}

/// What takes bytes.
pub trait Sink {
    /// The bytes that it has taken, where the sink tells.
    ghost written: { Self → Option (List ℕ) };

    /// How often it has failed.
    ghost faults: { Self → ℕ };

    /// Takes bytes from the front of `bytes`, and says how many: at least 1 where there is one.
    fn write(&mut self, bytes: &[u8]) -> Result<usize, Failed>
        ensures bound { WritesAtMost result bytes.now }
        ensures some { IfOk result (λ n. 0 < length bytes.now → 0 < n) }
        ensures bytes { WriteAppends (written self.old) (written self.new) result bytes.now }
        ensures cause { HasCause (λ _. true) (faults self.old) (faults self.new) result };
}
