//! A source in memory, which fails at the calls that it is told to.

ghost use Rattle.std.specs.Prelude.{◌≡◌, ◌↔◌, ◌<◌, Some, min, length, IfOk, IsErr, true};
ghost use Rattle.std.specs.Io.{ReadsAtMost};
ghost use Rattle.std.specs.Io.KnownBytes.{ReadConsumes};
ghost use Rattle.uring_base.specs.Causes.{HasCause};
ghost use Rattle.uring_streams.specs.Bytes.{CountsBytes};
ghost use Rattle.uring_streams.specs.Memory.{SourceFailsNext, fresh_source, room_after, source_after};

use crate::traits::{Failed, Source};
use std::marker::Model;
use uring_base::{Buf, Nums};

/// A source over bytes in memory, which gives as many as there is room for.
#[derive(Drop)]
pub struct MemorySource {
    bytes: Buf,
    at: usize,
    fails: Nums,
    calls: u64,
    count: u64,
}

impl Model for MemorySource {
    ghost use Rattle.std.specs.Prelude.{◌≤◌, drop, length};
    ghost use Rattle.uring_streams.specs.States.{SourceState};

    ghost Value = { SourceState };

    ghost view = { λ s. record { left = drop s.at s.bytes; taken = s.at; fails = s.fails; calls = s.calls; faults = s.count } };

    ghost invariant = { λ s. s.at ≤ length s.bytes };
}

impl MemorySource {
    /// A source of these bytes. The calls in `fails`, counted from 1, fail; the count of calls
    /// stops at 2^64 - 1.
    pub fn new(bytes: Buf, fails: Nums) -> MemorySource
        ensures { result ≡ fresh_source bytes fails }
    {
        MemorySource {
            bytes,
            at: 0,
            fails,
            calls: 0,
            count: 0,
        }
    }
}

impl Source for MemorySource {
    ghost left = { λ s. Some s.left };

    ghost taken = { λ s. s.taken };

    ghost faults = { λ s. s.faults };

    fn read(&mut self, into: &mut [u8]) -> Result<usize, Failed>
        ensures bound { ReadsAtMost result into.new }
        ensures bytes { ReadConsumes (Some self.old.left) (Some self.new.left) result into.new }
        ensures count { CountsBytes self.old.taken self.new.taken result }
        ensures cause { HasCause (λ _. true) self.old.faults self.new.faults result }
        ensures fails { IsErr result ↔ SourceFailsNext self.old }
        ensures most { IfOk result (λ n. n ≡ min (length into.old) (length self.old.left)) }
        ensures after { self.new ≡ source_after self.old result }
        ensures room { into.new ≡ room_after self.old into.old result }
    {
        self.calls = self.calls.saturating_add(1);
        if self.fails.as_slice().contains(&self.calls) {
            self.count = self.count.saturating_add(1);
            return Err(Failed);
        }
        let rest = &self.bytes.as_slice()[self.at..];
        let count = into.len().min(rest.len());
        into[..count].copy_from_slice(&rest[..count]);
        self.at += count;
        Ok(count)
    }
}
