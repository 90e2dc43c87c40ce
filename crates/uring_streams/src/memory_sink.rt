//! A sink in memory, which fails at the calls that it is told to.

ghost use Rattle.std.specs.Prelude.{◌≡◌, ◌<◌, ◌⊎◌, Some, min, length, IfOk, IsErr, true};
ghost use Rattle.std.specs.Io.{WritesAtMost};
ghost use Rattle.std.specs.Io.KnownBytes.{WriteAppends};
ghost use Rattle.uring_base.specs.Causes.{HasCause};
ghost use Rattle.uring_streams.specs.Memory.{SinkFailsNext, AsksForMemory, KeepsRoom, fresh_sink, sink_after};

use crate::traits::{Failed, Sink};
use std::alloc::{AllocError, Global};
use std::marker::Model;
use uring_base::Nums;

/// A sink that keeps what it takes in memory. It fails at the calls that it is told to, and at a
/// call for whose bytes there is no memory: never there where its bytes fit into the room that it
/// was made with.
#[derive(Drop)]
pub struct MemorySink {
    bytes: Vec<u8>,
    piece: usize,
    fails: Nums,
    calls: u64,
    count: u64,
}

impl Model for MemorySink {
    ghost use Rattle.std.specs.Prelude.{◌<◌, ◌-◌, length, vec_capacity};
    ghost use Rattle.uring_streams.specs.States.{SinkState};

    ghost Value = { SinkState };

    ghost view = { λ s. record { written = s.bytes.items; room = vec_capacity s.bytes - length s.bytes.items; piece = s.piece; fails = s.fails; calls = s.calls; faults = s.count } };

    ghost invariant = { λ s. 0 < s.piece };
}

impl MemorySink {
    /// An empty sink that takes at most `piece` bytes a call. The calls in `fails`, counted from
    /// 1, fail; the count of calls stops at 2^64 - 1. Memory is asked for call by call.
    pub fn new(alloc: Global, piece: usize, fails: Nums) -> MemorySink
        requires { 0 < piece }
        ensures { result ≡ fresh_sink 0 piece fails }
    {
        MemorySink {
            bytes: Vec::new(alloc),
            piece,
            fails,
            calls: 0,
            count: 0,
        }
    }

    /// The same with memory for `room` bytes, so that no call asks for more before these are
    /// taken.
    pub fn with_room(
        alloc: Global,
        room: usize,
        piece: usize,
        fails: Nums,
    ) -> Result<MemorySink, AllocError>
        requires { 0 < piece }
        ensures { IfOk result (λ sink. sink ≡ fresh_sink room piece fails) }
    {
        Ok(MemorySink {
            bytes: Vec::with_capacity(alloc, room)?,
            piece,
            fails,
            calls: 0,
            count: 0,
        })
    }

    /// The bytes taken so far.
    pub fn bytes(&self) -> &[u8]
        ensures { result.now ≡ self.now.written }
    {
        self.bytes.as_slice()
    }
}

impl Sink for MemorySink {
    ghost written = { λ s. Some s.written };

    ghost faults = { λ s. s.faults };

    fn write(&mut self, bytes: &[u8]) -> Result<usize, Failed>
        ensures bound { WritesAtMost result bytes.now }
        ensures some { IfOk result (λ n. 0 < length bytes.now → 0 < n) }
        ensures bytes { WriteAppends (Some self.old.written) (Some self.new.written) result bytes.now }
        ensures cause { HasCause (λ _. true) self.old.faults self.new.faults result }
        ensures listed { SinkFailsNext self.old → IsErr result }
        ensures fails { IsErr result → SinkFailsNext self.old ⊎ AsksForMemory self.old bytes.now }
        ensures most { IfOk result (λ n. n ≡ min self.old.piece (length bytes.now)) }
        ensures after { self.new ≡ sink_after self.old bytes.now self.new.room result }
        ensures room { KeepsRoom self.old.room self.new.room result }
    {
        self.calls = self.calls.saturating_add(1);
        if self.fails.as_slice().contains(&self.calls) {
            self.count = self.count.saturating_add(1);
            return Err(Failed);
        }
        let count = self.piece.min(bytes.len());
        if self.bytes.extend_from_slice(&bytes[..count]).is_err() {
            self.count = self.count.saturating_add(1);
            return Err(Failed);
        }
        Ok(count)
    }
}
