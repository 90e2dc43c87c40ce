//! Starts of operations.

ghost use Rattle.std.specs.Prelude.{◌≡◌, ◌+◌, ◌<◌, ◌≤◌, ◌==◌, ◌≢◌, ◌&&◌, bit_and, bit_or, not, true, false, [], ◌∷◌, length, None, Some, OnOk, OnErr, IfErr, IfOk, IfSome, is_some, is_ok, if◌then◌else◌};
ghost use Rattle.rent_table.specs.Lists.{list_at};
ghost use Rattle.rent_table.specs.Ops.{knows, started};
ghost use Rattle.rent_engine.specs.Engines.{without_skip_success, with_skip_success, links_next, offered_entry, offered_quiet, offered_cancel, loan_of, Offered};
ghost use Rattle.rent_engine.specs.Faults.{fault_buf, is_key_in_use, is_ring_full, is_no_memory};

use crate::engine::Engine;
use crate::fault::StartFault;
use crate::ops::OpKey;
use bitflags::Flags as _;
use ring_traits::UserEnds;
use std::alloc::Global;
use uring_base::squeue::{Entry, Flags};
use uring_base::{Buf, Loan};
use uring_ops_file::AsyncCancel;

impl<R: UserEnds> Engine<R> {
    /// Starts an operation under a number. The entry gets that number, and loses `SKIP_SUCCESS`;
    /// the buffer is lent under the number from place `from` on. Its place is taken here, so that
    /// what completes it takes no memory.
    pub fn start(
        &mut self,
        _alloc: Global,
        number: u64,
        entry: Entry,
        from: u32,
        buf: Option<Buf>,
    ) -> Result<OpKey, StartFault>
        requires { IfSome buf (λ b. from ≤ length b) }
        ensures key { IfOk result (λ key. key ≡ number) }
        ensures ops { OnOk result (self.new.ops ≡ started number (is_some buf) None self.old.ops) }
        ensures offered { OnOk result (Offered R.offers_large R.used R.lists R.room R.waiting self.old.ring (offered_entry number entry from buf ∷ []) self.new.ring) }
        ensures key_in_use { is_key_in_use result ≡ knows self.old.ops number }
        ensures ring_full { is_ring_full result ≡ (not (knows self.old.ops number) && (R.room self.old.ring == 0)) }
        ensures steps { self.new.steps ≡ self.old.steps }
        ensures no_steps { OnOk result (list_at self.new.steps number ≡ []) }
        ensures handles { self.new.handles ≡ self.old.handles }
        ensures unchanged { OnErr result ((self.new.ops ≡ self.old.ops) × (self.new.ring ≡ self.old.ring)) }
        ensures back { IfErr result (λ fault. fault_buf fault ≡ buf) }
        ensures memory { 0 < self.old.spare → is_no_memory result ≡ false }
        ensures spare { self.old.spare ≤ self.new.spare + (if is_ok result then 1 else 0) }
        ensures step_room { self.old.step_room ≤ self.new.step_room }
        ensures params { self.new.params ≡ self.old.params }
    {
        if self.operations.knows(number) {
            return Err(StartFault::KeyInUse(buf));
        }
        if self.ring.free() == 0 {
            return Err(StartFault::RingFull(buf));
        }
        if self.operations.reserve(1).is_err() {
            return Err(StartFault::NoMemory(buf));
        }
        let lent = buf.is_some();
        let loan = lend(number, from, buf);
        let entry = without_skip_success(entry).user_data(number);
        match self.ring.offer(entry, loan) {
            Ok(()) => (),
            Err(_) => unreachable!(),
        }
        self.operations.start(number, lent);
        Ok(OpKey { number })
    }

    /// Starts a quiet operation under a number, which lends no buffer: where it succeeds, nothing
    /// is posted for it, and it is resolved with the operation of number `next`.
    pub fn start_quiet(
        &mut self,
        _alloc: Global,
        number: u64,
        entry: Entry,
        next: u64,
    ) -> Result<OpKey, StartFault>
        requires linked { links_next entry ≡ true }
        requires apart { next ≢ number }
        ensures key { IfOk result (λ key. key ≡ number) }
        ensures ops { OnOk result (self.new.ops ≡ started number false (Some next) self.old.ops) }
        ensures offered { OnOk result (Offered R.offers_large R.used R.lists R.room R.waiting self.old.ring (offered_quiet number entry ∷ []) self.new.ring) }
        ensures key_in_use { is_key_in_use result ≡ knows self.old.ops number }
        ensures ring_full { is_ring_full result ≡ (not (knows self.old.ops number) && (R.room self.old.ring == 0)) }
        ensures steps { self.new.steps ≡ self.old.steps }
        ensures no_steps { OnOk result (list_at self.new.steps number ≡ []) }
        ensures handles { self.new.handles ≡ self.old.handles }
        ensures unchanged { OnErr result ((self.new.ops ≡ self.old.ops) × (self.new.ring ≡ self.old.ring)) }
        ensures no_buf { IfErr result (λ fault. fault_buf fault ≡ None) }
        ensures memory { 0 < self.old.spare → is_no_memory result ≡ false }
        ensures spare { self.old.spare ≤ self.new.spare + (if is_ok result then 1 else 0) }
        ensures step_room { self.old.step_room ≤ self.new.step_room }
        ensures params { self.new.params ≡ self.old.params }
    {
        if self.operations.knows(number) {
            return Err(StartFault::KeyInUse(None));
        }
        if self.ring.free() == 0 {
            return Err(StartFault::RingFull(None));
        }
        if self.operations.reserve(1).is_err() {
            return Err(StartFault::NoMemory(None));
        }
        let entry = with_skip_success(entry).user_data(number);
        match self.ring.offer(entry, None) {
            Ok(()) => (),
            Err(_) => unreachable!(),
        }
        self.operations.start_quiet(number, next);
        Ok(OpKey { number })
    }

    /// Starts the cancel of the operation of number `target`, as an operation of its own. Its
    /// result is the partner's: 0 where it marked an operation of that number, and `-ENOENT` where
    /// it found none. What was marked stays in flight until its own completion.
    pub fn cancel(&mut self, alloc: Global, target: u64, number: u64) -> Result<OpKey, StartFault>
        ensures key { IfOk result (λ key. key ≡ number) }
        ensures ops { OnOk result (self.new.ops ≡ started number false None self.old.ops) }
        ensures offered { OnOk result (Offered R.offers_large R.used R.lists R.room R.waiting self.old.ring (offered_cancel target number ∷ []) self.new.ring) }
        ensures key_in_use { is_key_in_use result ≡ knows self.old.ops number }
        ensures ring_full { is_ring_full result ≡ (not (knows self.old.ops number) && (R.room self.old.ring == 0)) }
        ensures steps { self.new.steps ≡ self.old.steps }
        ensures no_steps { OnOk result (list_at self.new.steps number ≡ []) }
        ensures handles { self.new.handles ≡ self.old.handles }
        ensures unchanged { OnErr result ((self.new.ops ≡ self.old.ops) × (self.new.ring ≡ self.old.ring)) }
        ensures no_buf { IfErr result (λ fault. fault_buf fault ≡ None) }
        ensures memory { 0 < self.old.spare → is_no_memory result ≡ false }
        ensures spare { self.old.spare ≤ self.new.spare + (if is_ok result then 1 else 0) }
        ensures step_room { self.old.step_room ≤ self.new.step_room }
        ensures params { self.new.params ≡ self.old.params }
    {
        let entry = AsyncCancel::new(target).build();
        self.start(alloc, number, entry, 0, None)
    }
}

/// The entry, whose completion is posted whatever its result.
fn without_skip_success(entry: Entry) -> Entry
    ensures { result ≡ record entry { flags = without_skip_success entry.flags } }
{
    Entry {
        flags: entry.flags & !Flags::SKIP_SUCCESS.bits(),
        ..entry
    }
}

/// The entry, for which nothing is posted where it succeeds.
fn with_skip_success(entry: Entry) -> Entry
    ensures { result ≡ record entry { flags = with_skip_success entry.flags } }
{
    entry.flags(Flags::SKIP_SUCCESS)
}

fn lend(number: u64, from: u32, buf: Option<Buf>) -> Option<Loan>
    ensures { result ≡ loan_of number from buf }
{
    match buf {
        None => None,
        Some(buf) => Some(Loan { number, from, buf }),
    }
}
