//! Two rings whose ends the two sides own.

ghost use Rattle.std.specs.Prelude.{◌≡◌, ◌++◌, ◌≤◌, List, length, IfOk, true};
ghost use Rattle.ring_core.specs.Positions.{is_ring_size};
ghost use Rattle.uring_base.specs.declared.events.Taken.{Taken};
ghost use Rattle.uring_base.specs.declared.events.Completion.{Completion};
ghost use Rattle.uring_base.specs.declared.limits.TheConstants.{MAX_ENTRIES};
ghost use Rattle.uring_shared.specs.Seats.{IsEngineOf, IsPartnerOf, entries_published, completions_seen, completions_reaped, entries_seen, entries_taken, completions_posted, IsNewEngine, IsNewPartner, AreInOneEntryState, AreInOneCompletionState};

use crate::seats::{EngineSeats, PartnerSeats};
use ring_shared::{Met, SharedError, SharedRing};
use std::alloc::Global;
use uring_base::{Completion, Taken};

/// A submission ring and a completion ring of small entries over atomic words and slots, for two
/// sides that may each be on a thread of its own. All their memory is taken when they are made.
/// There is no word of flags and no counter beside them: these read as 0.
#[derive(Drop)]
pub struct SharedPair {
    pub(crate) submissions: SharedRing<Taken>,
    pub(crate) completions: SharedRing<Completion>,
}

impl SharedPair {
    /// Two rings that hold nothing, each of their positions at `start`, and the ends of each side;
    /// or want of memory. The sizes are those of rings: powers of two, at most 32768 entries and
    /// 65536 completions.
    pub fn new(
        alloc: Global,
        sq: u32,
        cq: u32,
        start: u32,
    ) -> Result<(SharedPair, EngineSeats, PartnerSeats), SharedError>
        requires entries { is_ring_size sq ≡ true }
        requires small { sq ≤ MAX_ENTRIES }
        requires completions { is_ring_size cq ≡ true }
        ensures own { IfOk result (λ made. IsEngineOf made.0 made.1 × IsPartnerOf made.0 made.2) }
        ensures engine { IfOk result (λ made. IsNewEngine made.1 sq cq start) }
        ensures partner { IfOk result (λ made. IsNewPartner made.2 sq cq) }
    {
        let (submissions, engine_send, partner_take) = SharedRing::new(alloc, sq, start)?;
        let (completions, partner_send, engine_take) = SharedRing::new(alloc, cq, start)?;
        let engine = EngineSeats {
            send: engine_send,
            take: engine_take,
        };
        let partner = PartnerSeats {
            take: partner_take,
            send: partner_send,
        };
        let pair = SharedPair {
            submissions,
            completions,
        };
        Ok((pair, engine, partner))
    }

    /// How much is published and untaken in the submission ring, and in the completion ring. What a
    /// side saw, and what it took, is the front of what the other side published.
    pub fn meet(&self, engine: EngineSeats, partner: PartnerSeats) -> (Met, Met)
        requires engine { IsEngineOf self.now engine }
        requires partner { IsPartnerOf self.now partner }
        ensures entries_seen { (rest : List Taken) × (entries_published engine ≡ entries_seen partner ++ rest) }
        ensures entries { (rest : List Taken) × (entries_published engine ≡ entries_taken partner ++ rest) × (length rest ≡ result.0.left) }
        ensures entry_state { AreInOneEntryState engine partner }
        ensures completions_seen { (rest : List Completion) × (completions_posted partner ≡ completions_seen engine ++ rest) }
        ensures completions { (rest : List Completion) × (completions_posted partner ≡ completions_reaped engine ++ rest) × (length rest ≡ result.1.left) }
        ensures completion_state { AreInOneCompletionState engine partner }
    {
        let EngineSeats {
            send: engine_send,
            take: engine_take,
        } = engine;
        let PartnerSeats {
            take: partner_take,
            send: partner_send,
        } = partner;
        (
            self.submissions.meet(engine_send, partner_take),
            self.completions.meet(partner_send, engine_take),
        )
    }
}
