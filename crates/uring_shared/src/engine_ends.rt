//! The engine's ends beside a reference to their pair.

ghost use Rattle.uring_shared.specs.Seats.{IsEngineOf};

use crate::pair::SharedPair;
use crate::seats::EngineSeats;
use ring_traits::{Rings, UserEnds};
use uring_base::squeue::Entry;
use uring_base::{Completion, Loan, Taken};

/// The user's side of a pair. It tells what it sent and saw, and nothing of the partner.
#[derive(Drop)]
pub struct EngineEnds<'a> {
    pub(crate) pair: &'a SharedPair,
    pub(crate) seats: EngineSeats,
    ghost own: { IsEngineOf pair.now seats },
}

impl EngineSeats {
    ghost use Rattle.std.specs.Prelude.{◌≡◌};
    ghost use Rattle.uring_shared.specs.Sides.{engine_of};

    /// These ends on their pair.
    pub fn on(self, pair: &SharedPair) -> EngineEnds<'_>
        requires { IsEngineOf pair.now self }
        ensures { engine_of result ≡ self }
    {
        EngineEnds { pair, seats: self }
    }
}

impl<'a> EngineEnds<'a> {
    ghost use Rattle.std.specs.Prelude.{◌≡◌};
    ghost use Rattle.uring_shared.specs.Sides.{engine_of};

    /// These ends without their pair.
    pub fn into_seats(self) -> EngineSeats
        ensures { result ≡ engine_of self.entry }
    {
        let EngineEnds { pair: _, seats } = self;
        seats
    }
}

impl<'a> Rings for EngineEnds<'a> {
    ghost use Rattle.std.specs.Prelude.{refl};
    ghost use Rattle.uring_base.specs.Completions.{without_big};
    ghost use Rattle.uring_shared.specs.Seats.{engine_offer_place, engine_reap_place};
    ghost use Rattle.uring_shared.specs.Sides.{engine_of, untold};

    ghost lists = { untold };

    ghost kept = { without_big };

    ghost offer_place = { λ ends. engine_offer_place (engine_of ends) };

    ghost reap_place = { λ ends. engine_reap_place (engine_of ends) };

    ghost fits = { λ _. tt };

    ghost keeps = { λ _. refl };
}

impl<'a> UserEnds for EngineEnds<'a> {
    ghost use Rattle.std.specs.Prelude.{◌≡◌, ◌+◌, ◌<◌, ◌≤◌, ◌↔◌, false, List, [], ◌∷◌, ◌++◌, length, IsOk, IsSome, OnOk, OnErr, IfErr, MatchOption};
    ghost use Rattle.std.specs.Option.{option_to_list};
    ghost use Rattle.uring_base.specs.declared.events.Completion.{Completion};
    ghost use Rattle.ring_traits.specs.Lists.{Becomes, WhereTold, Reaps, offered, small};
    ghost use Rattle.uring_shared.specs.Seats.{EngineUses, engine_room, engine_waiting, engine_capacity, engine_completion_capacity, entries_offered, entries_published, completions_seen, reaped_count, given_back_count};
    ghost use Rattle.uring_shared.specs.SeatLaws.{EngineUses-none, EngineUses-then};
    ghost use Rattle.uring_shared.specs.Sides.{engine_of, untold};

    ghost used = { λ a ts cs b. EngineUses (engine_of a) ts cs (engine_of b) };

    ghost room = { λ ends. engine_room (engine_of ends) };

    ghost waiting = { λ ends. engine_waiting (engine_of ends) };

    ghost offers_large = { false };

    ghost entries_fit = { λ ends. engine_capacity (engine_of ends) };

    ghost completions_fit = { λ ends. engine_completion_capacity (engine_of ends) };

    // Each call that changes an end has the trait's clauses, and says what is published and seen.
    fn offer(&mut self, entry: Entry, loan: Option<Loan>) -> Result<(), (Entry, Option<Loan>)>
        ensures room { IsOk result ↔ (0 < engine_room (engine_of self.old)) }
        ensures ok { OnOk result (EngineUses (engine_of self.old) (small entry loan ∷ []) [] (engine_of self.new) × (engine_room (engine_of self.old) ≡ engine_room (engine_of self.new) + 1)) }
        ensures told { OnOk result (Becomes (untold self.old) (offered (small entry loan)) (untold self.new)) }
        ensures waiting { engine_waiting (engine_of self.new) ≡ engine_waiting (engine_of self.old) }
        ensures back { IfErr result (λ refused. refused ≡ (entry, loan)) }
        ensures err { OnErr result (self.new ≡ self.old) }
        ensures published { entries_published (engine_of self.new) ≡ entries_published (engine_of self.old) }
        ensures completions { (completions_seen (engine_of self.new) ≡ completions_seen (engine_of self.old)) × (given_back_count (engine_of self.new) ≡ given_back_count (engine_of self.old)) }
    {
        if self.seats.send.spare() == 0 {
            return Err((entry, loan));
        }
        let taken = Taken {
            entry,
            big: [0; 64],
            large: false,
            loan,
        };
        match self.seats.send.put(&self.pair.submissions, taken) {
            Ok(()) => Ok(()),
            Err(_) => unreachable!(),
        }
    }

    fn publish(&mut self)
        ensures used { EngineUses (engine_of self.old) [] [] (engine_of self.new) }
        ensures seen { (engine_room (engine_of self.new) ≡ engine_room (engine_of self.old)) × (engine_waiting (engine_of self.new) ≡ engine_waiting (engine_of self.old)) }
        ensures published { entries_published (engine_of self.new) ≡ entries_offered (engine_of self.old) }
        ensures completions { (completions_seen (engine_of self.new) ≡ completions_seen (engine_of self.old)) × (given_back_count (engine_of self.new) ≡ reaped_count (engine_of self.old)) }
    {
        self.seats.send.publish(&self.pair.submissions);
        self.seats.take.publish(&self.pair.completions);
    }

    fn refresh(&mut self)
        ensures used { EngineUses (engine_of self.old) [] [] (engine_of self.new) }
        ensures grows { (engine_room (engine_of self.old) ≤ engine_room (engine_of self.new)) × (engine_waiting (engine_of self.old) ≤ engine_waiting (engine_of self.new)) }
        ensures published { entries_published (engine_of self.new) ≡ entries_published (engine_of self.old) }
        ensures completions { ((more : List Completion) × (completions_seen (engine_of self.new) ≡ completions_seen (engine_of self.old) ++ more)) × (given_back_count (engine_of self.new) ≡ given_back_count (engine_of self.old)) }
    {
        self.seats.send.refresh(&self.pair.submissions);
        self.seats.take.refresh(&self.pair.completions);
    }

    fn reap(&mut self) -> Option<Completion>
        ensures used { EngineUses (engine_of self.old) [] (option_to_list result) (engine_of self.new) }
        ensures some { IsSome result ↔ (0 < engine_waiting (engine_of self.old)) }
        ensures count { engine_waiting (engine_of self.old) ≡ engine_waiting (engine_of self.new) + length (option_to_list result) }
        ensures told { MatchOption result (untold self.new ≡ untold self.old) (λ c. WhereTold (Reaps c) (untold self.old) (untold self.new)) }
        ensures room { engine_room (engine_of self.new) ≡ engine_room (engine_of self.old) }
        ensures published { entries_published (engine_of self.new) ≡ entries_published (engine_of self.old) }
        ensures completions { (completions_seen (engine_of self.new) ≡ completions_seen (engine_of self.old)) × (given_back_count (engine_of self.new) ≡ given_back_count (engine_of self.old)) }
    {
        self.seats.take.take(&self.pair.completions)
    }

    fn free(&self) -> u32 {
        self.seats.send.spare()
    }

    fn capacity(&self) -> u32 {
        self.seats.send.capacity()
    }

    fn completion_capacity(&self) -> u32 {
        self.seats.take.capacity()
    }

    fn places(&self) -> (u32, u32) {
        (self.seats.send.place(), self.seats.take.place())
    }

    ghost used_none = { λ a. EngineUses-none (engine_of a) };

    ghost used_then = { λ a b c. EngineUses-then (engine_of a) (engine_of b) (engine_of c) };

    ghost used_places = { λ a b ts cs uses. (uses.offer_place, uses.reap_place) };

    ghost sizes = { λ _. tt };
}
