//! The partner's ends beside a reference to their pair.

ghost use Rattle.uring_shared.specs.Seats.{IsPartnerOf};

use crate::pair::SharedPair;
use crate::seats::PartnerSeats;
use ring_traits::{PartnerSide, Rings};
use uring_base::{Completion, Taken};

/// The partner's side of a pair. It tells what it saw and sent, and nothing of the engine.
#[derive(Drop)]
pub struct PartnerEnds<'a> {
    pub(crate) pair: &'a SharedPair,
    pub(crate) seats: PartnerSeats,
    ghost own: { IsPartnerOf pair.now seats },
}

impl PartnerSeats {
    ghost use Rattle.std.specs.Prelude.{◌≡◌};
    ghost use Rattle.uring_shared.specs.Sides.{partner_of};

    /// These ends on their pair.
    pub fn on(self, pair: &SharedPair) -> PartnerEnds<'_>
        requires { IsPartnerOf pair.now self }
        ensures { partner_of result ≡ self }
    {
        PartnerEnds { pair, seats: self }
    }
}

impl<'a> PartnerEnds<'a> {
    ghost use Rattle.std.specs.Prelude.{◌≡◌};
    ghost use Rattle.uring_shared.specs.Sides.{partner_of};

    /// These ends without their pair.
    pub fn into_seats(self) -> PartnerSeats
        ensures { result ≡ partner_of self.entry }
    {
        let PartnerEnds { pair: _, seats } = self;
        seats
    }
}

impl<'a> Rings for PartnerEnds<'a> {
    ghost use Rattle.std.specs.Prelude.{refl};
    ghost use Rattle.uring_base.specs.Completions.{without_big};
    ghost use Rattle.uring_shared.specs.Sides.{untold};

    ghost lists = { untold };

    ghost kept = { without_big };

    // The partner knows neither position.
    ghost offer_place = { λ _. 0 };

    ghost reap_place = { λ _. 0 };

    ghost fits = { λ _. tt };

    ghost keeps = { λ _. refl };
}

impl<'a> PartnerSide for PartnerEnds<'a> {
    ghost use Rattle.std.specs.Prelude.{◌≡◌, false, refl};
    ghost use Rattle.uring_shared.specs.Seats.{PartnerMoves, partner_ready, partner_space};
    ghost use Rattle.uring_shared.specs.SeatLaws.{PartnerMoves-none, PartnerMoves-then};
    ghost use Rattle.uring_shared.specs.Sides.{partner_of};

    ghost moved = { λ a ts cs b. PartnerMoves (partner_of a) ts cs (partner_of b) };

    ghost ready = { λ ends. partner_ready (partner_of ends) };

    ghost space = { λ ends. partner_space (partner_of ends) };

    ghost has_words = { false };

    ghost flags_word = { λ _. 0 };

    ghost dropped = { λ _. 0 };

    ghost overflow = { λ _. 0 };

    // There is no such word, so nothing changes.
    ghost marked = { λ before after. after ≡ before };

    fn published(&mut self) -> u32 {
        self.seats.published(self.pair)
    }

    fn take(&mut self) -> Option<Taken> {
        self.seats.take_next(self.pair)
    }

    fn room(&mut self) -> u32 {
        self.seats.room(self.pair)
    }

    fn post(&mut self, completion: Completion) -> Result<(), Completion> {
        self.seats.post(self.pair, completion)
    }

    fn sq_flags(&self) -> u32 {
        0
    }

    fn set_sq_flags(&mut self, _flags: u32) {}

    fn add_dropped(&mut self) {}

    fn add_overflow(&mut self) {}

    ghost moved_none = { λ a. PartnerMoves-none (partner_of a) };

    ghost moved_then = { λ a b c. PartnerMoves-then (partner_of a) (partner_of b) (partner_of c) };

    ghost moved_told = { λ _ _ _ _ _. refl };

    ghost moved_places = { λ _ _ _ _ _. (refl, refl) };

    ghost moved_words = { λ _ _ _ _ _. (refl, refl, refl) };

    ghost marked_told = { λ _ _ _. refl };

    ghost marked_places = { λ _ _ _. (refl, refl) };
}
