//! What the partner's seats do on their pair.

ghost use Rattle.std.specs.Prelude.{◌≡◌, ◌≤◌, ◌<◌, ◌+◌, ◌⊎◌, [], ◌∷◌, length, IsOk, IsSome, OnOk, OnErr, IfErr};
ghost use Rattle.std.specs.Option.{option_to_list};
ghost use Rattle.uring_shared.specs.Seats.{IsPartnerOf, PartnerMoves, partner_ready, partner_space};

use crate::completion_ring::without_big;
use crate::pair::SharedPair;
use crate::seats::PartnerSeats;
use uring_base::{Completion, Taken};

impl PartnerSeats {
    /// Sees what is published, and learns how much that is.
    pub(crate) fn published(&mut self, pair: &SharedPair) -> u32
        requires { IsPartnerOf pair.now self.old }
        ensures moved { PartnerMoves self.old [] [] self.new }
        ensures count { result ≡ partner_ready self.new }
        ensures grows { partner_ready self.old ≤ partner_ready self.new }
        ensures space { partner_space self.new ≡ partner_space self.old }
    {
        self.take.refresh(&pair.submissions);
        self.take.waiting()
    }

    /// Looks for entries, where none is known to wait.
    fn look_for_entries(&mut self, pair: &SharedPair)
        requires { IsPartnerOf pair.now self.old }
        ensures moved { PartnerMoves self.old [] [] self.new }
        ensures grows { partner_ready self.old ≤ partner_ready self.new }
        ensures space { partner_space self.new ≡ partner_space self.old }
    {
        if self.take.waiting() == 0 {
            self.take.refresh(&pair.submissions);
        }
    }

    /// Takes the entry in front, and gives its slot back.
    fn take_known(&mut self, pair: &SharedPair) -> Option<Taken>
        requires { IsPartnerOf pair.now self.old }
        ensures moved { PartnerMoves self.old (option_to_list result) [] self.new }
        ensures known { 0 < partner_ready self.old → IsSome result }
        ensures count { partner_ready self.old ≡ partner_ready self.new + length (option_to_list result) }
        ensures none { IsSome result ⊎ (partner_ready self.new ≡ 0) }
        ensures space { partner_space self.new ≡ partner_space self.old }
    {
        let taken = self.take.take(&pair.submissions)?;
        self.take.publish(&pair.submissions);
        Some(taken)
    }

    /// Takes the entry in front, and gives its slot back. It looks where none is known to wait.
    pub(crate) fn take_next(&mut self, pair: &SharedPair) -> Option<Taken>
        requires { IsPartnerOf pair.now self.old }
        ensures moved { PartnerMoves self.old (option_to_list result) [] self.new }
        ensures known { 0 < partner_ready self.old → IsSome result }
        ensures none { IsSome result ⊎ (partner_ready self.new ≡ 0) }
        ensures count { partner_ready self.old ≤ partner_ready self.new + length (option_to_list result) }
        ensures space { partner_space self.new ≡ partner_space self.old }
    {
        self.look_for_entries(pair);
        self.take_known(pair)
    }

    /// Sees which slots are free, and learns how many that are.
    pub(crate) fn room(&mut self, pair: &SharedPair) -> u32
        requires { IsPartnerOf pair.now self.old }
        ensures moved { PartnerMoves self.old [] [] self.new }
        ensures count { result ≡ partner_space self.new }
        ensures grows { partner_space self.old ≤ partner_space self.new }
        ensures ready { partner_ready self.new ≡ partner_ready self.old }
    {
        self.send.refresh(&pair.completions);
        self.send.spare()
    }

    /// Looks for free slots, where none is known to be free, and learns how many are.
    fn look_for_room(&mut self, pair: &SharedPair) -> u32
        requires { IsPartnerOf pair.now self.old }
        ensures moved { PartnerMoves self.old [] [] self.new }
        ensures count { result ≡ partner_space self.new }
        ensures grows { partner_space self.old ≤ partner_space self.new }
        ensures ready { partner_ready self.new ≡ partner_ready self.old }
    {
        match self.send.spare() {
            0 => self.room(pair),
            spare => spare,
        }
    }

    /// Posts a completion where one is known to fit, and shows it.
    fn post_known(&mut self, pair: &SharedPair, completion: Completion)
        requires own { IsPartnerOf pair.now self.old }
        requires space { 0 < partner_space self.old }
        ensures moved { PartnerMoves self.old [] (completion ∷ []) self.new }
        ensures count { partner_space self.old ≡ partner_space self.new + 1 }
        ensures ready { partner_ready self.new ≡ partner_ready self.old }
    {
        match self.send.put(&pair.completions, without_big(completion)) {
            Ok(()) => {}
            Err(_) => unreachable!(),
        }
        self.send.publish(&pair.completions);
    }

    /// Posts a completion, and shows it. It looks where none is known to fit, and gives the
    /// completion back where none does.
    pub(crate) fn post(
        &mut self,
        pair: &SharedPair,
        completion: Completion,
    ) -> Result<(), Completion>
        requires { IsPartnerOf pair.now self.old }
        ensures known { 0 < partner_space self.old → IsOk result }
        ensures ok { OnOk result (PartnerMoves self.old [] (completion ∷ []) self.new × (partner_space self.old ≤ partner_space self.new + 1)) }
        ensures back { IfErr result (λ c. c ≡ completion) }
        ensures err { OnErr result (PartnerMoves self.old [] [] self.new × (partner_space self.new ≡ 0)) }
        ensures ready { partner_ready self.new ≡ partner_ready self.old }
    {
        if self.look_for_room(pair) == 0 {
            return Err(completion);
        }
        self.post_known(pair, completion);
        Ok(())
    }
}
