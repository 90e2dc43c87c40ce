//! What is still to be offered.

ghost use Rattle.std.specs.Prelude.{◌≡◌, ◌∷◌, ◌+◌, ◌<◌, ◌^◌, [], true, false, MatchOption, IfSome};
ghost use Rattle.uring_model.specs.Jobs.{model_job, is_valid_job};
ghost use Rattle.run_loop.specs.Entries.{AllValid, offer_of, offers_from};

use crate::entries::unlinked_if;
use std::collections::VecDeque;
use std::marker::Model;
use uring_model::Job;

/// A job and its number.
#[derive(Drop)]
pub struct Due {
    pub number: u64,
    pub job: Job,
}

/// The jobs that are still to be offered, seen as the entries that they become. An entry is made
/// when its turn comes, so no list of all entries is built before the run.
#[derive(Drop)]
pub struct OfferQueue {
    jobs: VecDeque<Job>,
    // The number of the job in front.
    number: u64,
}

impl Model for OfferQueue {
    ghost use Rattle.std.specs.Prelude.{◌+◌, ◌<◌, ◌^◌, List, length};
    ghost use Rattle.run_loop.specs.Entries.{AllValid, offers_from};
    ghost use Rattle.run_loop.specs.declared.entries.Offer.{Offer};

    ghost Value = { List Offer };

    ghost view = { λ offers. offers_from offers.number offers.jobs.items };

    ghost invariant = { λ offers. AllValid offers.jobs.items × (offers.number + length offers.jobs.items < 2 ^ 64) };
}

impl OfferQueue {
    /// The entries of all jobs, in their order.
    pub fn new(jobs: Vec<Job>) -> OfferQueue
        requires { AllValid jobs.items }
        ensures { result ≡ offers_from 0 jobs.items }
    {
        OfferQueue {
            jobs: VecDeque::from_vec(jobs),
            number: 0,
        }
    }

    /// Takes the job in front, if one is left; the last one has no link.
    pub fn pop_front(&mut self) -> Option<Due>
        ensures front { MatchOption result ((self.old ≡ []) × (self.new ≡ [])) (λ due. self.old ≡ offer_of due.number due.job ∷ self.new) }
        ensures valid { IfSome result (λ due. is_valid_job false (model_job due.job) ≡ true) }
        ensures bound { IfSome result (λ due. due.number + 1 < 2 ^ 64) }
    {
        let job = self.jobs.pop_front()?;
        let number = self.number;
        self.number += 1;
        let job = unlinked_if(self.jobs.is_empty(), job);
        Some(Due { number, job })
    }
}
