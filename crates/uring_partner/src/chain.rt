//! Cuts and marks.

ghost use Rattle.std.specs.Prelude.{◌≡◌, ◌<◌, ◌&&◌, ◌||◌, ◌++◌, not, false, nat_eq, List, length, MatchOption};
ghost use Rattle.std.specs.VecDeque.{deque_len};
ghost use Rattle.uring_model.specs.Jobs.{linked, is_soft};
ghost use Rattle.uring_model.specs.Partner.{job_of, has_unmarked, mark_first, mark_first_if, pass, pass_end};
ghost use Rattle.uring_model.specs.declared.pending.Pending.{Pending};
ghost use Rattle.uring_partner.specs.Bound.{bound_in};
ghost use Rattle.uring_partner.specs.Marks.{IsFirstUnmarked, IsToldCut};

use std::collections::VecDeque;
use uring_base::Taken;
use uring_model::{Pending, has_link, has_soft_link};

/// Whether an entry cuts the one that hangs on it, by whether it is cut itself and whether its
/// result is below the least that it was due.
pub fn cuts_next(taken: &Taken, cut: bool, bad: bool) -> bool
    ensures { result ≡ (linked (job_of taken.now).link && (cut || (is_soft (job_of taken.now).link && bad))) }
{
    has_link(taken) && (cut || (has_soft_link(taken) && bad))
}

/// Whether a cancel of this number marks the entry.
fn is_target(item: &Pending, number: u64) -> bool
    ensures { result ≡ (nat_eq item.now.taken.entry.user_data number && not item.now.marked) }
{
    item.taken.entry.user_data == number && !item.marked
}

/// The first unmarked entry with this number.
pub fn find_unmarked(pending: &VecDeque<Pending>, number: u64) -> Option<usize>
    ensures { MatchOption result (has_unmarked number pending.now.items ≡ false) (λ place. IsFirstUnmarked number pending.now.items place) }
{
    for i in 0..pending.len() {
        let item = &pending[i];
        if is_target(item, number) {
            return Some(i);
        }
    }
    None
}

/// Whether there is an unmarked entry with this number.
pub fn can_mark(pending: &VecDeque<Pending>, number: u64) -> bool
    ensures { result ≡ has_unmarked number pending.now.items }
{
    match find_unmarked(pending, number) {
        Some(_) => true,
        None => false,
    }
}

/// Marks the first unmarked entry with this number.
fn mark_one(pending: &mut VecDeque<Pending>, number: u64)
    ensures marked { pending.new.items ≡ mark_first number pending.old.items }
    ensures bound { bound_in pending.new.items ≡ bound_in pending.old.items }
{
    match find_unmarked(pending, number) {
        Some(place) => pending[place].marked = true,
        None => {}
    }
}

/// Marks what a settling marks.
pub fn mark_if(pending: &mut VecDeque<Pending>, marks: Option<u64>)
    ensures marked { pending.new.items ≡ mark_first_if marks pending.old.items }
    ensures bound { bound_in pending.new.items ≡ bound_in pending.old.items }
{
    match marks {
        Some(number) => mark_one(pending, number),
        None => {}
    }
}

/// Tells the entry at `place` whether it is cut.
pub fn tell_cut(pending: &mut VecDeque<Pending>, place: usize, cut: bool)
    requires { place < deque_len pending.old }
    ensures told { IsToldCut pending.old.items place cut pending.new.items }
    ensures bound { bound_in pending.new.items ≡ bound_in pending.old.items }
{
    pending[place].cut = cut;
}

/// Tells the entry at `place`, or the one that is taken next, whether it is cut.
pub fn pass_on(
    pending: &mut VecDeque<Pending>,
    tail: &mut Option<bool>,
    place: usize,
    is_linked: bool,
    cut: bool,
)
    ensures pending { (front back : List Pending) → pending.old.items ≡ front ++ back → length front ≡ place → pending.new.items ≡ front ++ pass is_linked cut back }
    ensures tail { (front back : List Pending) → pending.old.items ≡ front ++ back → length front ≡ place → tail.new ≡ pass_end is_linked cut back tail.old }
    ensures bound { bound_in pending.new.items ≡ bound_in pending.old.items }
{
    if is_linked {
        if place < pending.len() {
            tell_cut(pending, place, cut);
        } else {
            *tail = Some(cut);
        }
    }
}
