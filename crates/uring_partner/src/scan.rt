//! The scan of what is pending.

ghost use Rattle.std.specs.Prelude.{◌≡◌, ◌<◌, ◌&&◌, ◌||◌, not, [], ◌∷◌, length, slice_get, Some, ℕ};
ghost use Rattle.std.specs.VecDeque.{deque_len};
ghost use Rattle.uring_model.specs.Jobs.{linked};
ghost use Rattle.uring_partner.specs.Served.{Cursor, job_of, named, ready_cursors};

use crate::pending_list::PendingList;
use std::collections::VecDeque;
use uring_model::{Pending, has_link, is_drained};

/// Whether an entry is ready, by whether it waits for a linked one, whether none before it is
/// drained, whether it is drained itself, and whether it is the first.
fn may_settle(waits: bool, undrained: bool, drained: bool, first: bool) -> bool
    ensures { result ≡ (not waits && undrained && (not drained || first)) }
{
    !waits && undrained && (!drained || first)
}

/// Whether none is drained, this one included.
fn both_undrained(undrained: bool, drained: bool) -> bool
    ensures { result ≡ (undrained && not drained) }
{
    undrained && !drained
}

/// How many entries are ready.
pub fn count_ready(pending: &VecDeque<Pending>) -> usize
    ensures { result ≡ length (ready_cursors [] pending.now.items) }
{
    let mut count = 0;
    let mut waits = false;
    let mut undrained = true;
    for i in 0..pending.len() {
        let item = &pending[i];
        let drained = is_drained(&item.taken);
        if may_settle(waits, undrained, drained, i == 0) {
            count += 1;
        }
        waits = has_link(&item.taken);
        undrained = both_undrained(undrained, drained);
    }
    count
}

/// Where the entry stands that is in this place among the ready.
pub fn place_of_ready(pending: &VecDeque<Pending>, wanted: usize) -> usize
    requires { wanted < length (ready_cursors [] pending.now.items) }
    ensures { (c : Cursor) × (slice_get (ready_cursors [] pending.now.items) wanted ≡ Some c) × (length c.front ≡ result) }
{
    let mut left = wanted;
    let mut waits = false;
    let mut undrained = true;
    for i in 0..pending.len() {
        let item = &pending[i];
        let drained = is_drained(&item.taken);
        if may_settle(waits, undrained, drained, i == 0) {
            if left == 0 {
                return i;
            }
            left -= 1;
        }
        waits = has_link(&item.taken);
        undrained = both_undrained(undrained, drained);
    }
    unreachable!()
}

/// Where the ready entry stands that a choice names. The pending entries are scanned only where one
/// of them has a link or a drain.
pub fn chosen_place(pending: &PendingList, choice: u32) -> usize
    requires { 0 < deque_len pending.now.items }
    ensures { (c : Cursor) × (named choice (ready_cursors [] pending.now.items.items) ≡ Some c) × (length c.front ≡ result) }
{
    let half = (choice / 2) as usize;
    if half == 0 {
        return 0;
    }
    if pending.bound == 0 {
        return half % pending.items.len();
    }
    let count = count_ready(&pending.items);
    place_of_ready(&pending.items, half % count)
}
