//! A complete binary tree of marks, in one list.
//!
//! Node 1 is the root, and nodes 2i and 2i + 1 stand below node i. The leaves are the nodes from
//! the limit on, one for each number below it. A node is full where both nodes below it are.

ghost use Rattle.std.specs.Prelude.{◌≡◌, ◌++◌, ◌+◌, ◌-◌, ◌*◌, ◌<◌, ◌≤◌, ◌&&◌, Some, true, false, not, length, drop, position, replicate, slice_index_or, slice_set, OnOk, OnErr};
ghost use Rattle.std.specs.Int.{IsPowerOfTwo};
ghost use Rattle.free_numbers.specs.Tree.{is_full, IsTree};

use std::alloc::AllocError;

/// Marks a leaf, and then the nodes above it, up to the first whose mark stays.
pub(crate) fn set_leaf(full: &mut [bool], limit: usize, number: usize, taken: bool)
    requires tree { IsTree limit full.old }
    requires within { number < limit }
    ensures tree { IsTree limit full.new }
    ensures leaves { drop limit full.new ≡ slice_set (drop limit full.old) number taken }
{
    let mut node = limit + number;
    full[node] = taken;
    while node > 1 {
        node /= 2;
        let joined = both_full(full, node);
        if full[node] == joined {
            return;
        }
        full[node] = joined;
    }
}

/// Whether both nodes below a node are full.
fn both_full(full: &[bool], node: usize) -> bool
    requires { 2 * node + 1 < length full.now }
    ensures { result ≡ is_full full.now (2 * node) && is_full full.now (2 * node + 1) }
{
    full[2 * node] && full[2 * node + 1]
}

/// The number of the first leaf that isn't full, by the nodes that aren't from the root down.
pub(crate) fn first_free(full: &[bool], limit: usize) -> usize
    requires tree { IsTree limit full.now }
    requires some { 0 < limit }
    requires root { is_full full.now 1 ≡ false }
    ensures { position not (drop limit full.now) ≡ Some result }
{
    let mut node = 1;
    while node < limit {
        node *= 2;
        if full[node] {
            node += 1;
        }
    }
    node - limit
}

/// Makes the tree larger, or leaves it as it is.
pub(crate) fn widen(full: &mut Vec<bool>, old: usize, limit: usize) -> Result<(), AllocError>
    requires tree { IsTree old full.old.items }
    requires larger { old < limit }
    requires power { IsPowerOfTwo limit }
    ensures tree { OnOk result (IsTree limit full.new.items) }
    ensures leaves { OnOk result (drop limit full.new.items ≡ drop old full.old.items ++ replicate (limit - old) false) }
    ensures err { OnErr result (full.new.items ≡ full.old.items) }
{
    let nodes = limit.checked_mul(2).ok_or(AllocError)?;
    full.resize(nodes, false)?;
    full.copy_within(old..2 * old, limit);
    join_all(full, limit);
    Ok(())
}

/// Makes each node above the leaves full where both below it are, the lowest ones first.
fn join_all(full: &mut [bool], limit: usize)
    requires long { length full.old ≡ 2 * limit }
    requires power { IsPowerOfTwo limit }
    ensures tree { IsTree limit full.new }
    ensures leaves { drop limit full.new ≡ drop limit full.old }
{
    for node in (1..limit).rev() {
        full[node] = both_full(full, node);
    }
}
