//! Entries and completions of both sizes, by their markers.

use uring_base::types::{Fd, UseTarget};
use uring_large::squeue::{Entry, Entry128};
use uring_large::{cqueue, squeue};

/// An entry of either size under another number: that number, the small entry, and the last of the
/// bytes behind it.
fn renumbered<E: squeue::EntryMarker>(mut entry: E, number: u64) -> (u64, Entry, u8) {
    entry.set_user_data(number);
    (entry.get_user_data(), entry.base(), entry.big()[63])
}

/// A completion of either size under another number: that number, what else it holds, and what it
/// becomes.
fn told<C: cqueue::EntryMarker>(number: u64) -> (u64, [u64; 2], cqueue::Entry) {
    let mut completion = C::from_posted(1, -5, 2, false, [7, 8]);
    completion.set_user_data(number);
    (completion.user_data(), completion.big(), completion.into())
}

/// A number that is replaced reads as the new one, for entries and completions of both sizes.
#[test]
fn numbers(rt: HostRuntime) {
    let nop = Entry::blank(0).on(Fd(-1).target());
    assert_eq!(rt; nop.user_data(1).get_user_data(), 1);
    assert_eq!(rt; renumbered(nop.user_data(1), 2), (2, nop.user_data(2), 0));
    let mut large = Entry128::from(nop);
    large.big[63] = 9;
    assert_eq!(rt; large.user_data(3).get_user_data(), 3);
    assert_eq!(rt; renumbered(large.user_data(3), 4), (4, nop.user_data(4), 9));
    let small = cqueue::Entry::from_parts(2, -5, 2, [0; 2]);
    assert_eq!(rt; told::<cqueue::Entry>(2), (2, [0; 2], small));
    let small = cqueue::Entry::from_parts(4, -5, 2, [0; 2]);
    assert_eq!(rt; told::<cqueue::Entry32>(4), (4, [7, 8], small));
    assert_eq!(rt; <Entry as squeue::EntryMarker>::BUILD_FLAGS, 0);
    assert_eq!(rt; <Entry128 as squeue::EntryMarker>::BUILD_FLAGS, 1024);
    assert_eq!(rt; <cqueue::Entry as cqueue::EntryMarker>::BUILD_FLAGS, 0);
    assert_eq!(rt; <cqueue::Entry32 as cqueue::EntryMarker>::BUILD_FLAGS, 2048);
}
