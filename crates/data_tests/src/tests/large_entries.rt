//! Large submission entries.

use uring_base::squeue::Flags;
use uring_large::squeue::{Entry, Entry128};

/// A large entry: its setters, and its bytes, of which the last 64 lie behind those of a small one.
#[test]
fn large_entries(rt: HostRuntime) {
    let mut large = Entry128::from(Entry::blank(46));
    assert_eq!(rt; large.big.as_slice(), [0; 64].as_slice());
    large.big[63] = 9;
    let large = large
        .flags(Flags::ASYNC)
        .flags(Flags::IO_LINK)
        .personality(0x102)
        .user_data(3);
    assert_eq!(rt; large.get_opcode(), 46);
    assert_eq!(rt; large.get_user_data(), 3);
    assert_eq!(rt; large.entry.flag_bits(), 20);
    assert_eq!(rt; large.clear_flags().entry.flag_bits(), 0);
    let bytes = large.to_bytes();
    assert_eq!(rt; &bytes[..2], [46, 20].as_slice());
    assert_eq!(rt; &bytes[42..44], [2, 1].as_slice());
    assert_eq!(rt; &bytes[64..127], [0; 63].as_slice());
    assert_eq!(rt; bytes[127], 9);
    assert_eq!(rt; Entry128::from_bytes(&bytes), large);
}
