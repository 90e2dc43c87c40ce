//! Large completions.

use uring_large::cqueue::{Entry, Entry32};

/// A large completion, the small one that it becomes, and its bytes: those of the small one, and
/// then the two numbers.
#[test]
fn bytes_of_completions(rt: HostRuntime) {
    let small = Entry::from_parts(0x42, -2, 0x30001, [5, 6]);
    let mut large = Entry32::from_parts(0x41, -2, 0x30001, [5, 0x600]);
    assert_eq!(rt; large.user_data(), 0x41);
    large.set_user_data(0x42);
    assert_eq!(rt; large.result(), -2);
    assert_eq!(rt; large.flags(), 0x30001);
    assert_eq!(rt; large.big_cqe().as_slice(), [5, 0x600].as_slice());
    assert_eq!(rt; Entry::from(large), small);
    let bytes = large.to_bytes();
    assert_eq!(rt; &bytes[..8], b"\x42\0\0\0\0\0\0\0".as_slice());
    assert_eq!(rt; &bytes[8..16], b"\xfe\xff\xff\xff\x01\0\x03\0".as_slice());
    assert_eq!(rt;
        &bytes[16..],
        b"\x05\0\0\0\0\0\0\0\0\x06\0\0\0\0\0\0".as_slice()
    );
    assert_eq!(rt; Entry32::from_bytes(&bytes), large);
}
