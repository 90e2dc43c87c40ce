use uring_base::types::{Fd, Fixed, Target};
use uring_ops_file::{Close, Read, Write};

/// A Read of 1024 bytes from the descriptor 5 into the loan 7, in its 64 bytes: the lowest of each
/// word first.
#[test]
fn bytes_of_a_read(rt: HostRuntime) {
    let bytes = Read::new(Fd(5), 7, 1024).build().user_data(0x42).to_bytes();
    let mut wanted = [0; 64];
    wanted[..8].copy_from_slice(&[0x16, 0, 0, 0, 5, 0, 0, 0]);
    wanted[16] = 7;
    wanted[25] = 4;
    wanted[32] = 0x42;
    assert_eq!(rt; bytes, wanted);
}

/// What stands for either kind of target is taken as each kind, and the last call of a setter wins.
#[test]
fn targets_and_setters_called_twice(rt: HostRuntime) {
    let write = Write::new(Target::Fixed(u32::MAX), 2, 3)
        .offset(4)
        .offset(5);
    let entry = write.build();
    assert_eq!(rt; (entry.fd, entry.off, entry.flag_bits()), (-1, 5, 1));
    let entry = Write::new(Target::Fd(1), 2, 3).build();
    assert_eq!(rt; (entry.fd, entry.off, entry.flag_bits()), (1, 0, 0));
}

/// The greatest index that can be closed.
#[test]
fn closing_of_the_last_file(rt: HostRuntime) {
    let entry = Close::new(Fixed(0xffff_fffe)).build();
    assert_eq!(rt;
        (entry.fd, entry.idx, entry.flag_bits()),
        (0, 0xffff_ffff, 0)
    );
}
