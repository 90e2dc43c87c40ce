use bitflags::Flags as _;
use std::test::Fail;
use uring_base::squeue::{Entry, Flags};
use uring_base::types::{Fd, Fixed, FsyncFlags, Target, UseTarget};
use uring_base::{Buf, Loan, Nums, cqueue, errno, limits};

/// Each call that can find no memory answers otherwise where there is memory.
#[test]
fn each_call(rt: HostRuntime) -> Result<(), Fail> {
    let alloc = rt.alloc();
    let buf = Buf::from_slice(alloc, b"abc")?;
    assert_eq!(rt; buf.try_clone(alloc)?.as_slice(), b"abc".as_slice());
    assert_eq!(rt; Buf::zeroed(alloc, 2)?.as_slice(), [0, 0].as_slice());
    let mut sized = buf.try_clone(alloc)?;
    sized.resize(alloc, 5)?;
    assert_eq!(rt; sized.as_slice(), b"abc\0\0".as_slice());
    sized.resize(alloc, 1)?;
    assert_eq!(rt; sized.as_slice(), b"a".as_slice());
    let loan = Loan {
        number: 7,
        from: 1,
        buf,
    };
    assert_eq!(rt; loan.try_clone(alloc)?.buf.as_slice(), b"abc".as_slice());
    let mut nums = Nums::new(alloc);
    nums.push(alloc, 5)?;
    assert_eq!(rt; nums.as_slice(), [5].as_slice());
    Ok(())
}

/// An entry on the registered file 5, with flags and without.
#[test]
fn flags_of_an_entry(rt: HostRuntime) {
    let entry = Entry::blank(22).on(Fixed(5).target()).user_data(0x42);
    assert_eq!(rt; entry.get_opcode(), 22);
    assert_eq!(rt; entry.word_fd(), 5);
    assert_eq!(rt; entry.get_user_data(), 0x42);
    assert_eq!(rt; entry.flag_bits(), 1);
    let linked = entry.flags(Flags::IO_LINK).flags(Flags::IO_DRAIN);
    assert_eq!(rt; linked.flag_bits(), 7);
    assert_eq!(rt; linked.clear_flags().flag_bits(), 0);
}

/// Each kind of target: a raw descriptor sets no flag, and an index is written as its 32 bits.
#[test]
fn targets(rt: HostRuntime) {
    let raw = Entry::blank(0).on(Target::from(Fd(-2)));
    assert_eq!(rt; raw.word_fd(), -2);
    assert_eq!(rt; raw.flag_bits(), 0);
    let registered = Entry::blank(0).on(Target::from(Fixed(u32::MAX)).target());
    assert_eq!(rt; registered.word_fd(), -1);
    assert_eq!(rt; registered.flag_bits(), 1);
    assert_eq!(rt; Entry::blank(0).on(Fd(7).target()).word_fd(), 7);
}

/// The flag types under the names and bits of the header.
#[test]
fn names_of_flags(rt: HostRuntime) {
    assert_eq!(rt;
        FsyncFlags::from_name("DATASYNC").map(|flags| flags.bits()),
        Some(1)
    );
    assert_eq!(rt; FsyncFlags::all().bits(), 1);
    assert_eq!(rt; (FsyncFlags::empty() | FsyncFlags::DATASYNC).bits(), 1);
    assert_eq!(rt;
        Flags::from_name("SKIP_SUCCESS").map(|flags| flags.bits()),
        Some(64)
    );
    assert_eq!(rt; Flags::all().bits(), 127);
    assert!(rt; Flags::IO_DRAIN < Flags::IO_LINK);
}

/// Each bit of a completion's flags, and the number of a buffer above them.
#[test]
fn flags_of_a_completion(rt: HostRuntime) {
    assert!(rt; cqueue::more(2) && cqueue::more(0x30003) && !cqueue::more(0x3000d));
    assert!(rt; cqueue::buffer_more(16) && !cqueue::buffer_more(0xf000f));
    assert!(rt; cqueue::sock_nonempty(4) && !cqueue::sock_nonempty(0x4001b));
    assert!(rt; cqueue::notif(8) && !cqueue::notif(0x80017));
    assert_eq!(rt; cqueue::buffer_select(0x30001), Some(3));
    assert_eq!(rt; cqueue::buffer_select(0x30000), None);
    assert_eq!(rt; cqueue::buffer_select(0xffff001f), Some(65535));
}

/// A read of 1024 bytes from the descriptor 5, under the number 0x42.
fn read_of_five() -> Entry {
    Entry {
        addr: 7,
        len: 1024,
        ..Entry::blank(22)
    }
    .on(Fd(5).target())
    .user_data(0x42)
}

/// A read's 64 bytes, word by word, and the entry that they hold.
#[test]
fn bytes_of_an_entry(rt: HostRuntime) {
    let bytes = read_of_five().to_bytes();
    assert_eq!(rt; &bytes[..8], b"\x16\0\0\0\x05\0\0\0".as_slice());
    assert_eq!(rt; &bytes[8..16], b"\0\0\0\0\0\0\0\0".as_slice());
    assert_eq!(rt; &bytes[16..24], b"\x07\0\0\0\0\0\0\0".as_slice());
    assert_eq!(rt; &bytes[24..32], b"\0\x04\0\0\0\0\0\0".as_slice());
    assert_eq!(rt; &bytes[32..40], b"\x42\0\0\0\0\0\0\0".as_slice());
    assert_eq!(rt; &bytes[40..], [0; 24].as_slice());
    assert_eq!(rt; Entry::from_bytes(&bytes), read_of_five());
}

/// The words of an entry whose bytes are all different.
#[test]
fn words_of_bytes(rt: HostRuntime) {
    let mut bytes = [0; 64];
    for i in 0..64u8 {
        bytes[usize::from(i)] = 0xc0 + i;
    }
    let entry = Entry::from_bytes(&bytes);
    assert_eq!(rt; entry.get_opcode(), 0xc0);
    assert_eq!(rt; entry.flag_bits(), 0xc1);
    assert_eq!(rt; entry.word_prio(), 0xc3c2);
    assert_eq!(rt; entry.word_fd().cast_unsigned(), 0xc7c6c5c4);
    assert_eq!(rt; entry.word_off(), 0xcfcecdcccbcac9c8);
    assert_eq!(rt; entry.word_addr(), 0xd7d6d5d4d3d2d1d0);
    assert_eq!(rt; entry.word_len(), 0xdbdad9d8);
    assert_eq!(rt; entry.word_op(), 0xdfdedddc);
    assert_eq!(rt; entry.get_user_data(), 0xe7e6e5e4e3e2e1e0);
    assert_eq!(rt; entry.word_buf(), 0xe9e8);
    assert_eq!(rt; entry.word_personality(), 0xebea);
    assert_eq!(rt; entry.word_idx(), 0xefeeedec);
    assert_eq!(rt; entry.word_third(), 0xf7f6f5f4f3f2f1f0);
    assert_eq!(rt; entry.word_fourth(), 0xfffefdfcfbfaf9f8);
    assert_eq!(rt; entry.to_bytes().as_slice(), bytes.as_slice());
}

/// A completion's 16 bytes, and the completion that they hold.
#[test]
fn bytes_of_a_completion(rt: HostRuntime) {
    let completion = cqueue::Entry::from_parts(0x42, -2, 0x30001, [5, 6]);
    let bytes = completion.to_bytes();
    assert_eq!(rt; &bytes[..8], b"\x42\0\0\0\0\0\0\0".as_slice());
    assert_eq!(rt; &bytes[8..], b"\xfe\xff\xff\xff\x01\0\x03\0".as_slice());
    assert_eq!(rt; cqueue::Entry::from_bytes(&bytes), completion);
}

/// The error numbers of `errno.h`, and the limits of the io_uring header.
#[test]
fn numbers_of_linux(rt: HostRuntime) {
    assert_eq!(rt; (errno::ENOENT, errno::EINTR, errno::EIO), (2, 4, 5));
    assert_eq!(rt; (errno::EBADF, errno::EEXIST, errno::ENOTDIR), (9, 17, 20));
    assert_eq!(rt; (errno::EISDIR, errno::EINVAL, errno::EMFILE), (21, 22, 24));
    assert_eq!(rt; (errno::EFBIG, errno::ENOTEMPTY), (27, 39));
    assert_eq!(rt; (errno::EOPNOTSUPP, errno::ECANCELED), (95, 125));
    assert_eq!(rt; limits::MAX_BUFFER, 0x7fff_ffff);
    assert_eq!(rt; limits::MAX_POSITION, 0x7fff_ffff_ffff_ffff);
    assert_eq!(rt;
        (limits::MAX_ENTRIES, limits::MAX_COMPLETIONS),
        (32768, 65536)
    );
    assert_eq!(rt; cqueue::BUFFER_SHIFT, 16);
}
