//! Lists of entries of either size as bytes.

use std::test::Fail;
use uring_base::types::Fd;
use uring_large::cqueue::{self, Entry32, MixedCompletion};
use uring_large::squeue::{Entry, Entry128, EntryMarker, MixedEntry};
use uring_mixed::{
    MixedFault, decode_completions, decode_entries, encode_completions, encode_entries,
};
use uring_ops_file::Read;

fn read() -> MixedEntry {
    Read::new(Fd(5), 7, 1024).build().user_data(0x42).into()
}

/// Each call that can find no memory answers otherwise where there is memory.
#[test]
fn each_call_of_the_lists(rt: HostRuntime) -> Result<(), Fail> {
    let alloc = rt.alloc();
    let entries = encode_entries(alloc, &[read()])?;
    assert_eq!(rt; decode_entries(alloc, entries.as_slice())?.len(), 1);
    let done = MixedCompletion::Small(cqueue::Entry::from_parts(1, 0, 0, [0; 2]));
    let completions = encode_completions(alloc, &[done, done])?;
    assert_eq!(rt; completions.len(), 34);
    let back = decode_completions(alloc, completions.as_slice())?;
    assert_eq!(rt; (back.len(), back.is_empty()), (2, false));
    Ok(())
}

/// A small entry is its mark and its 64 bytes.
#[test]
fn a_small_entry(rt: HostRuntime) -> Result<(), Fail> {
    let bytes = encode_entries(rt.alloc(), &[read()])?;
    let mut wanted = [0; 65];
    wanted[0] = 1;
    wanted[1..9].copy_from_slice(&[0x16, 0, 0, 0, 5, 0, 0, 0]);
    wanted[17] = 7;
    wanted[26] = 4;
    wanted[33] = 0x42;
    assert_eq!(rt; bytes.as_slice(), wanted.as_slice());
    let entries = decode_entries(rt.alloc(), bytes.as_slice())?;
    assert_eq!(rt; entries.as_slice(), [read()].as_slice());
    Ok(())
}

/// What isn't whole is told by its first byte, a last mark with nothing behind it too.
#[test]
fn entries_that_are_not_whole(rt: HostRuntime) -> Result<(), Fail> {
    let alloc = rt.alloc();
    let bytes = encode_entries(alloc, &[read()])?;
    assert_eq!(rt; bytes.len(), 65);
    let mut longer = [2; 66];
    longer[..65].copy_from_slice(bytes.as_slice());
    let fault = decode_entries(alloc, &longer).err();
    assert_eq!(rt; fault, Some(MixedFault::Cut(65)));
    assert_eq!(rt;
        decode_entries(alloc, &[3]).err(),
        Some(MixedFault::Mark(0))
    );
    longer[65] = 0;
    let fault = decode_entries(alloc, &longer).err();
    assert_eq!(rt; fault, Some(MixedFault::Mark(65)));
    let fault = decode_entries(alloc, &bytes.as_slice()[..64]).err();
    assert_eq!(rt; fault, Some(MixedFault::Cut(0)));
    assert_eq!(rt; decode_entries(alloc, &[])?.len(), 0);
    Ok(())
}

/// A large entry has a mark of its own, and 128 bytes.
#[test]
fn entries_of_both_sizes(rt: HostRuntime) -> Result<(), Fail> {
    let mut large = Entry128::from(Entry::blank(46));
    large.big[63] = 9;
    let entries = [large.into(), read(), large.into()];
    let bytes = encode_entries(rt.alloc(), &entries)?;
    assert_eq!(rt; bytes.len(), 323);
    let all = bytes.as_slice();
    assert_eq!(rt; (all[0], all[1], all[128]), (2, 46, 9));
    assert_eq!(rt; (all[129], all[194]), (1, 2));
    let back = decode_entries(rt.alloc(), all)?;
    assert_eq!(rt; back.as_slice(), entries.as_slice());
    Ok(())
}

/// Completions have 16 and 32 bytes behind their marks.
#[test]
fn completions_of_both_sizes(rt: HostRuntime) -> Result<(), Fail> {
    let small = MixedCompletion::Small(cqueue::Entry::from_parts(0x42, -2, 3, [0; 2]));
    let large = MixedCompletion::Large(Entry32::from_parts(0x41, 1, 0, [5, 0x600]));
    let bytes = encode_completions(rt.alloc(), &[small, large])?;
    assert_eq!(rt; bytes.len(), 50);
    let all = bytes.as_slice();
    assert_eq!(rt; &all[..9], b"\x01\x42\0\0\0\0\0\0\0".as_slice());
    assert_eq!(rt; &all[9..17], b"\xfe\xff\xff\xff\x03\0\0\0".as_slice());
    assert_eq!(rt; (all[17], all[18], all[26], all[34]), (2, 0x41, 1, 5));
    assert_eq!(rt; (all[42], all[43]), (0, 6));
    let back = decode_completions(rt.alloc(), all)?;
    assert_eq!(rt; back.as_slice(), [small, large].as_slice());
    let fault = decode_completions(rt.alloc(), &all[..49]).err();
    assert_eq!(rt; fault, Some(MixedFault::Cut(17)));
    assert_eq!(rt;
        decode_completions(rt.alloc(), &[4]).err(),
        Some(MixedFault::Mark(0))
    );
    Ok(())
}

/// What a value of either size tells, and what changes with its number.
#[test]
fn marks_of_mixed_values(rt: HostRuntime) {
    let mut large = Entry128::from(Entry::blank(0));
    large.big[0] = 8;
    let mut entry = MixedEntry::from(large);
    entry.set_user_data(4);
    assert_eq!(rt; entry, MixedEntry::Large(large.user_data(4)));
    assert_eq!(rt; (entry.is_large(), read().is_large()), (true, false));
    assert_eq!(rt; (entry.big()[0], read().big()[0]), (8, 0));
    assert_eq!(rt; <MixedEntry as EntryMarker>::BUILD_FLAGS, 0);
    assert_eq!(rt; <MixedCompletion as cqueue::EntryMarker>::BUILD_FLAGS, 0);
    let words = cqueue::Entry::from_parts(3, -5, 2, [0; 2]);
    let large = MixedCompletion::Large(Entry32::from_parts(3, -5, 2, [7, 8]));
    assert_eq!(rt; cqueue::Entry::from(large), words);
    assert_eq!(rt; cqueue::Entry::from(MixedCompletion::Small(words)), words);
}

#[test]
fn texts_of_faults(rt: HostRuntime) -> Result<(), Fail> {
    let text = format!(in rt.alloc(); "{}, {}", MixedFault::Mark(3), MixedFault::Cut(65))?;
    assert_eq!(rt; text.as_str(), "no mark at byte 3, entry cut at byte 65");
    let text = format!(in rt.alloc(); "{}", MixedFault::NoMemory)?;
    assert_eq!(rt; text.as_str(), "no memory");
    Ok(())
}
