use crate::tests::helpers::{assert_gives, engine_of, os, path, poll_through};
use rent_engine::{Engine, Poll};
use rent_fs::{FsError, Metadata, Moment, Stat, fs};
use std::alloc::Global;
use std::process::Abort;
use uring_base::Buf;
use uring_base::errno::{EEXIST, ENOENT, ENOTEMPTY};
use uring_partner::MemoryPartner;
use uring_ring::IoUring;

/// A file in a directory, from its making to its removal.
#[test]
fn a_file_by_its_path(rt: HostRuntime) {
    let alloc = rt.alloc();
    let mut engine = engine_of(&rt, alloc);
    let mut partner = MemoryPartner::new(alloc);
    make_the_directories(&rt, alloc, &mut engine, &mut partner);
    write_hello(&rt, alloc, &mut engine, &mut partner);
    read_hello(&rt, alloc, &mut engine, &mut partner);
    ask_what_it_is(&rt, alloc, &mut engine, &mut partner);
    rename_and_remove(&rt, alloc, &mut engine, &mut partner);
}

fn make_the_directories(
    rt: &impl Abort,
    alloc: Global,
    engine: &mut Engine<IoUring>,
    partner: &mut MemoryPartner,
) {
    let mut both = fs::create_dir_all(path(rt, alloc, "a/b"));
    assert_gives(rt, alloc, engine, partner, &mut both, 3, Ok(()));
    let mut again = fs::create_dir(path(rt, alloc, "a"));
    assert_gives(rt, alloc, engine, partner, &mut again, 1, os(EEXIST));
}

/// The file is opened, written and closed; an empty one isn't written.
fn write_hello(
    rt: &impl Abort,
    alloc: Global,
    engine: &mut Engine<IoUring>,
    partner: &mut MemoryPartner,
) {
    write_bytes(rt, alloc, engine, partner, b"hello", 3);
    write_bytes(rt, alloc, engine, partner, b"", 2);
    read_bytes(rt, alloc, engine, partner, b"", 3);
    write_bytes(rt, alloc, engine, partner, b"hello", 3);
}

fn write_bytes(
    rt: &impl Abort,
    alloc: Global,
    engine: &mut Engine<IoUring>,
    partner: &mut MemoryPartner,
    bytes: &[u8],
    turns: u32,
) {
    let contents = Buf::from_slice(alloc, bytes).expect(rt, "memory");
    let mut task = fs::write(path(rt, alloc, "a/f"), contents);
    match poll_through(rt, alloc, engine, partner, &mut task, turns) {
        Poll::Ready((done, buf)) => {
            assert_eq!(rt; done, Ok(()));
            assert_eq!(rt; buf.as_slice(), bytes);
        }
        Poll::Pending => assert!(rt; false, "pending"),
    }
}

fn read_hello(
    rt: &impl Abort,
    alloc: Global,
    engine: &mut Engine<IoUring>,
    partner: &mut MemoryPartner,
) {
    read_bytes(rt, alloc, engine, partner, b"hello", 4);
    let mut missing = fs::read(path(rt, alloc, "a/g"));
    match poll_through(rt, alloc, engine, partner, &mut missing, 1) {
        Poll::Ready(Err(error)) => assert_eq!(rt; error, FsError::Os(ENOENT.unsigned_abs())),
        Poll::Ready(Ok(_)) => assert!(rt; false, "read"),
        Poll::Pending => assert!(rt; false, "pending"),
    }
}

/// The file is opened, asked for its size, read and closed; an empty one isn't read.
fn read_bytes(
    rt: &impl Abort,
    alloc: Global,
    engine: &mut Engine<IoUring>,
    partner: &mut MemoryPartner,
    bytes: &[u8],
    turns: u32,
) {
    let mut task = fs::read(path(rt, alloc, "a/f"));
    match poll_through(rt, alloc, engine, partner, &mut task, turns) {
        Poll::Ready(Ok(buf)) => assert_eq!(rt; buf.as_slice(), bytes),
        Poll::Ready(Err(_)) => assert!(rt; false, "not read"),
        Poll::Pending => assert!(rt; false, "pending"),
    }
}

fn ask_what_it_is(
    rt: &impl Abort,
    alloc: Global,
    engine: &mut Engine<IoUring>,
    partner: &mut MemoryPartner,
) {
    let mut stat = fs::metadata(path(rt, alloc, "a/f"));
    assert_is_hello(rt, alloc, engine, partner, &mut stat);
    let mut link = fs::symlink_metadata(path(rt, alloc, "a/f"));
    assert_is_hello(rt, alloc, engine, partner, &mut link);
}

fn assert_is_hello(
    rt: &impl Abort,
    alloc: Global,
    engine: &mut Engine<IoUring>,
    partner: &mut MemoryPartner,
    stat: &mut Stat,
) {
    match poll_through(rt, alloc, engine, partner, stat, 1) {
        Poll::Ready(Ok(metadata)) => assert_words(rt, &metadata),
        Poll::Ready(Err(_)) => assert!(rt; false, "no metadata"),
        Poll::Pending => assert!(rt; false, "pending"),
    }
}

fn assert_words(rt: &impl Abort, metadata: &Metadata) {
    assert!(rt; metadata.is_file());
    assert!(rt; !metadata.is_dir());
    assert!(rt; !metadata.is_symlink());
    assert_eq!(rt; metadata.len(), 5);
    assert_eq!(rt; metadata.mode(), 0o100666);
    assert_eq!(rt; metadata.created(), Err(FsError::NoBirthTime));
    assert_eq!(rt; metadata.modified(), Moment { secs: 0, nanos: 0 });
    assert_eq!(rt; metadata.nlink(), 1);
    assert_eq!(rt; metadata.blksize(), 4096);
    assert_eq!(rt; metadata.blocks(), 1);
    assert!(rt; !metadata.permissions().readonly());
}

fn rename_and_remove(
    rt: &impl Abort,
    alloc: Global,
    engine: &mut Engine<IoUring>,
    partner: &mut MemoryPartner,
) {
    let mut rename = fs::rename(path(rt, alloc, "a/f"), path(rt, alloc, "a/g"));
    assert_gives(rt, alloc, engine, partner, &mut rename, 1, Ok(()));
    let mut again = fs::rename(path(rt, alloc, "a/f"), path(rt, alloc, "a/g"));
    assert_gives(rt, alloc, engine, partner, &mut again, 1, os(ENOENT));
    let mut full = fs::remove_dir(path(rt, alloc, "a"));
    assert_gives(rt, alloc, engine, partner, &mut full, 1, os(ENOTEMPTY));
    let mut file = fs::remove_file(path(rt, alloc, "a/g"));
    assert_gives(rt, alloc, engine, partner, &mut file, 1, Ok(()));
    let mut lower = fs::remove_dir(path(rt, alloc, "a/b"));
    assert_gives(rt, alloc, engine, partner, &mut lower, 1, Ok(()));
    let mut upper = fs::remove_dir(path(rt, alloc, "a"));
    assert_gives(rt, alloc, engine, partner, &mut upper, 1, Ok(()));
}
