use crate::tests::helpers::{assert_moves, engine_of, posting, wait_a_turn};
use rent_engine::{Engine, OpState, Poll};
use rent_fs::{File, FsError, Metadata, fs};
use std::alloc::Global;
use std::fmt::Debug;
use std::process::Abort;
use uring_base::Buf;
use uring_base::errno::{EBADF, EEXIST, EIO, ENOENT};
use uring_partner::HostilePartner;
use uring_ring::IoUring;

fn path(rt: &impl Abort, alloc: Global, text: &str) -> Buf {
    Buf::from_slice(alloc, text.as_bytes()).expect(rt, "memory")
}

fn os<T>(errno: i32) -> Result<T, FsError> {
    Err(FsError::Os(errno.unsigned_abs()))
}

/// Asserts that a state waits for so many turns, and then gives this output.
fn assert_gives<T: OpState>(
    rt: &impl Abort,
    alloc: Global,
    engine: &mut Engine<IoUring>,
    partner: &mut HostilePartner,
    task: &mut T,
    turns: u32,
    output: T::Output,
)
where
    T::Output: PartialEq + Debug + Drop,
{
    for _ in 0..turns {
        wait_a_turn(rt, alloc, engine, partner, task);
    }
    assert!(rt; !task.is_done());
    match task.poll(alloc, engine) {
        Poll::Ready(given) => assert_eq!(rt; given, output),
        Poll::Pending => assert!(rt; false, "pending"),
    }
    assert!(rt; task.is_done());
}

/// A close is done whatever its result, and a stat's missing bytes count as 0.
#[test]
fn closes_and_stats(rt: HostRuntime) {
    let alloc = rt.alloc();
    let mut partner = posting(&rt, alloc, &[-EBADF, 0, -ENOENT]);
    let mut engine = engine_of(&rt, alloc, 1);
    close_and_stat(&rt, alloc, &mut engine, &mut partner);
}

fn close_and_stat(
    rt: &impl Abort,
    alloc: Global,
    engine: &mut Engine<IoUring>,
    partner: &mut HostilePartner,
) {
    let mut close = File::of_number(3).close();
    assert_gives(rt, alloc, engine, partner, &mut close, 1, Ok(()));
    // The path itself comes back, as two bytes of a record.
    let mut stat = fs::metadata(path(rt, alloc, "ab"));
    let told = Ok(Metadata::from_bytes(b"ab"));
    assert_gives(rt, alloc, engine, partner, &mut stat, 1, told);
    assert_eq!(rt; Metadata::from_bytes(b"ab").dev(), 0x6261);
    let mut missing = File::of_number(3).metadata();
    assert_gives(rt, alloc, engine, partner, &mut missing, 1, os(ENOENT));
}

/// A creation without a parent, and what stands where one fails with another error: the path
/// comes back from the stat, and the eighteenth byte says whether it is a directory.
#[test]
fn creations(rt: HostRuntime) {
    let alloc = rt.alloc();
    let results = [-ENOENT, -ENOENT, -EEXIST, 0, -EEXIST, 0];
    let mut partner = posting(&rt, alloc, &results);
    let mut engine = engine_of(&rt, alloc, 1);
    create_three(&rt, alloc, &mut engine, &mut partner);
}

fn create_three(
    rt: &impl Abort,
    alloc: Global,
    engine: &mut Engine<IoUring>,
    partner: &mut HostilePartner,
) {
    let mut lonely = fs::create_dir_all(path(rt, alloc, "p/q"));
    let whole = Err(FsError::WholeTree);
    assert_gives(rt, alloc, engine, partner, &mut lonely, 2, whole);
    let mut there = fs::create_dir_all(path(rt, alloc, "xxxxxxxxxxxxxxxxx@"));
    assert_gives(rt, alloc, engine, partner, &mut there, 2, Ok(()));
    let mut other = fs::create_dir_all(path(rt, alloc, "xxxxxxxxxxxxxxxxxx"));
    assert_gives(rt, alloc, engine, partner, &mut other, 2, os(EEXIST));
}

/// A file that is read or written whole is closed, also after an error.
#[test]
fn whole_files_are_closed(rt: HostRuntime) {
    let alloc = rt.alloc();
    let mut partner = posting(&rt, alloc, &[5, -EIO, -EIO, 5, 3, 0, -EIO, -ENOENT]);
    let mut engine = engine_of(&rt, alloc, 1);
    read_and_write(&rt, alloc, &mut engine, &mut partner);
}

fn read_and_write(
    rt: &impl Abort,
    alloc: Global,
    engine: &mut Engine<IoUring>,
    partner: &mut HostilePartner,
) {
    let mut read = fs::read(path(rt, alloc, "f"));
    for _ in 0..3 {
        wait_a_turn(rt, alloc, engine, partner, &mut read);
    }
    assert!(rt; !read.is_done());
    match read.poll(alloc, engine) {
        Poll::Ready(Err(error)) => assert_eq!(rt; error, FsError::Os(EIO.unsigned_abs())),
        Poll::Ready(Ok(_)) => assert!(rt; false, "read"),
        Poll::Pending => assert!(rt; false, "pending"),
    }
    write_none(rt, alloc, engine, partner, 4, Err(FsError::WriteZero));
    write_none(rt, alloc, engine, partner, 1, os(ENOENT));
}

fn write_none(
    rt: &impl Abort,
    alloc: Global,
    engine: &mut Engine<IoUring>,
    partner: &mut HostilePartner,
    turns: u32,
    answer: Result<(), FsError>,
) {
    let contents = path(rt, alloc, "hello");
    let mut write = fs::write(path(rt, alloc, "f"), contents);
    for _ in 0..turns {
        wait_a_turn(rt, alloc, engine, partner, &mut write);
    }
    assert_moves(rt, alloc, engine, &mut write, answer, b"hello");
}
