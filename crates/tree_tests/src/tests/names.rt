use crate::tests::helpers::{assert_gives, engine_of, os, path};
use rent_engine::Engine;
use rent_fs::{DirBuilder, File, OpenOptions, fs};
use std::alloc::Global;
use std::process::Abort;
use uring_base::errno::{EEXIST, EINVAL, EISDIR, ENOENT, ENOTDIR};
use uring_base::squeue::Flags;
use uring_partner::MemoryPartner;
use uring_ring::IoUring;

/// Three tries on the way up, and two on the way down; a stat of what is there already; one try below
/// what is there; and none of an empty path.
#[test]
fn directories_with_those_above(rt: HostRuntime) {
    let alloc = rt.alloc();
    let mut engine = engine_of(&rt, alloc);
    let mut partner = MemoryPartner::new(alloc);
    make_all(&rt, alloc, &mut engine, &mut partner, "p/q/r", 5);
    make_all(&rt, alloc, &mut engine, &mut partner, "p/q/r", 2);
    make_all(&rt, alloc, &mut engine, &mut partner, "/p/q//s//", 1);
    make_all(&rt, alloc, &mut engine, &mut partner, "/x//y//", 3);
    make_all(&rt, alloc, &mut engine, &mut partner, "", 0);
}

fn make_all(
    rt: &impl Abort,
    alloc: Global,
    engine: &mut Engine<IoUring>,
    partner: &mut MemoryPartner,
    text: &str,
    turns: u32,
) {
    let mut task = fs::create_dir_all(path(rt, alloc, text)).with_number(7);
    assert_gives(rt, alloc, engine, partner, &mut task, turns, Ok(()));
}

/// What stands in the way of a directory is told.
#[test]
fn directories_that_are_not_made(rt: HostRuntime) {
    let alloc = rt.alloc();
    let mut engine = engine_of(&rt, alloc);
    let mut partner = MemoryPartner::new(alloc);
    make_twice(&rt, alloc, &mut engine, &mut partner);
    make_below_a_file(&rt, alloc, &mut engine, &mut partner);
}

fn make_twice(
    rt: &impl Abort,
    alloc: Global,
    engine: &mut Engine<IoUring>,
    partner: &mut MemoryPartner,
) {
    let mut first = fs::create_dir(path(rt, alloc, "a"));
    assert_gives(rt, alloc, engine, partner, &mut first, 1, Ok(()));
    let mut second = fs::create_dir(path(rt, alloc, "a"));
    assert_gives(rt, alloc, engine, partner, &mut second, 1, os(EEXIST));
    let mut below = DirBuilder::new().create(path(rt, alloc, "b/c"));
    assert_gives(rt, alloc, engine, partner, &mut below, 1, os(ENOENT));
}

/// The creation's error is the answer where what stands there is no directory.
fn make_below_a_file(
    rt: &impl Abort,
    alloc: Global,
    engine: &mut Engine<IoUring>,
    partner: &mut MemoryPartner,
) {
    let mut file = File::create(path(rt, alloc, "a/f"));
    assert_gives(
        rt,
        alloc,
        engine,
        partner,
        &mut file,
        1,
        Ok(File::of_number(0)),
    );
    let mut in_place = fs::create_dir_all(path(rt, alloc, "a/f"));
    assert_gives(rt, alloc, engine, partner, &mut in_place, 2, os(EEXIST));
    let mut below = fs::create_dir_all(path(rt, alloc, "a/f/g"));
    assert_gives(rt, alloc, engine, partner, &mut below, 2, os(ENOTDIR));
}

/// Files are opened as the options say, and a missing one only where it may be made.
#[test]
fn openings(rt: HostRuntime) {
    let alloc = rt.alloc();
    let mut engine = engine_of(&rt, alloc);
    let mut partner = MemoryPartner::new(alloc);
    open_nothing(&rt, alloc, &mut engine, &mut partner);
    open_anew(&rt, alloc, &mut engine, &mut partner);
}

fn open_nothing(
    rt: &impl Abort,
    alloc: Global,
    engine: &mut Engine<IoUring>,
    partner: &mut MemoryPartner,
) {
    let mut missing = File::open(path(rt, alloc, "x")).with_flags(Flags::ASYNC);
    assert_gives(rt, alloc, engine, partner, &mut missing, 1, os(ENOENT));
    let mut root = File::open(path(rt, alloc, "/"));
    assert_gives(rt, alloc, engine, partner, &mut root, 1, os(EISDIR));
    let mut neither = OpenOptions::new().open(path(rt, alloc, "x"));
    assert_gives(rt, alloc, engine, partner, &mut neither, 0, os(EINVAL));
}

/// The second time, the file is there.
fn open_anew(
    rt: &impl Abort,
    alloc: Global,
    engine: &mut Engine<IoUring>,
    partner: &mut MemoryPartner,
) {
    let mut options = OpenOptions::new();
    options.append(true).create_new(true).mode(0o600);
    let mut first = options.open(path(rt, alloc, "n"));
    assert_gives(
        rt,
        alloc,
        engine,
        partner,
        &mut first,
        1,
        Ok(File::of_number(0)),
    );
    let mut second = options.open(path(rt, alloc, "n"));
    assert_gives(rt, alloc, engine, partner, &mut second, 1, os(EEXIST));
    let mut closed = File::of_number(0).close();
    assert_gives(rt, alloc, engine, partner, &mut closed, 1, Ok(()));
    let mut unknown = File::of_number(9).close();
    assert_gives(rt, alloc, engine, partner, &mut unknown, 1, Ok(()));
}
