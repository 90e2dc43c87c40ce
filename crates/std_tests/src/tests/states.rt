//! The states of files and directories, over a folder.

use crate::tests::own_folder;
use partner_traits::Partner;
use rent_engine::{Engine, OpState, Poll};
use rent_fs::{File, FsError, fs as states};
use std::alloc::Global;
use std::fs;
use std::process::Abort;
use std::test::Fail;
use uring_base::Buf;
use uring_base::errno::{EBADF, EEXIST, EINVAL, EISDIR, ENOENT, ENOTDIR, ENOTEMPTY};
use uring_ring::IoUring;
use uring_std::StdPartner;

/// After how many turns a state is given up.
const MAX_TURNS: u32 = 16;

fn path(rt: &impl Abort, alloc: Global, text: &str) -> Buf {
    Buf::from_slice(alloc, text.as_bytes()).expect(rt, "memory")
}

fn os<T>(errno: i32) -> Result<T, FsError> {
    Err(FsError::Os(errno.unsigned_abs()))
}

/// Polls a state until it gives its output, with a turn of the engine whenever it waits.
fn finish<S: OpState, P: Partner>(
    rt: &impl Abort,
    alloc: Global,
    engine: &mut Engine<IoUring>,
    partner: &mut P,
    state: &mut S,
) -> S::Output {
    for _ in 0..MAX_TURNS {
        assert!(rt; !state.is_done());
        if let Poll::Ready(output) = state.poll(alloc, engine) {
            return output;
        }
        assert!(rt; engine.turn(alloc, partner).is_ok());
    }
    panic!(rt; "a state without an end")
}

fn make_directories<P: Partner>(
    rt: &impl Abort,
    alloc: Global,
    engine: &mut Engine<IoUring>,
    partner: &mut P,
) {
    let mut all = states::create_dir_all(path(rt, alloc, "a/b/c"));
    assert_eq!(rt; finish(rt, alloc, engine, partner, &mut all), Ok(()));
    let mut again = states::create_dir_all(path(rt, alloc, "/a/b/c"));
    assert_eq!(rt; finish(rt, alloc, engine, partner, &mut again), Ok(()));
    let mut one = states::create_dir(path(rt, alloc, "a"));
    assert_eq!(rt; finish(rt, alloc, engine, partner, &mut one), os(EEXIST));
    let mut below = states::create_dir(path(rt, alloc, "x/y"));
    assert_eq!(rt; finish(rt, alloc, engine, partner, &mut below), os(ENOENT));
}

fn write_whole<P: Partner>(
    rt: &impl Abort,
    alloc: Global,
    engine: &mut Engine<IoUring>,
    partner: &mut P,
) {
    let contents = Buf::from_slice(alloc, b"hello").expect(rt, "memory");
    let mut written = states::write(path(rt, alloc, "a/f"), contents);
    let (done, contents) = finish(rt, alloc, engine, partner, &mut written);
    assert_eq!(rt; done, Ok(()));
    assert_eq!(rt; contents.as_slice(), b"hello".as_slice());
    let mut read = states::read(path(rt, alloc, "a/f"));
    match finish(rt, alloc, engine, partner, &mut read) {
        Ok(bytes) => assert_eq!(rt; bytes.as_slice(), b"hello".as_slice()),
        Err(_) => panic!(rt; "not read"),
    }
}

/// By its number: opened, changed in the middle, synced, read and closed.
fn work_on_a_file<P: Partner>(
    rt: &impl Abort,
    alloc: Global,
    engine: &mut Engine<IoUring>,
    partner: &mut P,
    file: File,
) {
    let letters = Buf::from_slice(alloc, b"LL").expect(rt, "memory");
    let mut written = file.write_all_at(letters, 2);
    let (done, _buf) = finish(rt, alloc, engine, partner, &mut written);
    assert_eq!(rt; done, Ok(()));
    let mut synced = file.sync_all();
    assert_eq!(rt; finish(rt, alloc, engine, partner, &mut synced), Ok(()));
    let mut stat = file.metadata();
    match finish(rt, alloc, engine, partner, &mut stat) {
        Ok(metadata) => assert_eq!(rt; metadata.len(), 5),
        Err(_) => panic!(rt; "no metadata"),
    }
    let mut closed = file.close();
    assert_eq!(rt; finish(rt, alloc, engine, partner, &mut closed), Ok(()));
    let mut gone = file.sync_data();
    assert_eq!(rt; finish(rt, alloc, engine, partner, &mut gone), os(EBADF));
}

fn open_and_work<P: Partner>(
    rt: &impl Abort,
    alloc: Global,
    engine: &mut Engine<IoUring>,
    partner: &mut P,
) {
    let mut options = rent_fs::OpenOptions::new();
    options.read(true).write(true);
    let mut open = options.open(path(rt, alloc, "a/f"));
    match finish(rt, alloc, engine, partner, &mut open) {
        Ok(file) => work_on_a_file(rt, alloc, engine, partner, file),
        Err(_) => panic!(rt; "not opened"),
    }
}

fn ask_what_they_are<P: Partner>(
    rt: &impl Abort,
    alloc: Global,
    engine: &mut Engine<IoUring>,
    partner: &mut P,
) {
    let mut file = states::metadata(path(rt, alloc, "a/f"));
    match finish(rt, alloc, engine, partner, &mut file) {
        Ok(metadata) => {
            assert!(rt; metadata.is_file());
            assert_eq!(rt; metadata.len(), 5);
            assert_eq!(rt; metadata.nlink(), 1);
        }
        Err(_) => panic!(rt; "no metadata"),
    }
    let mut directory = states::symlink_metadata(path(rt, alloc, "a/b"));
    match finish(rt, alloc, engine, partner, &mut directory) {
        Ok(metadata) => assert!(rt; metadata.is_dir()),
        Err(_) => panic!(rt; "no metadata"),
    }
}

/// What the system refuses, and the names that never reach it.
fn be_refused<P: Partner>(
    rt: &impl Abort,
    alloc: Global,
    engine: &mut Engine<IoUring>,
    partner: &mut P,
) {
    let mut up = states::remove_file(path(rt, alloc, "../f"));
    assert_eq!(rt; finish(rt, alloc, engine, partner, &mut up), os(EINVAL));
    let mut missing = File::open(path(rt, alloc, "a/x"));
    assert_eq!(rt;
        finish(rt, alloc, engine, partner, &mut missing),
        os(ENOENT)
    );
    let mut below = File::open(path(rt, alloc, "a/f/x"));
    assert_eq!(rt; finish(rt, alloc, engine, partner, &mut below), os(ENOTDIR));
    let mut directory = File::create(path(rt, alloc, "a/b"));
    assert_eq!(rt;
        finish(rt, alloc, engine, partner, &mut directory),
        os(EISDIR)
    );
    let mut full = states::remove_dir(path(rt, alloc, "a"));
    assert_eq!(rt;
        finish(rt, alloc, engine, partner, &mut full),
        os(ENOTEMPTY)
    );
    let mut file = states::remove_dir(path(rt, alloc, "a/f"));
    assert_eq!(rt; finish(rt, alloc, engine, partner, &mut file), os(ENOTDIR));
}

fn rename_and_remove<P: Partner>(
    rt: &impl Abort,
    alloc: Global,
    engine: &mut Engine<IoUring>,
    partner: &mut P,
) {
    let mut renamed = states::rename(path(rt, alloc, "a/f"), path(rt, alloc, "a/b/g"));
    assert_eq!(rt; finish(rt, alloc, engine, partner, &mut renamed), Ok(()));
    let mut again = states::rename(path(rt, alloc, "a/f"), path(rt, alloc, "a/b/g"));
    assert_eq!(rt; finish(rt, alloc, engine, partner, &mut again), os(ENOENT));
    let mut removed = states::remove_dir(path(rt, alloc, "a/b/c"));
    assert_eq!(rt; finish(rt, alloc, engine, partner, &mut removed), Ok(()));
}

/// The names in a folder, each behind a space.
fn names_in(rt: &HostRuntime, folder: &str) -> Result<String, Fail> {
    let mut names = String::new(rt.alloc());
    for entry in fs::read_dir(rt, folder)? {
        let entry = entry?;
        names.push(' ')?;
        names.push_str(entry.file_name())?;
    }
    Ok(names)
}

/// What the folder lists: its names, those in its `a`, and those in `a/b`.
fn listing(rt: &HostRuntime, folder: &str) -> Result<String, Fail> {
    let alloc = rt.alloc();
    let top = names_in(rt, folder)?;
    let folder_a = format!(in alloc; "{folder}/a")?;
    let upper = names_in(rt, folder_a.as_str())?;
    let folder_b = format!(in alloc; "{folder}/a/b")?;
    let lower = names_in(rt, folder_b.as_str())?;
    Ok(format!(in alloc; "{top} |{upper} |{lower}")?)
}

/// Each state in turn, over one engine and one partner.
fn run_states(rt: &impl Abort, files: HostRuntime, folder: &str) {
    let alloc = files.alloc();
    let mut partner = StdPartner::new(alloc, files, path(rt, alloc, folder));
    let ring = IoUring::new(alloc, 1).expect(rt, "no ring");
    let params = *ring.params();
    let mut engine = Engine::new(alloc, ring, params);
    make_directories(rt, alloc, &mut engine, &mut partner);
    write_whole(rt, alloc, &mut engine, &mut partner);
    open_and_work(rt, alloc, &mut engine, &mut partner);
    ask_what_they_are(rt, alloc, &mut engine, &mut partner);
    be_refused(rt, alloc, &mut engine, &mut partner);
    rename_and_remove(rt, alloc, &mut engine, &mut partner);
}

/// Directories are made, files written, read, asked about, renamed and removed; the folder lists
/// what is left.
#[test]
fn states_over_a_folder(rt: HostRuntime) -> Result<(), Fail> {
    let alloc = rt.alloc();
    let folder = own_folder(&rt, "states")?;
    run_states(&rt, rt, folder.as_str());
    let listed = listing(&rt, folder.as_str())?;
    assert_eq!(rt; listed.as_str(), " a | b | g");
    let file = format!(in alloc; "{folder}/a/b/g")?;
    let bytes = fs::read(&rt, file.as_str())?;
    assert_eq!(rt; bytes.as_slice(), b"heLLo".as_slice());
    fs::remove_dir_all(&rt, folder.as_str())?;
    Ok(())
}
