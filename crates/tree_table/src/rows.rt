//! The rows of the table: what is asked, in order.

use crate::row::Row;
use uring_base::fcntl::{AT_EMPTY_PATH, AT_REMOVEDIR, O_CREAT, O_EXCL, O_TRUNC};
use uring_base::opcodes;

/// Paths that are refused before all else, and the ways to a name.
pub const PATHS: [Row; 24] = [
    Row::Open("", O_CREAT, 0o644),
    Row::Open("/./a", O_CREAT, 0o644),
    Row::Open("/a/..", O_CREAT, 0o644),
    Row::MakeDir("", 0o755),
    Row::MakeDir("..", 0o755),
    Row::MakeDir("/d/.", 0o755),
    Row::Unlink("", 0),
    Row::Unlink("/./x", 0),
    Row::Unlink("", AT_REMOVEDIR),
    Row::Unlink("..", AT_REMOVEDIR),
    Row::Rename("", "/a"),
    Row::Rename("/a", ""),
    Row::Rename("..", "/a"),
    Row::Rename("/a", "/b/."),
    Row::Rename("", ".."),
    Row::Stat(""),
    Row::Stat("/a/../b"),
    Row::Stat("/."),
    Row::Stat("..."),
    Row::Open("/no/a", O_CREAT, 0o644),
    Row::MakeDir("no/a", 0o755),
    Row::Unlink("/no/a", 0),
    Row::Unlink("/no/a", AT_REMOVEDIR),
    Row::Stat("/no/a"),
];

/// Openings.
pub const OPENINGS: [Row; 21] = [
    Row::Open("/a", 0, 0o644),
    Row::Open("b", O_TRUNC | O_EXCL, 0o644),
    Row::Open("/a", O_CREAT, 0o644),
    Row::Open("b", O_CREAT | O_EXCL, 0o7601),
    Row::Open("//a/", 0, 0),
    Row::Open("a", O_CREAT, 0o600),
    Row::Open("/a", O_CREAT | O_EXCL, 0o644),
    Row::Open("/b", O_CREAT | O_EXCL | O_TRUNC, 0o644),
    Row::Open("/", 0, 0),
    Row::Open("///", O_CREAT | O_EXCL, 0o644),
    Row::Write(0, "hello"),
    Row::Stat("/a"),
    Row::Stat("b"),
    Row::Open("/a", O_TRUNC, 0),
    Row::Stat("/a"),
    Row::Open("/a/x", O_CREAT, 0o644),
    Row::Open("/a/x/y", 0, 0),
    Row::MakeDir("/a/x", 0o755),
    Row::Unlink("/b/x", 0),
    Row::Unlink("/b/x", AT_REMOVEDIR),
    Row::Stat("b/x"),
];

/// Directories.
pub const DIRECTORIES: [Row; 10] = [
    Row::MakeDir("/d", 0o755),
    Row::MakeDir("/d/e/", 0o1777),
    Row::MakeDir("/d", 0o700),
    Row::MakeDir("/a", 0o700),
    Row::MakeDir("/", 0o700),
    Row::Open("/d", O_CREAT | O_EXCL, 0o644),
    Row::Stat("/d"),
    Row::Stat("/d/e"),
    Row::Stat("/"),
    Row::Open("/d/e/f", O_CREAT, 0o640),
];

/// Files that were put under their numbers have no name.
pub const NUMBERED: [Row; 13] = [
    Row::Put(7, "seeded"),
    Row::StatFile(7),
    Row::Close(7),
    Row::Close(7),
    Row::StatFile(7),
    Row::Close(99),
    Row::Close(-1),
    Row::StatFile(99),
    Row::Put(0, "seven b"),
    Row::Stat("/a"),
    Row::Close(0),
    Row::StatAlso("/b", 0),
    Row::StatAlso("/c", 0),
];

/// Names are taken away; a file stays under its number until it is closed.
pub const NAMES_GONE: [Row; 16] = [
    Row::Unlink("/d", 0),
    Row::Unlink("/d/e", 0),
    Row::Unlink("/", 0),
    Row::Unlink("/c", 0),
    Row::Unlink("/d/f", 0),
    Row::Unlink("/a", 3),
    Row::Unlink("", AT_REMOVEDIR | AT_EMPTY_PATH),
    Row::Unlink("/a", 0),
    Row::Stat("/a"),
    Row::StatFile(0),
    Row::Write(0, "more bytes"),
    Row::Open("/a", O_CREAT, 0o666),
    Row::StatFile(0),
    Row::Close(0),
    Row::Write(0, "x"),
    Row::Open("/c", O_CREAT, 0o444),
];

/// Directories are removed.
pub const REMOVALS: [Row; 11] = [
    Row::Unlink("/", AT_REMOVEDIR),
    Row::Unlink("//", AT_REMOVEDIR),
    Row::Unlink("/x", AT_REMOVEDIR),
    Row::Unlink("/d/x", AT_REMOVEDIR),
    Row::Unlink("/a", AT_REMOVEDIR),
    Row::Unlink("/d/e/f", AT_REMOVEDIR),
    Row::Unlink("/d", AT_REMOVEDIR),
    Row::Unlink("/d/e", AT_REMOVEDIR),
    Row::MakeDir("/empty", 0o711),
    Row::Unlink("/empty", AT_REMOVEDIR),
    Row::Stat("/empty"),
];

/// Renames.
pub const RENAMES: [Row; 40] = [
    Row::OnePath("/a"),
    Row::OnePath(""),
    Row::Rename("/x", "/y"),
    Row::Rename("/d/x", "/"),
    Row::Rename("/x/y", "/a"),
    Row::Rename("/a/y", "/b"),
    Row::Rename("/a", "/x/y"),
    Row::Rename("/a", "/b/y"),
    Row::Rename("/a", "/a/y"),
    Row::Rename("/", "/x/y"),
    Row::Rename("/", "/a"),
    Row::Rename("/", "/"),
    Row::Rename("/a", "/"),
    Row::Rename("/d", "//"),
    Row::Rename("/a", "a"),
    Row::Rename("/d/e", "d//e/"),
    Row::Rename("/d", "/d/g"),
    Row::Rename("/d", "/d/e/g"),
    Row::Rename("/a", "/d"),
    Row::Rename("/b", "/d/e"),
    Row::Rename("/d", "/a"),
    Row::Rename("/d/e", "/b"),
    Row::MakeDir("/g", 0o700),
    Row::Rename("/g", "/d"),
    Row::Rename("/g", "/d/e"),
    Row::Rename("/d/e", "/g"),
    Row::Stat("/g/f"),
    Row::Stat("/d/e"),
    Row::Rename("/a", "/b"),
    Row::StatFile(1),
    Row::Stat("/b"),
    Row::Close(1),
    Row::StatFile(1),
    Row::Rename("/g", "/d/h"),
    Row::Stat("/d/h/f"),
    Row::Rename("/d/h/f", "/f"),
    Row::RenameMore("/f", "/x", "/b"),
    Row::Stat("/f"),
    Row::Unlink("/d/h", AT_REMOVEDIR),
    Row::Unlink("/d", AT_REMOVEDIR),
];

/// A loan's path begins at its place, and a record comes back from 0.
pub const PARTS: [Row; 7] = [
    Row::StatBehind("skipped", "/f"),
    Row::StatBehind("/f", "/no"),
    Row::StatBehind("/f", ""),
    Row::Cut(2, 513),
    Row::Stat("/f"),
    Row::Cut(2, 1024),
    Row::StatAlso("f", 99),
];

/// Without the loan that it needs; and with a selected buffer, which isn't served.
pub const LACKING: [Row; 9] = [
    Row::Unlent(opcodes::OPENAT),
    Row::Unlent(opcodes::STATX),
    Row::Unlent(opcodes::RENAMEAT),
    Row::Unlent(opcodes::UNLINKAT),
    Row::Unlent(opcodes::MKDIRAT),
    Row::Unlent(opcodes::CLOSE),
    Row::Selects(opcodes::MKDIRAT),
    Row::Selects(opcodes::CLOSE),
    Row::Selects(opcodes::STATX),
];
