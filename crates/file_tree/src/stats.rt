//! What a stat tells.

ghost use Rattle.std.specs.Prelude.{◌≡◌, None, IfOk};
ghost use Rattle.std.specs.FinMap.{get};
ghost use Rattle.file_tree.specs.Stats.{bytes_of, size_of, stats, stats_node, stats_number, stats_spot, told};

use crate::opening::has;
use crate::place::{Node, Spot};
use crate::tree::Tree;
use crate::walk::spot_of;
use std::alloc::{AllocError, Global};
use uring_base::Buf;
use uring_base::errno::{EBADF, ENOENT};
use uring_base::fcntl::AT_EMPTY_PATH;
use uring_model::Files;

/// The mode of the root: a directory that all may read, write and enter.
pub const ROOT_MODE: u32 = 0o040777;
/// The number of the device on which all files are.
pub const DEVICE: u64 = 1;
/// How many bytes are best read and written at a time.
pub const BLOCK_SIZE: u64 = 4096;
/// How many bytes the blocks have by which a file's size is told.
pub const STAT_BLOCK: u64 = 512;

/// What a stat answers: its result, and the record, which the loan comes back with.
#[derive(Drop)]
pub(crate) struct Told {
    pub result: i32,
    pub bytes: Option<Buf>,
}

/// The bytes of words, the lowest of each first.
fn bytes_of(alloc: Global, words: &[u64]) -> Result<Buf, AllocError>
    ensures { IfOk result (λ buf. buf ≡ bytes_of words.now) }
{
    let mut bytes = Vec::new(alloc);
    for word in words {
        bytes.extend_from_slice(&word.to_le_bytes())?;
    }
    Ok(Buf::from(bytes))
}

fn tell(alloc: Global, ino: u32, mode: u32, size: u64) -> Result<Told, AllocError>
    ensures { IfOk result (λ t. (t.result ≡ (told ino mode size).result) × (t.bytes ≡ (told ino mode size).bytes)) }
{
    let ino = ino as u64;
    let mode = mode as u64;
    let blocks = size.div_ceil(STAT_BLOCK);
    let words: [u64; 19] = [
        DEVICE, ino, mode, 1, 0, 0, 0, size, BLOCK_SIZE, blocks, 0, 0, 0, 0, 0, 0, 0, 0, 0,
    ];
    Ok(Told {
        result: 0,
        bytes: Some(bytes_of(alloc, &words)?),
    })
}

fn refused(refusal: i32) -> Told
    ensures result { result.result ≡ refusal }
    ensures bytes { result.bytes ≡ None }
{
    Told {
        result: refusal,
        bytes: None,
    }
}

fn size_of(files: &Files, number: u32) -> u64
    ensures { result ≡ size_of files.now number }
{
    match files.get(number) {
        None => 0,
        Some(file) => file.len() as u64,
    }
}

/// What a stat of a file by its number tells.
fn stat_number(alloc: Global, files: &Files, tree: &Tree, number: u32) -> Result<Told, AllocError>
    ensures result { IfOk result (λ t. t.result ≡ (stats_number files.now tree.now number (get files.now number)).result) }
    ensures bytes { IfOk result (λ t. t.bytes ≡ (stats_number files.now tree.now number (get files.now number)).bytes) }
{
    match files.get(number) {
        None => Ok(refused(-EBADF)),
        Some(file) => tell(alloc, number, tree.inodes.mode(number), file.len() as u64),
    }
}

fn stat_node(
    alloc: Global,
    files: &Files,
    tree: &Tree,
    node: Option<Node>,
) -> Result<Told, AllocError>
    ensures result { IfOk result (λ t. t.result ≡ (stats_node files.now tree.now node).result) }
    ensures bytes { IfOk result (λ t. t.bytes ≡ (stats_node files.now tree.now node).bytes) }
{
    match node {
        None => Ok(refused(-ENOENT)),
        Some(Node::Dir { mode, .. }) => tell(alloc, 0, mode, 0),
        Some(Node::File { number }) => {
            let size = size_of(files, number);
            tell(alloc, number, tree.inodes.mode(number), size)
        }
    }
}

fn stat_spot(alloc: Global, files: &Files, tree: &Tree, spot: Spot) -> Result<Told, AllocError>
    ensures result { IfOk result (λ t. t.result ≡ (stats_spot files.now tree.now spot).result) }
    ensures bytes { IfOk result (λ t. t.bytes ≡ (stats_spot files.now tree.now spot).bytes) }
{
    match spot {
        Spot::Refused(refusal) => Ok(refused(refusal)),
        Spot::Root => tell(alloc, 0, ROOT_MODE, 0),
        Spot::At(place) => stat_node(alloc, files, tree, tree.nodes.get(&place)),
    }
}

/// What a stat of a path tells; an empty path with `AT_EMPTY_PATH` asks for the file of `number`.
pub(crate) fn stat(
    alloc: Global,
    files: &Files,
    tree: &Tree,
    number: u32,
    flags: u32,
    path: &[u8],
) -> Result<Told, AllocError>
    ensures result { IfOk result (λ t. t.result ≡ (stats files.now tree.now number flags path.now).result) }
    ensures bytes { IfOk result (λ t. t.bytes ≡ (stats files.now tree.now number flags path.now).bytes) }
{
    if has(flags, AT_EMPTY_PATH) && path.len() == 0 {
        return stat_number(alloc, files, tree, number);
    }
    let spot = spot_of(alloc, &tree.nodes, path)?;
    stat_spot(alloc, files, tree, spot)
}
