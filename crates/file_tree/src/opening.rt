//! Opening and closing.

ghost use Rattle.std.specs.Prelude.{◌≡◌, None, IfOk, OnOk, OnErr};
ghost use Rattle.std.specs.FinMap.{get};
ghost use Rattle.uring_base.specs.FlagBits.{has_bits};
ghost use Rattle.uring_model.specs.FreeNumber.{least_free};
ghost use Rattle.file_tree.specs.Opens.{closes, creates_file, opens, opens_at};
ghost use Rattle.file_tree.specs.Trees.{with_file};

use crate::inodes::Inode;
use crate::place::{Node, Place, Spot};
use crate::tree::Tree;
use std::alloc::{AllocError, Global};
use uring_base::Buf;
use uring_base::errno::{EBADF, EEXIST, EISDIR, EMFILE, ENOENT};
use uring_base::fcntl::{O_CREAT, O_EXCL, O_TRUNC};
use uring_base::stat::{S_IFREG, S_PERMISSIONS};
use uring_model::Files;

/// Whether a word has these bits.
pub(crate) fn has(word: u32, bits: u32) -> bool
    ensures { result ≡ has_bits word bits }
{
    word & bits == bits
}

/// Opens what a path leads to.
pub(crate) fn open(
    alloc: Global,
    files: &mut Files,
    tree: &mut Tree,
    flags: u32,
    mode: u32,
    spot: Spot,
) -> Result<i32, AllocError>
    ensures result { IfOk result (λ r. r ≡ (opens files.old tree.old flags mode spot).result) }
    ensures files { OnOk result (files.new ≡ (opens files.old tree.old flags mode spot).files) }
    ensures tree { OnOk result (tree.new ≡ (opens files.old tree.old flags mode spot).tree) }
    ensures err { OnErr result ((files.new ≡ files.old) × (tree.new ≡ tree.old)) }
{
    match spot {
        Spot::Refused(refusal) => Ok(refusal),
        Spot::Root => Ok(-EISDIR),
        Spot::At(place) => open_at(alloc, files, tree, flags, mode, place),
    }
}

fn open_at(
    alloc: Global,
    files: &mut Files,
    tree: &mut Tree,
    flags: u32,
    mode: u32,
    place: Place,
) -> Result<i32, AllocError>
    ensures result { IfOk result (λ r. r ≡ (opens_at files.old tree.old flags mode place (get tree.old.nodes place)).result) }
    ensures files { OnOk result (files.new ≡ (opens_at files.old tree.old flags mode place (get tree.old.nodes place)).files) }
    ensures tree { OnOk result (tree.new ≡ (opens_at files.old tree.old flags mode place (get tree.old.nodes place)).tree) }
    ensures err { OnErr result ((files.new ≡ files.old) × (tree.new ≡ tree.old)) }
{
    match tree.nodes.get(&place) {
        Some(Node::Dir { .. }) => Ok(-EISDIR),
        Some(Node::File { number }) => {
            if has(flags, O_CREAT) && has(flags, O_EXCL) {
                return Ok(-EEXIST);
            }
            if has(flags, O_TRUNC) {
                files.put(alloc, number, Buf::new(alloc))?;
            }
            Ok(number.cast_signed())
        }
        None => {
            if has(flags, O_CREAT) {
                create_file(alloc, files, tree, mode, place)
            } else {
                Ok(-ENOENT)
            }
        }
    }
}

/// Makes a file with a name.
fn create_file(
    alloc: Global,
    files: &mut Files,
    tree: &mut Tree,
    mode: u32,
    place: Place,
) -> Result<i32, AllocError>
    requires { get tree.old.nodes place ≡ None }
    ensures result { IfOk result (λ r. r ≡ (creates_file files.old tree.old place mode (least_free files.old)).result) }
    ensures files { OnOk result (files.new ≡ (creates_file files.old tree.old place mode (least_free files.old)).files) }
    ensures tree { OnOk result (tree.new ≡ (creates_file files.old tree.old place mode (least_free files.old)).tree) }
    ensures err { OnErr result ((files.new ≡ files.old) × (tree.new ≡ tree.old)) }
{
    let Some(number) = files.least_free() else {
        return Ok(-EMFILE);
    };
    files.put(alloc, number, Buf::new(alloc))?;
    match name_file(alloc, tree, place, number, S_IFREG + (mode & S_PERMISSIONS)) {
        Ok(()) => Ok(number.cast_signed()),
        Err(error) => {
            files.remove(number);
            Err(error)
        }
    }
}

/// Gives a file its name and its mode.
fn name_file(
    alloc: Global,
    tree: &mut Tree,
    place: Place,
    number: u32,
    mode: u32,
) -> Result<(), AllocError>
    requires { get tree.old.nodes place ≡ None }
    ensures ok { OnOk result (tree.new ≡ with_file tree.old place number mode) }
    ensures err { OnErr result (tree.new ≡ tree.old) }
{
    let undo = place.try_clone(alloc)?;
    tree.nodes.put(place, Node::File { number })?;
    match tree.inodes.put(number, Inode { mode, named: true }) {
        Ok(()) => Ok(()),
        Err(error) => {
            tree.nodes.remove(&undo);
            Err(error)
        }
    }
}

/// Closes the file of this number; one without a name is gone then.
pub(crate) fn close(files: &mut Files, tree: &mut Tree, number: u32) -> i32
    ensures result { result ≡ (closes files.old tree.old number).result }
    ensures files { files.new ≡ (closes files.old tree.old number).files }
    ensures tree { tree.new ≡ (closes files.old tree.old number).tree }
{
    if files.get(number).is_none() {
        return -EBADF;
    }
    if !tree.inodes.has_name(number) {
        files.remove(number);
        tree.inodes.remove(number);
    }
    0
}
