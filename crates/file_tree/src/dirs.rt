//! Making directories, taking names away, and renaming.

ghost use Rattle.std.specs.Prelude.{◌≡◌, IfOk, OnOk, OnErr};
ghost use Rattle.std.specs.FinMap.{get};
ghost use Rattle.file_tree.specs.Dirs.{makes_dir, removes_dir, removes_file, renames, renames_at, renames_between, renames_from, renames_onto};
ghost use Rattle.file_tree.specs.Trees.{displaced, moved};

use crate::inodes::Inodes;
use crate::names::{goes_below, names_in, refused_form};
use crate::place::{Node, Place, Spot};
use crate::tree::Tree;
use crate::walk::walk;
use std::alloc::{AllocError, Global};
use uring_base::errno::{EEXIST, EINVAL, EISDIR, ENOENT, ENOTDIR, ENOTEMPTY};
use uring_base::stat::{S_IFDIR, S_PERMISSIONS};

/// Makes a directory.
pub(crate) fn make_dir(tree: &mut Tree, mode: u32, spot: Spot) -> Result<i32, AllocError>
    ensures result { IfOk result (λ r. r ≡ (makes_dir tree.old mode spot).result) }
    ensures tree { OnOk result (tree.new ≡ (makes_dir tree.old mode spot).tree) }
    ensures err { OnErr result (tree.new ≡ tree.old) }
{
    let place = match spot {
        Spot::Refused(refusal) => return Ok(refusal),
        Spot::Root => return Ok(-EEXIST),
        Spot::At(place) => place,
    };
    if tree.nodes.get(&place).is_some() {
        return Ok(-EEXIST);
    }
    let Some(number) = tree.dirs.checked_add(1) else {
        return Err(AllocError);
    };
    let mode = S_IFDIR + (mode & S_PERMISSIONS);
    tree.nodes.put(place, Node::Dir { number, mode })?;
    tree.dirs = number;
    Ok(0)
}

/// Takes away the name of a file.
pub(crate) fn remove_file(tree: &mut Tree, spot: Spot) -> i32
    ensures result { result ≡ (removes_file tree.old spot).result }
    ensures tree { tree.new ≡ (removes_file tree.old spot).tree }
{
    let place = match spot {
        Spot::Refused(refusal) => return refusal,
        Spot::Root => return -EISDIR,
        Spot::At(place) => place,
    };
    match tree.nodes.get(&place) {
        None => -ENOENT,
        Some(Node::Dir { .. }) => -EISDIR,
        Some(Node::File { number }) => {
            tree.nodes.remove(&place);
            tree.inodes.unname(number);
            0
        }
    }
}

/// Removes an empty directory.
pub(crate) fn remove_dir(tree: &mut Tree, spot: Spot) -> i32
    ensures result { result ≡ (removes_dir tree.old spot).result }
    ensures tree { tree.new ≡ (removes_dir tree.old spot).tree }
{
    let place = match spot {
        Spot::Refused(refusal) => return refusal,
        Spot::Root => return -EINVAL,
        Spot::At(place) => place,
    };
    match tree.nodes.get(&place) {
        None => -ENOENT,
        Some(Node::File { .. }) => -ENOTDIR,
        Some(Node::Dir { number, .. }) if tree.nodes.has_entries(number) => -ENOTEMPTY,
        Some(Node::Dir { .. }) => {
            tree.nodes.remove(&place);
            0
        }
    }
}

/// Renames what the old path leads to.
pub(crate) fn rename(
    alloc: Global,
    tree: &mut Tree,
    old: &[u8],
    new: &[u8],
) -> Result<i32, AllocError>
    ensures result { IfOk result (λ r. r ≡ (renames tree.old old.now new.now).result) }
    ensures tree { OnOk result (tree.new ≡ (renames tree.old old.now new.now).tree) }
    ensures err { OnErr result (tree.new ≡ tree.old) }
{
    let old_names = names_in(alloc, old)?;
    let new_names = names_in(alloc, new)?;
    if let Some(refusal) = refused_form(old, old_names.as_slice()) {
        return Ok(refusal);
    }
    if let Some(refusal) = refused_form(new, new_names.as_slice()) {
        return Ok(refusal);
    }
    let inside = goes_below(old_names.as_slice(), new_names.as_slice());
    let from = walk(&tree.nodes, old_names);
    let to = walk(&tree.nodes, new_names);
    rename_between(tree, inside, from, to)
}

fn rename_between(tree: &mut Tree, inside: bool, from: Spot, to: Spot) -> Result<i32, AllocError>
    ensures result { IfOk result (λ r. r ≡ (renames_between tree.old inside from to).result) }
    ensures tree { OnOk result (tree.new ≡ (renames_between tree.old inside from to).tree) }
    ensures err { OnErr result (tree.new ≡ tree.old) }
{
    match from {
        Spot::Refused(refusal) => Ok(refusal),
        Spot::Root => match to {
            Spot::Refused(refusal) => Ok(refusal),
            Spot::Root | Spot::At(_) => Ok(-EINVAL),
        },
        Spot::At(place) => rename_from(tree, inside, place, to),
    }
}

fn rename_from(tree: &mut Tree, inside: bool, place: Place, to: Spot) -> Result<i32, AllocError>
    ensures result { IfOk result (λ r. r ≡ (renames_from tree.old inside place to).result) }
    ensures tree { OnOk result (tree.new ≡ (renames_from tree.old inside place to).tree) }
    ensures err { OnErr result (tree.new ≡ tree.old) }
{
    match to {
        Spot::Refused(refusal) => Ok(refusal),
        Spot::Root => match tree.nodes.get(&place) {
            None => Ok(-ENOENT),
            Some(_) => Ok(-EINVAL),
        },
        Spot::At(onto) => rename_at(tree, inside, place, onto),
    }
}

fn rename_at(tree: &mut Tree, inside: bool, place: Place, onto: Place) -> Result<i32, AllocError>
    ensures result { IfOk result (λ r. r ≡ (renames_at tree.old inside place onto (get tree.old.nodes place)).result) }
    ensures tree { OnOk result (tree.new ≡ (renames_at tree.old inside place onto (get tree.old.nodes place)).tree) }
    ensures err { OnErr result (tree.new ≡ tree.old) }
{
    match tree.nodes.get(&place) {
        None => Ok(-ENOENT),
        Some(_) if place == onto => Ok(0),
        Some(_) if inside => Ok(-EINVAL),
        Some(node) => rename_onto(tree, place, onto, node),
    }
}

fn rename_onto(tree: &mut Tree, place: Place, onto: Place, node: Node) -> Result<i32, AllocError>
    ensures result { IfOk result (λ r. r ≡ (renames_onto tree.old place onto node (get tree.old.nodes onto)).result) }
    ensures tree { OnOk result (tree.new ≡ (renames_onto tree.old place onto node (get tree.old.nodes onto)).tree) }
    ensures err { OnErr result (tree.new ≡ tree.old) }
{
    match (node, tree.nodes.get(&onto)) {
        (Node::File { .. }, Some(Node::Dir { .. })) => Ok(-EISDIR),
        (Node::Dir { .. }, Some(Node::File { .. })) => Ok(-ENOTDIR),
        (Node::Dir { .. }, Some(Node::Dir { number, .. })) if tree.nodes.has_entries(number) => {
            Ok(-ENOTEMPTY)
        }
        _ => {
            put_over(tree, place, onto, node)?;
            Ok(0)
        }
    }
}

/// Moves a node to a place, and takes the name from what stood there. The new name is put first, so
/// that nothing has changed where there is no memory for it.
fn put_over(tree: &mut Tree, place: Place, onto: Place, node: Node) -> Result<(), AllocError>
    ensures ok { OnOk result (tree.new ≡ moved tree.old place onto node) }
    ensures err { OnErr result (tree.new ≡ tree.old) }
{
    let stood = tree.nodes.get(&onto);
    tree.nodes.put(onto, node)?;
    tree.nodes.remove(&place);
    displace(&mut tree.inodes, stood);
    Ok(())
}

fn displace(inodes: &mut Inodes, stood: Option<Node>)
    ensures { inodes.new ≡ displaced inodes.old stood }
{
    if let Some(Node::File { number }) = stood {
        inodes.unname(number);
    }
}
