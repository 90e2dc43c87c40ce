//! Performing an operation on the tree.

ghost use Rattle.std.specs.Prelude.{◌≡◌, None, ◌==◌, IfOk, OnOk, OnErr};
ghost use Rattle.std.specs.List.{position};
ghost use Rattle.file_tree.specs.Asks.{path_answer, renames_in, unlinks};

use crate::dirs::{make_dir, remove_dir, remove_file, rename};
use crate::opening::{close, open};
use crate::path_operation::PathOperation;
use crate::stats::stat;
use crate::tree::Tree;
use crate::walk::spot_of;
use std::alloc::{AllocError, Global};
use uring_base::Buf;
use uring_base::errno::EINVAL;
use uring_base::fcntl::AT_REMOVEDIR;
use uring_model::Files;

/// What an operation on the tree answers, and the bytes that its loan comes back with where they
/// are new.
#[derive(Drop)]
pub struct PathAnswered {
    pub result: i32,
    pub bytes: Option<Buf>,
}

fn plain(outcome: i32) -> PathAnswered
    ensures result { result.result ≡ outcome }
    ensures bytes { result.bytes ≡ None }
{
    PathAnswered {
        result: outcome,
        bytes: None,
    }
}

/// Where the first zero byte stands.
fn first_zero(part: &[u8]) -> Option<usize>
    ensures { result ≡ position (λ b. b == 0) part.now }
{
    part.iter().position(|byte| *byte == 0)
}

fn rename_parts(alloc: Global, tree: &mut Tree, part: &[u8]) -> Result<i32, AllocError>
    ensures result { IfOk result (λ r. r ≡ (renames_in tree.old part.now (position (λ b. b == 0) part.now)).result) }
    ensures tree { OnOk result (tree.new ≡ (renames_in tree.old part.now (position (λ b. b == 0) part.now)).tree) }
    ensures err { OnErr result (tree.new ≡ tree.old) }
{
    match first_zero(part) {
        None => Ok(-EINVAL),
        Some(zero) => rename(alloc, tree, &part[..zero], &part[zero + 1..]),
    }
}

fn unlink(alloc: Global, tree: &mut Tree, flags: u32, path: &[u8]) -> Result<i32, AllocError>
    ensures result { IfOk result (λ r. r ≡ (unlinks tree.old flags path.now).result) }
    ensures tree { OnOk result (tree.new ≡ (unlinks tree.old flags path.now).tree) }
    ensures err { OnErr result (tree.new ≡ tree.old) }
{
    if flags != 0 && flags != AT_REMOVEDIR {
        return Ok(-EINVAL);
    }
    let spot = spot_of(alloc, &tree.nodes, path)?;
    if flags == 0 {
        return Ok(remove_file(tree, spot));
    }
    Ok(remove_dir(tree, spot))
}

/// Performs an operation on the tree. `part` are the lent bytes: its path, or for a rename the old
/// one, a zero byte and the new one.
pub fn perform_path(
    alloc: Global,
    files: &mut Files,
    tree: &mut Tree,
    operation: PathOperation,
    part: &[u8],
) -> Result<PathAnswered, AllocError>
    ensures result { IfOk result (λ a. a.result ≡ (path_answer files.old tree.old operation part.now).result) }
    ensures bytes { IfOk result (λ a. a.bytes ≡ (path_answer files.old tree.old operation part.now).bytes) }
    ensures files { OnOk result (files.new ≡ (path_answer files.old tree.old operation part.now).files) }
    ensures tree { OnOk result (tree.new ≡ (path_answer files.old tree.old operation part.now).tree) }
    ensures err { OnErr result ((files.new ≡ files.old) × (tree.new ≡ tree.old)) }
{
    match operation {
        PathOperation::Open { flags, mode } => {
            let spot = spot_of(alloc, &tree.nodes, part)?;
            let number = open(alloc, files, tree, flags, mode, spot)?;
            Ok(plain(number))
        }
        PathOperation::Close { number } => Ok(plain(close(files, tree, number))),
        PathOperation::Stat { number, flags } => {
            let told = stat(alloc, files, tree, number, flags, part)?;
            Ok(PathAnswered {
                result: told.result,
                bytes: told.bytes,
            })
        }
        PathOperation::Rename => {
            let outcome = rename_parts(alloc, tree, part)?;
            Ok(plain(outcome))
        }
        PathOperation::Unlink { flags } => {
            let outcome = unlink(alloc, tree, flags, part)?;
            Ok(plain(outcome))
        }
        PathOperation::MakeDir { mode } => {
            let spot = spot_of(alloc, &tree.nodes, part)?;
            let outcome = make_dir(tree, mode, spot)?;
            Ok(plain(outcome))
        }
        PathOperation::Lacking => Ok(plain(-EINVAL)),
    }
}
