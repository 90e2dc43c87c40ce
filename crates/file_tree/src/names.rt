//! The names in a path.

ghost use Rattle.std.specs.Prelude.{◌≡◌, ◌++◌, ℕ, IfOk, OnOk, List};
ghost use Rattle.std.specs.List.{list_any};
ghost use Rattle.std.specs.Str.{bytes_eq};
ghost use Rattle.file_tree.specs.Paths.{ended, form, is_below, is_dots, names, names_from};

use std::alloc::{AllocError, Global};
use std::mem;
use uring_base::Buf;
use uring_base::errno::{EINVAL, ENOENT};

/// The names in a path: the pieces between slashes that aren't empty.
pub(crate) fn names_in(alloc: Global, path: &[u8]) -> Result<Vec<Buf>, AllocError>
    ensures { IfOk result (λ found. found.items ≡ names path.now) }
{
    let mut found = Vec::new(alloc);
    let mut piece = Vec::new(alloc);
    for byte in path {
        if *byte == b'/' {
            let ended = mem::replace(&mut piece, Vec::new(alloc));
            push_name(&mut found, ended)?;
        } else {
            piece.push(*byte)?;
        }
    }
    push_name(&mut found, piece)?;
    Ok(found)
}

/// Adds a name; an empty piece is none.
fn push_name(found: &mut Vec<Buf>, piece: Vec<u8>) -> Result<(), AllocError>
    ensures { OnOk result ((rest : List (List ℕ)) → found.old.items ++ ended piece.items rest ≡ found.new.items ++ rest) }
{
    if !piece.is_empty() {
        found.push(Buf::from(piece))?;
    }
    Ok(())
}

/// Whether a name is `.` or `..`.
fn has_dots(name: &Buf) -> bool
    ensures { result ≡ is_dots name.now }
{
    name.as_slice() == b".".as_slice() || name.as_slice() == b"..".as_slice()
}

fn any_dots(found: &[Buf]) -> bool
    ensures { result ≡ list_any is_dots found.now }
{
    found.iter().any(|name| has_dots(name))
}

/// Why a path is refused before anything is looked up: it is empty, or has a name `.` or `..`.
/// `found` are its names.
#[tactic(auto, using(crate::proofs::Paths::form_kept))]
pub(crate) fn refused_form(path: &[u8], found: &[Buf]) -> Option<i32>
    requires { found.now ≡ names path.now }
    ensures { result ≡ form path.now }
{
    if path.is_empty() {
        return Some(-ENOENT);
    }
    if any_dots(found) { Some(-EINVAL) } else { None }
}

fn same_name(a: &Buf, b: &Buf) -> bool
    ensures { result ≡ bytes_eq a.now b.now }
{
    a.as_slice() == b.as_slice()
}

/// Whether `path` goes on below `above`.
pub(crate) fn goes_below(above: &[Buf], path: &[Buf]) -> bool
    ensures { result ≡ is_below above.now path.now }
{
    for i in 0..above.len() {
        if i >= path.len() {
            return false;
        }
        if !same_name(&above[i], &path[i]) {
            return false;
        }
    }
    above.len() < path.len()
}
