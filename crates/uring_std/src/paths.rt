//! The path that the system is given.

ghost use Rattle.std.specs.Prelude.{◌≡◌, ◌++◌, ◌∷◌, [], ℕ, List, IfOk, OnOk};
ghost use Rattle.std.specs.List.{list_any};
ghost use Rattle.file_tree.specs.Paths.{ended, form, is_dots, names};
ghost use Rattle.uring_std.specs.Paths.{below, IsBelow, IsPathOf, seed_name};

use std::alloc::{AllocError, Global};
use std::mem;
use uring_base::Buf;
use uring_base::errno::{EINVAL, ENOENT};

/// A path for the system, or the result of a path that none is made of.
#[derive(Drop)]
pub enum SystemPath {
    At(String),
    Refused(i32),
}

/// The names in a path: the pieces between slashes that aren't empty.
fn names_in(alloc: Global, path: &[u8]) -> Result<Vec<Buf>, AllocError>
    ensures { IfOk result (λ found. found.items ≡ names path.now) }
{
    let mut found = Vec::new(alloc);
    let mut piece = Vec::new(alloc);
    for byte in path {
        if *byte == b'/' {
            let ended = mem::replace(&mut piece, Vec::new(alloc));
            push_name(&mut found, ended)?;
        } else {
            piece.push(*byte)?;
        }
    }
    push_name(&mut found, piece)?;
    Ok(found)
}

/// Adds a name; an empty piece is none.
fn push_name(found: &mut Vec<Buf>, piece: Vec<u8>) -> Result<(), AllocError>
    ensures { OnOk result ((rest : List (List ℕ)) → found.old.items ++ ended piece.items rest ≡ found.new.items ++ rest) }
{
    if !piece.is_empty() {
        found.push(Buf::from(piece))?;
    }
    Ok(())
}

/// Whether a name is `.` or `..`.
fn has_dots(name: &Buf) -> bool
    ensures { result ≡ is_dots name.now }
{
    name.as_slice() == b".".as_slice() || name.as_slice() == b"..".as_slice()
}

fn any_dots(found: &[Buf]) -> bool
    ensures { result ≡ list_any is_dots found.now }
{
    found.iter().any(|name| has_dots(name))
}

/// Why a path is refused before the system sees it: it is empty, or has a name `.` or `..`.
/// `found` are its names.
#[tactic(auto, using(crate::proofs::Forms::form_kept))]
fn refused_form(path: &[u8], found: &[Buf]) -> Option<i32>
    requires { found.now ≡ names path.now }
    ensures { result ≡ form path.now }
{
    if path.is_empty() {
        return Some(-ENOENT);
    }
    if any_dots(found) { Some(-EINVAL) } else { None }
}

/// The folder's name, and behind it each name after a slash.
fn joined(alloc: Global, folder: &[u8], names: &[Buf]) -> Result<Vec<u8>, AllocError>
    ensures { IfOk result (λ text. text.items ≡ below folder.now names.now) }
{
    let mut text = folder.to_vec(alloc)?;
    for name in names {
        text.push(b'/')?;
        text.extend_from_slice(name.as_slice())?;
    }
    Ok(text)
}

/// These bytes as a path: none where one of them is zero, which would end the path for the system,
/// or where they aren't UTF-8, since a path of std is text.
fn as_text(bytes: Vec<u8>) -> SystemPath
    ensures { IsPathOf bytes.items result }
{
    if bytes.iter().any(|byte| *byte == 0) {
        return SystemPath::Refused(-EINVAL);
    }
    match String::from_utf8(bytes) {
        Ok(text) => SystemPath::At(text),
        Err(_) => SystemPath::Refused(-EINVAL),
    }
}

/// The path in the folder that these bytes name. All names of a path are looked for below the
/// folder, and none of them leads up, so it doesn't leave the folder by its names.
pub fn path_below(alloc: Global, folder: &[u8], path: &[u8]) -> Result<SystemPath, AllocError>
    ensures { IfOk result (λ at. IsBelow folder.now path.now at) }
{
    let names = names_in(alloc, path)?;
    if let Some(refusal) = refused_form(path, names.as_slice()) {
        return Ok(SystemPath::Refused(refusal));
    }
    Ok(as_text(joined(alloc, folder, names.as_slice())?))
}

/// The path in the folder of the file that is put in under this number: `f` and the number.
pub fn seed_path(alloc: Global, folder: &[u8], number: u32) -> Result<SystemPath, AllocError>
    ensures { IfOk result (λ at. IsPathOf (below folder.now (seed_name number ∷ [])) at) }
{
    let digits = number.to_string(alloc)?;
    let mut name = b"f".to_vec(alloc)?;
    name.extend_from_slice(digits.as_bytes())?;
    let mut names = Vec::new(alloc);
    names.push(Buf::from(name))?;
    Ok(as_text(joined(alloc, folder, names.as_slice())?))
}
