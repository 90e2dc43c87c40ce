//! Walking from directory to directory.

ghost use Rattle.std.specs.Prelude.{◌≡◌, IfOk};
ghost use Rattle.file_tree.specs.Opens.{spot_of};
ghost use Rattle.file_tree.specs.Trees.{walk};

use crate::names::{names_in, refused_form};
use crate::nodes::Nodes;
use crate::place::{Node, Place, Spot};
use std::alloc::{AllocError, Global};
use uring_base::Buf;
use uring_base::errno::{ENOENT, ENOTDIR};

/// Where these names lead to from the root on. The last one isn't looked up.
pub(crate) fn walk(nodes: &Nodes, names: Vec<Buf>) -> Spot
    ensures { result ≡ walk nodes.now 0 names.items }
{
    let mut rest = names.into_iter();
    let Some(first) = rest.next() else {
        return Spot::Root;
    };
    let mut place = Place {
        dir: 0,
        name: first,
    };
    while let Some(name) = rest.next() {
        match nodes.get(&place) {
            None => return Spot::Refused(-ENOENT),
            Some(Node::File { .. }) => return Spot::Refused(-ENOTDIR),
            Some(Node::Dir { number, .. }) => place = Place { dir: number, name },
        }
    }
    Spot::At(place)
}

/// Where a path leads to.
pub(crate) fn spot_of(alloc: Global, nodes: &Nodes, path: &[u8]) -> Result<Spot, AllocError>
    ensures { IfOk result (λ spot. spot ≡ spot_of nodes.now path.now) }
{
    let names = names_in(alloc, path)?;
    match refused_form(path, names.as_slice()) {
        Some(refusal) => Ok(Spot::Refused(refusal)),
        None => Ok(walk(nodes, names)),
    }
}
