//! The tree of names.

ghost use Rattle.std.specs.Prelude.{◌≡◌};

use crate::inodes::Inodes;
use crate::nodes::Nodes;
use std::alloc::Global;

/// What stands under the names of all directories, and what is kept of files beside their bytes.
#[derive(Drop)]
pub struct Tree {
    pub nodes: Nodes,
    pub inodes: Inodes,
    /// How many directories were made. They are numbered from 1 on; the root's number is 0.
    pub dirs: u64,
}

impl Tree {
    ghost use Rattle.file_tree.specs.Trees.{empty_tree};

    /// A tree with nothing below its root.
    pub fn new(alloc: Global) -> Tree
        ensures { result ≡ empty_tree }
    {
        Tree {
            nodes: Nodes::new(alloc),
            inodes: Inodes::new(alloc),
            dirs: 0,
        }
    }
}
