//! Files and a tree of names over them, together.

ghost use Rattle.std.specs.Prelude.{◌≡◌, IfOk, OnOk, OnErr};

use crate::tree::Tree;
use std::alloc::{AllocError, Global};
use uring_base::Buf;
use uring_model::Files;

/// Files, and a tree of names over them.
#[derive(Drop)]
pub struct World {
    pub files: Files,
    pub tree: Tree,
}

impl World {
    ghost use Rattle.file_tree.specs.Worlds.{empty_world, put_in};

    /// No files, and nothing below the root.
    pub fn new(alloc: Global) -> World
        ensures { result ≡ empty_world }
    {
        World {
            files: Files::new(alloc),
            tree: Tree::new(alloc),
        }
    }

    /// Puts a file with these bytes under the number. One that was there keeps its name and its
    /// mode; a new one has neither.
    pub fn put_file(&mut self, alloc: Global, number: u32, bytes: Buf) -> Result<(), AllocError>
        ensures ok { OnOk result (self.new ≡ put_in number bytes self.old) }
        ensures err { OnErr result (self.new ≡ self.old) }
    {
        let is_new = self.files.get(number).is_none();
        self.files.put(alloc, number, bytes)?;
        if is_new {
            self.tree.inodes.remove(number);
        }
        Ok(())
    }
}
