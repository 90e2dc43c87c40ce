//! What is kept of files beside their bytes.

ghost use Rattle.std.specs.Prelude.{◌≡◌, IsOk, IsSome, OnOk, OnErr};
ghost use Rattle.std.specs.FinMap as map;

use std::alloc::{AllocError, Global};
use std::collections::BTreeMap;
use std::marker::Model;

/// The mode of a file that was put under its number, and not opened into being: a regular file that
/// all may read and write.
pub const SEEDED_MODE: u32 = 0o100666;

/// What is kept of a file beside its bytes.
#[derive(Clone, Copy, PartialEq, Eq, Debug)]
pub struct Inode {
    pub mode: u32,
    /// Whether it has a name.
    pub named: bool,
}

/// Inodes by file number, seen as a finite map.
#[derive(Drop)]
pub struct Inodes {
    by_number: BTreeMap<u32, Inode>,
}

impl Model for Inodes {
    ghost use Rattle.std.specs.Coded.{coded_ℕ};
    ghost use Rattle.std.specs.Ordering.{nat_cmp};
    ghost use Rattle.std.specs.FinMap as map;
    ghost use Rattle.file_tree.specs.contracts.inodes.Inode as inode;
    ghost use Rattle.file_tree.specs.declared.inodes.Inode.{Inode};

    ghost Value = { map.FinMap nat_cmp Inode };

    ghost coded = { map.code coded_ℕ inode.the_row.coded };

    ghost view = { λ inodes. map.from_entries inodes.by_number.entries };
}

impl Inodes {
    ghost use Rattle.file_tree.specs.Trees.{has_name, mode_of, unnamed};

    /// Nothing is kept of any file.
    pub fn new(alloc: Global) -> Inodes
        ensures { result ≡ map.empty }
    {
        Inodes {
            by_number: BTreeMap::new(alloc),
        }
    }

    fn get(&self, number: u32) -> Option<Inode>
        ensures { result ≡ map.get self.now number }
    {
        self.by_number.get(&number).copied()
    }

    /// The mode of a file.
    pub fn mode(&self, number: u32) -> u32
        ensures { result ≡ mode_of self.now number }
    {
        match self.get(number) {
            None => SEEDED_MODE,
            Some(inode) => inode.mode,
        }
    }

    /// Whether a file has a name.
    pub fn has_name(&self, number: u32) -> bool
        ensures { result ≡ has_name self.now number }
    {
        match self.get(number) {
            None => false,
            Some(inode) => inode.named,
        }
    }

    /// Keeps this of a file, in place of what was kept.
    pub(crate) fn put(&mut self, number: u32, inode: Inode) -> Result<(), AllocError>
        ensures ok { OnOk result (self.new ≡ map.insert self.old number inode) }
        ensures err { OnErr result (self.new ≡ self.old) }
        ensures replaces { IsSome (map.get self.old number) → IsOk result }
    {
        self.by_number.insert(number, inode)?;
        Ok(())
    }

    /// A file has lost its name.
    pub(crate) fn unname(&mut self, number: u32)
        ensures { self.new ≡ unnamed self.old number }
    {
        let Some(inode) = self.get(number) else {
            return;
        };
        let nameless = Inode {
            mode: inode.mode,
            named: false,
        };
        if self.put(number, nameless).is_err() {
            unreachable!();
        }
    }

    /// Keeps nothing of a file.
    pub(crate) fn remove(&mut self, number: u32)
        ensures { self.new ≡ map.remove self.old number }
    {
        let _inode = self.by_number.remove(&number);
    }
}
