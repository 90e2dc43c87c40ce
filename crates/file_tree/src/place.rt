//! Places in directories, and what stands there.

ghost use Rattle.std.specs.Prelude.{◌≡◌, IfOk};
ghost use Rattle.std.specs.Ordering.{nat_cmp};
ghost use Rattle.std.specs.Cmp.Lexicographic.{slice_cmp};

use std::alloc::{AllocError, Global};
use std::cmp::Ordering;
use uring_base::Buf;

/// A place in a directory: the directory's number, and a name in it. Places are ordered by these.
#[derive(Drop)]
pub struct Place {
    pub dir: u64,
    pub name: Buf,
}

/// What stands at a place.
#[derive(Clone, Copy, PartialEq, Eq, Debug)]
pub enum Node {
    /// A directory, by its number, with its mode.
    Dir { number: u64, mode: u32 },
    /// A file, by its number.
    File { number: u32 },
}

impl Place {
    /// A copy of the place.
    pub fn try_clone(&self, alloc: Global) -> Result<Place, AllocError>
        ensures { IfOk result (λ place. place ≡ self.now) }
    {
        Ok(Place {
            dir: self.dir,
            name: self.name.try_clone(alloc)?,
        })
    }
}

/// Where a path leads to.
#[derive(Drop)]
pub enum Spot {
    /// Nowhere, and this is answered: an error number, below 0.
    Refused(i32),
    /// The root, which has no place.
    Root,
    /// A place in a directory that is there.
    At(Place),
}

impl PartialEq for Place {
    ghost use Rattle.std.specs.Ordering.{eq_by_cmp};
    ghost use Rattle.std.specs.Cmp.Rules.{comparing};
    ghost use Rattle.std.proofs.Common.{rules};
    ghost use Rattle.file_tree.specs.Places.{place_cmp};

    ghost eq = { eq_by_cmp place_cmp };

    ghost laws = { Prim.search (comparing, rules) };

    fn eq(&self, other: &Place) -> bool {
        self.cmp(other).is_eq()
    }
}

impl Eq for Place {
    ghost use Rattle.std.specs.Cmp.Rules.{comparing};
    ghost use Rattle.std.proofs.Common.{rules};

    ghost laws = { Prim.search (comparing, rules) };
}

impl PartialOrd for Place {
    ghost use Rattle.std.specs.Cmp.{partial_order_from_own_ties};
    ghost use Rattle.std.specs.Cmp.Rules.{comparing};
    ghost use Rattle.std.specs.Ordering.{as_partial_cmp};
    ghost use Rattle.std.proofs.Common.{rules};
    ghost use Rattle.file_tree.specs.Places.{place_cmp};

    ghost partial_cmp = { as_partial_cmp place_cmp };

    ghost laws = { partial_order_from_own_ties (Prim.search (comparing, rules)) (Prim.search (comparing, rules)) };

    fn partial_cmp(&self, other: &Place) -> Option<Ordering> {
        Some(self.cmp(other))
    }
}

impl Ord for Place {
    ghost use Rattle.std.specs.Prelude.{refl};
    ghost use Rattle.std.specs.Cmp.Rules.{comparing};
    ghost use Rattle.std.proofs.Common.{rules};
    ghost use Rattle.file_tree.specs.Places.{place_cmp};

    ghost cmp = { place_cmp };

    ghost total = { Prim.search (comparing, rules) };

    ghost matches_partial_cmp = { λ x y. refl };

    ghost matches_eq = { λ x y. refl };

    fn cmp(&self, other: &Place) -> Ordering {
        let names = compare_bytes(self.name.as_slice(), other.name.as_slice());
        self.dir.cmp(&other.dir).then(names)
    }
}

fn compare_bytes<'x>(a: &'x [u8], b: &'x [u8]) -> Ordering
    ensures { result ≡ slice_cmp nat_cmp a.now b.now }
{
    Ord::cmp(&a, &b)
}
