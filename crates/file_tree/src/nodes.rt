//! What stands at the places of all directories.

ghost use Rattle.std.specs.Prelude.{◌≡◌, ◌==◌, OnOk, OnErr};
ghost use Rattle.std.specs.BTreeMap.{keys, IsOrdered};
ghost use Rattle.std.specs.List.{list_any};
ghost use Rattle.std.specs.FinMap.{empty, get, insert, remove};
ghost use Rattle.file_tree.specs.Places.{place_cmp};

use crate::place::{Node, Place};
use std::alloc::{AllocError, Global};
use std::collections::BTreeMap;
use std::marker::Model;

/// Nodes by place, seen as a finite map.
#[derive(Drop)]
pub struct Nodes {
    by_place: BTreeMap<Place, Node>,
}

impl Model for Nodes {
    ghost use Rattle.std.specs.FinMap.{FinMap, code, from_entries};
    ghost use Rattle.file_tree.specs.contracts.place.Place as places;
    ghost use Rattle.file_tree.specs.contracts.place.Node as nodes;
    ghost use Rattle.file_tree.specs.declared.place.Node.{Node};
    ghost use Rattle.file_tree.specs.Places.{place_cmp};

    ghost Value = { FinMap place_cmp Node };

    ghost coded = { code places.the_row.coded nodes.the_row.coded };

    ghost view = { λ n. from_entries n.by_place.entries };
}

impl Nodes {
    ghost use Rattle.file_tree.specs.Trees.{has_entries};

    /// Nothing stands anywhere.
    pub fn new(alloc: Global) -> Nodes
        ensures { result ≡ empty }
    {
        Nodes {
            by_place: BTreeMap::new(alloc),
        }
    }

    /// What stands at a place.
    pub fn get(&self, place: &Place) -> Option<Node>
        ensures { result ≡ get self.now place.now }
    {
        self.by_place.get(place).copied()
    }

    /// Puts a node at a place, over what stood there.
    pub(crate) fn put(&mut self, place: Place, node: Node) -> Result<(), AllocError>
        ensures ok { OnOk result (self.new ≡ insert self.old place node) }
        ensures err { OnErr result (self.new ≡ self.old) }
    {
        self.by_place.insert(place, node)?;
        Ok(())
    }

    /// Takes away what stands at a place.
    pub(crate) fn remove(&mut self, place: &Place)
        ensures { self.new ≡ remove self.old place.now }
    {
        let _node = self.by_place.remove(place);
    }

    /// Whether there is anything in the directory of this number.
    pub fn has_entries(&self, dir: u64) -> bool
        ensures { result ≡ has_entries self.now dir }
    {
        any_inside(&self.by_place, dir)
    }
}

fn any_inside(nodes: &BTreeMap<Place, Node>, dir: u64) -> bool
    ensures any { result ≡ list_any (λ p. p.dir == dir) (keys nodes.now) }
    ensures ordered { IsOrdered place_cmp nodes.now }
{
    nodes.keys().any(|place| place.dir == dir)
}
