//! Handles, each of which names a group of operations.

ghost use Rattle.std.specs.Prelude.{◌≡◌, [], OnOk, OnErr, IsOk};
ghost use Rattle.rent_table.specs.Lists.{has};
ghost use Rattle.rent_table.specs.Joins.{with_handle};

use std::alloc::{AllocError, Global};
use std::marker::Model;

/// Names operations of the table that gave it, which can be canceled together.
#[derive(Clone, Copy, PartialEq, Eq, Debug)]
pub struct CancelHandle {
    pub(crate) number: u64,
}

impl Model for CancelHandle {
    ghost use Rattle.std.specs.Prelude.{ℕ};

    ghost Value = { ℕ };

    ghost view = { λ handle. handle.number };

    ghost inverse = { λ number. record { number = number } };
}

/// The handles to which an operation is joined, in the order of joining. The first needs no memory.
#[derive(Drop)]
pub(crate) struct Joins {
    handles: Option<JoinedHandles>,
}

#[derive(Drop)]
struct JoinedHandles {
    first: u64,
    more: Vec<u64>,
}

impl Model for Joins {
    ghost use Rattle.std.specs.Prelude.{ℕ, List};
    ghost use Rattle.rent_table.specs.JoinedHandles.{handles_in};

    ghost Value = { List ℕ };

    ghost view = { λ joins. handles_in joins.handles };
}

impl Joins {
    pub(crate) fn none() -> Joins
        ensures { result ≡ [] }
    {
        Joins { handles: None }
    }

    pub(crate) fn has(&self, handle: u64) -> bool
        ensures { result ≡ has handle self.now }
    {
        match &self.handles {
            Some(handles) => handle == handles.first || handles.more.contains(&handle),
            None => false,
        }
    }

    /// Adds a handle, unless it is there.
    pub(crate) fn add(&mut self, alloc: Global, handle: u64) -> Result<(), AllocError>
        ensures ok { OnOk result (self.new ≡ with_handle handle self.old) }
        ensures err { OnErr result (self.new ≡ self.old) }
        ensures first { self.old ≡ [] → IsOk result }
    {
        if self.has(handle) {
            return Ok(());
        }
        match &mut self.handles {
            Some(handles) => handles.more.push(handle)?,
            None => {
                self.handles = Some(JoinedHandles {
                    first: handle,
                    more: Vec::new(alloc),
                });
            }
        }
        Ok(())
    }
}
