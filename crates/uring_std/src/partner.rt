//! The partner.

use crate::folder::{Folder, PutFault};
use crate::ledger::Ledger;
use crate::turn::run_turn;
use partner_traits::{Counts, EnterCall, Partner, PartnerError, Seedable};
use ring_traits::PartnerSide;
use std::alloc::Global;
use std::net::Net;
use std::rt::Files;
use uring_base::{Buf, Event};

/// A partner whose files are those of a folder. It tells its log, and not its files, which anyone
/// may change.
///
/// A turn takes an entry only while the other side has room for its completion, performs it, and
/// posts at once, so entries settle in the order of their taking. An entry for whose end there was
/// no memory ends first in the next turn.
#[derive(Drop)]
pub struct StdPartner<R: Files> {
    ledger: Ledger,
    folder: Folder<R>,
}

impl<R: Files + Net + Drop> StdPartner<R> {
    /// A partner over the folder of this name, in which no file is open. It asks nothing of the
    /// system yet: a folder that isn't there shows at the first call.
    pub fn new(alloc: Global, rt: R, folder: Buf) -> StdPartner<R> {
        StdPartner {
            ledger: Ledger::new(alloc),
            folder: Folder::new(alloc, rt, folder),
        }
    }
}

impl<R: Files + Net + Drop> Counts for StdPartner<R> {
    ghost faults = { λ p. p.ledger.faults };
}

impl<R: Files + Net + Drop> Partner for StdPartner<R> {
    ghost use Rattle.std.specs.Prelude.{[], None, Some, length, refl};
    ghost use Rattle.uring_model.specs.Machine.{Files};
    ghost use Rattle.uring_model.specs.Partner.{file_machine};
    ghost use Rattle.uring_model.specs.Refines.{AnyFiles, same_files, files_refine};
    ghost use Rattle.uring_std.specs.Told.{put_in, puts_in};

    ghost log = { λ p. Some p.ledger.log.items };

    ghost log_count = { λ p. length p.ledger.log.items };

    ghost World = { Files };

    ghost machine = { file_machine };

    ghost state = { λ _. None };

    ghost view = { same_files };

    ghost Plain = { AnyFiles };

    ghost refines = { files_refine };

    ghost put = { put_in };

    ghost puts = { puts_in };

    ghost plan = { λ _. [] };

    ghost errno = { λ p. p.ledger.errno };

    // It keeps no calls.
    ghost calls = { λ _. None };

    fn enter<Q: PartnerSide>(
        &mut self,
        alloc: Global,
        call: &EnterCall,
        side: &mut Q,
    ) -> Result<u32, PartnerError> {
        let taken = run_turn(
            &mut self.ledger,
            &mut self.folder,
            alloc,
            side,
            call.to_submit,
        )?;
        Ok(taken)
    }

    fn log_len(&self) -> usize {
        self.ledger.log.len()
    }

    fn log_event(&self, place: usize) -> Event {
        self.ledger.event_at(place)
    }

    ghost counts_log = { λ p. refl };
}

impl<R: Files + Net + Drop> Seedable for StdPartner<R> {
    /// Writes the bytes to the file of the folder whose name is `f` and the number, in place of
    /// what was in it, and opens it under the number. A fault has the system's error number; the
    /// file may then have some of the bytes.
    fn put_file(&mut self, alloc: Global, number: u32, bytes: Buf) -> Result<(), PartnerError> {
        match self.folder.put_file(alloc, number, bytes.as_slice()) {
            Ok(()) => Ok(()),
            Err(PutFault::NoMemory) => Err(PartnerError::NoMemory),
            Err(PutFault::System(errno)) => Err(self.ledger.fault(errno)),
        }
    }

    /// Drops the choice: entries settle in the order of their taking.
    fn add_choice(&mut self, _alloc: Global, _choice: u32) -> Result<(), PartnerError> {
        Ok(())
    }
}
