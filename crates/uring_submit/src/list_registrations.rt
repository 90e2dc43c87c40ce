//! The registrations of lists, whose numbers are made of them.

ghost use Rattle.std.specs.Prelude.{◌≡◌, ◌^◌, ◌<◌, ◌≤◌, [], ◌∷◌, ◌++◌, ℕ, length, map, min, option_copied};
ghost use Rattle.uring_base.specs.Words.{bits_of};
ghost use Rattle.uring_types.specs.declared.register_codes.TheConstants.{REGISTER_BUFFERS_UPDATE, REGISTER_BUFFERS2, REGISTER_FILES, REGISTER_FILES_UPDATE, REGISTER_RESTRICTIONS};
ghost use Rattle.uring_submit.specs.declared.sending.TheConstants.{RSRC_LEN};
ghost use Rattle.uring_submit.specs.Numbers.{both, restriction_number, shorter, tags_or_none};
ghost use Rattle.uring_submit.specs.Registrations.{request_of, Nothing, Sends};
ghost use Rattle.uring_submit.specs.Submits.{params_of, registered_of};

use crate::error::SubmitError;
use crate::restriction::Restriction;
use crate::sending::{
    RSRC_LEN, append, bits_of_each, both, numbers, restriction_numbers, sent, tell,
};
use crate::submitter::Submitter;
use partner_traits::Registrar;
use std::alloc::Global;
use uring_types::register_codes::{
    REGISTER_BUFFERS_UPDATE, REGISTER_BUFFERS2, REGISTER_FILES, REGISTER_FILES_UPDATE,
    REGISTER_RESTRICTIONS,
};

impl Submitter {
    /// Registers buffers with tags, as many as there are of both.
    pub fn register_buffers2<P: Registrar>(
        &self,
        alloc: Global,
        partner: &mut P,
        bufs: &[u64],
        tags: &[u64],
    ) -> Result<(), SubmitError>
        requires bufs { length bufs.now < 2 ^ 32 }
        requires tags { length tags.now < 2 ^ 32 }
        ensures sends { Sends P.answers P.calls P.log P.state P.plan P.faults P.errno (request_of (params_of self.now) (registered_of self.now) REGISTER_BUFFERS2 RSRC_LEN (both (min (length bufs.now) (length tags.now) ∷ 0 ∷ []) (min (length bufs.now) (length tags.now)) bufs.now tags.now)) Nothing partner.old partner.new result }
    {
        let count = bufs.len().min(tags.len());
        let nums = both(alloc, &[count as u64, 0], count, bufs, tags)?;
        tell(
            alloc,
            partner,
            self.request_of(REGISTER_BUFFERS2, RSRC_LEN, nums),
        )
    }

    /// Puts other buffers, maybe with tags, into places of those that are registered: as many as
    /// the shorter list has.
    pub fn register_buffers_update<P: Registrar>(
        &self,
        alloc: Global,
        partner: &mut P,
        offset: u32,
        bufs: &[u64],
        tags: Option<&[u64]>,
    ) -> Result<(), SubmitError>
        requires { length bufs.now < 2 ^ 32 }
        ensures sends { Sends P.answers P.calls P.log P.state P.plan P.faults P.errno (request_of (params_of self.now) (registered_of self.now) REGISTER_BUFFERS_UPDATE RSRC_LEN (both (offset ∷ shorter bufs.now (option_copied tags.entry) ∷ []) (shorter bufs.now (option_copied tags.entry)) bufs.now (tags_or_none (option_copied tags.entry)))) Nothing partner.old partner.new result }
    {
        match tags {
            None => self.update(alloc, partner, offset, bufs.len(), bufs, &[]),
            Some(tags) => {
                let count = bufs.len().min(tags.len());
                self.update(alloc, partner, offset, count, bufs, tags)
            }
        }
    }

    /// Sends so many of these buffers and tags.
    fn update<P: Registrar>(
        &self,
        alloc: Global,
        partner: &mut P,
        offset: u32,
        count: usize,
        bufs: &[u64],
        tags: &[u64],
    ) -> Result<(), SubmitError>
        requires { count ≤ length bufs.now }
        ensures { Sends P.answers P.calls P.log P.state P.plan P.faults P.errno (request_of (params_of self.now) (registered_of self.now) REGISTER_BUFFERS_UPDATE RSRC_LEN (both (offset ∷ count ∷ []) count bufs.now tags.now)) Nothing partner.old partner.new result }
    {
        let nums = both(alloc, &[u64::from(offset), count as u64], count, bufs, tags)?;
        tell(
            alloc,
            partner,
            self.request_of(REGISTER_BUFFERS_UPDATE, RSRC_LEN, nums),
        )
    }

    /// Registers these files; a place of [`crate::SKIP_FILE`] or -1 is as the partner has it.
    pub fn register_files<P: Registrar>(
        &self,
        alloc: Global,
        partner: &mut P,
        fds: &[i32],
    ) -> Result<(), SubmitError>
        requires { length fds.now < 2 ^ 32 }
        ensures sends { Sends P.answers P.calls P.log P.state P.plan P.faults P.errno (request_of (params_of self.now) (registered_of self.now) REGISTER_FILES (length fds.now) (map bits_of fds.now)) Nothing partner.old partner.new result }
    {
        let nums = bits_of_each(alloc, fds)?;
        tell(
            alloc,
            partner,
            self.request_of(REGISTER_FILES, fds.len() as u32, nums),
        )
    }

    /// Puts these files into places of those that are registered, and gives the partner's number.
    pub fn register_files_update<P: Registrar>(
        &self,
        alloc: Global,
        partner: &mut P,
        offset: u32,
        fds: &[i32],
    ) -> Result<usize, SubmitError>
        requires { length fds.now < 2 ^ 32 }
        ensures sends { Sends P.answers P.calls P.log P.state P.plan P.faults P.errno (request_of (params_of self.now) (registered_of self.now) REGISTER_FILES_UPDATE (length fds.now) (offset ∷ map bits_of fds.now)) (λ given number left. given ≡ number) partner.old partner.new result }
    {
        let mut nums = numbers(alloc, &[u64::from(offset)])?;
        let fd_bits = bits_of_each(alloc, fds)?;
        append(alloc, &mut nums, fd_bits.as_slice())?;
        let request = self.request_of(REGISTER_FILES_UPDATE, fds.len() as u32, nums);
        let answer = sent(alloc, partner, request)?;
        Ok(answer.number as usize)
    }

    /// Restricts what a disabled ring takes once it is enabled.
    pub fn register_restrictions<P: Registrar>(
        &self,
        alloc: Global,
        partner: &mut P,
        res: &[Restriction],
    ) -> Result<(), SubmitError>
        requires { length res.now < 2 ^ 32 }
        ensures sends { Sends P.answers P.calls P.log P.state P.plan P.faults P.errno (request_of (params_of self.now) (registered_of self.now) REGISTER_RESTRICTIONS (length res.now) (map restriction_number res.now)) Nothing partner.old partner.new result }
    {
        let nums = restriction_numbers(alloc, res)?;
        tell(
            alloc,
            partner,
            self.request_of(REGISTER_RESTRICTIONS, res.len() as u32, nums),
        )
    }
}
