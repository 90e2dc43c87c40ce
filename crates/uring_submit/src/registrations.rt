//! The registrations of which nothing is read back: code, count and numbers of each.

ghost use Rattle.std.specs.Prelude.{◌≡◌, ◌^◌, ◌<◌, [], ◌∷◌, length};
ghost use Rattle.uring_base.specs.Words.{bits_of};
ghost use Rattle.uring_types.specs.FlagBits.{clone_bits};
ghost use Rattle.uring_types.specs.declared.register_codes.TheConstants.{REGISTER_BUFFERS, REGISTER_BUFFERS2, REGISTER_CLONE_BUFFERS, REGISTER_ENABLE_RINGS, REGISTER_EVENTFD, REGISTER_EVENTFD_ASYNC, REGISTER_FILES2, REGISTER_NAPI, REGISTER_PBUF_RING, REGISTER_SYNC_CANCEL, RSRC_REGISTER_SPARSE, UNREGISTER_BUFFERS, UNREGISTER_EVENTFD, UNREGISTER_FILES, UNREGISTER_PBUF_RING, UNREGISTER_PERSONALITY};
ghost use Rattle.uring_submit.specs.declared.sending.TheConstants.{NAPI_ADD_ID, NAPI_DEL_ID, RSRC_LEN};
ghost use Rattle.uring_submit.specs.Registrations.{raw_request, request_of, Nothing, Sends};
ghost use Rattle.uring_submit.specs.Numbers.{canceled};
ghost use Rattle.uring_submit.specs.Submits.{params_of, registered_of};

use crate::error::SubmitError;
use crate::sending::{NAPI_ADD_ID, NAPI_DEL_ID, RSRC_LEN, bits, send_raw, time_bits};
use crate::submitter::Submitter;
use bitflags::Flags;
use partner_traits::Registrar;
use std::alloc::Global;
use uring_types::register_codes::{
    REGISTER_BUFFERS, REGISTER_BUFFERS2, REGISTER_CLONE_BUFFERS, REGISTER_ENABLE_RINGS,
    REGISTER_EVENTFD, REGISTER_EVENTFD_ASYNC, REGISTER_FILES2, REGISTER_NAPI, REGISTER_PBUF_RING,
    REGISTER_SYNC_CANCEL, RSRC_REGISTER_SPARSE, UNREGISTER_BUFFERS, UNREGISTER_EVENTFD,
    UNREGISTER_FILES, UNREGISTER_PBUF_RING, UNREGISTER_PERSONALITY,
};
use uring_types::{CancelBuilder, CloneBuffersFlags, Timespec};

impl Submitter {
    /// Registers these buffers, each by its loan's number.
    pub fn register_buffers<P: Registrar>(
        &self,
        alloc: Global,
        partner: &mut P,
        bufs: &[u64],
    ) -> Result<(), SubmitError>
        requires { length bufs.now < 2 ^ 32 }
        ensures sends { Sends P.answers P.calls P.log P.state P.plan P.faults P.errno (request_of (params_of self.now) (registered_of self.now) REGISTER_BUFFERS (length bufs.now) bufs.now) Nothing partner.old partner.new result }
    {
        self.send(alloc, partner, REGISTER_BUFFERS, bufs.len() as u32, bufs)
    }

    /// Makes places for so many buffers, with none in them yet.
    pub fn register_buffers_sparse<P: Registrar>(
        &self,
        alloc: Global,
        partner: &mut P,
        nr: u32,
    ) -> Result<(), SubmitError>
        ensures sends { Sends P.answers P.calls P.log P.state P.plan P.faults P.errno (request_of (params_of self.now) (registered_of self.now) REGISTER_BUFFERS2 RSRC_LEN (nr ∷ RSRC_REGISTER_SPARSE ∷ [])) Nothing partner.old partner.new result }
    {
        self.send(
            alloc,
            partner,
            REGISTER_BUFFERS2,
            RSRC_LEN,
            &[u64::from(nr), RSRC_REGISTER_SPARSE],
        )
    }

    /// Makes places for so many files, with none in them yet.
    pub fn register_files_sparse<P: Registrar>(
        &self,
        alloc: Global,
        partner: &mut P,
        nr: u32,
    ) -> Result<(), SubmitError>
        ensures sends { Sends P.answers P.calls P.log P.state P.plan P.faults P.errno (request_of (params_of self.now) (registered_of self.now) REGISTER_FILES2 RSRC_LEN (nr ∷ RSRC_REGISTER_SPARSE ∷ [])) Nothing partner.old partner.new result }
    {
        self.send(
            alloc,
            partner,
            REGISTER_FILES2,
            RSRC_LEN,
            &[u64::from(nr), RSRC_REGISTER_SPARSE],
        )
    }

    /// Registers a descriptor that is told of completions.
    pub fn register_eventfd<P: Registrar>(
        &self,
        alloc: Global,
        partner: &mut P,
        eventfd: i32,
    ) -> Result<(), SubmitError>
        ensures sends { Sends P.answers P.calls P.log P.state P.plan P.faults P.errno (request_of (params_of self.now) (registered_of self.now) REGISTER_EVENTFD 1 (bits_of eventfd ∷ [])) Nothing partner.old partner.new result }
    {
        self.send(alloc, partner, REGISTER_EVENTFD, 1, &[bits(eventfd)])
    }

    /// Registers a descriptor that is told of the completions that come later than their submission.
    pub fn register_eventfd_async<P: Registrar>(
        &self,
        alloc: Global,
        partner: &mut P,
        eventfd: i32,
    ) -> Result<(), SubmitError>
        ensures sends { Sends P.answers P.calls P.log P.state P.plan P.faults P.errno (request_of (params_of self.now) (registered_of self.now) REGISTER_EVENTFD_ASYNC 1 (bits_of eventfd ∷ [])) Nothing partner.old partner.new result }
    {
        self.send(alloc, partner, REGISTER_EVENTFD_ASYNC, 1, &[bits(eventfd)])
    }

    /// Lets go the personality of this number.
    pub fn unregister_personality<P: Registrar>(
        &self,
        alloc: Global,
        partner: &mut P,
        id: u16,
    ) -> Result<(), SubmitError>
        ensures sends { Sends P.answers P.calls P.log P.state P.plan P.faults P.errno (request_of (params_of self.now) (registered_of self.now) UNREGISTER_PERSONALITY id []) Nothing partner.old partner.new result }
    {
        self.send(alloc, partner, UNREGISTER_PERSONALITY, u32::from(id), &[])
    }

    /// Lets go the registered buffers.
    pub fn unregister_buffers<P: Registrar>(
        &self,
        alloc: Global,
        partner: &mut P,
    ) -> Result<(), SubmitError>
        ensures sends { Sends P.answers P.calls P.log P.state P.plan P.faults P.errno (request_of (params_of self.now) (registered_of self.now) UNREGISTER_BUFFERS 0 []) Nothing partner.old partner.new result }
    {
        self.send(alloc, partner, UNREGISTER_BUFFERS, 0, &[])
    }

    /// Lets go the registered files.
    pub fn unregister_files<P: Registrar>(
        &self,
        alloc: Global,
        partner: &mut P,
    ) -> Result<(), SubmitError>
        ensures sends { Sends P.answers P.calls P.log P.state P.plan P.faults P.errno (request_of (params_of self.now) (registered_of self.now) UNREGISTER_FILES 0 []) Nothing partner.old partner.new result }
    {
        self.send(alloc, partner, UNREGISTER_FILES, 0, &[])
    }

    /// Lets go the descriptor that is told of completions.
    pub fn unregister_eventfd<P: Registrar>(
        &self,
        alloc: Global,
        partner: &mut P,
    ) -> Result<(), SubmitError>
        ensures sends { Sends P.answers P.calls P.log P.state P.plan P.faults P.errno (request_of (params_of self.now) (registered_of self.now) UNREGISTER_EVENTFD 0 []) Nothing partner.old partner.new result }
    {
        self.send(alloc, partner, UNREGISTER_EVENTFD, 0, &[])
    }

    /// Enables a ring that was made disabled.
    pub fn register_enable_rings<P: Registrar>(
        &self,
        alloc: Global,
        partner: &mut P,
    ) -> Result<(), SubmitError>
        ensures sends { Sends P.answers P.calls P.log P.state P.plan P.faults P.errno (request_of (params_of self.now) (registered_of self.now) REGISTER_ENABLE_RINGS 0 []) Nothing partner.old partner.new result }
    {
        self.send(alloc, partner, REGISTER_ENABLE_RINGS, 0, &[])
    }

    /// Adds a device to those that are polled.
    pub fn register_napi_add_id<P: Registrar>(
        &self,
        alloc: Global,
        partner: &mut P,
        id: u32,
    ) -> Result<(), SubmitError>
        ensures sends { Sends P.answers P.calls P.log P.state P.plan P.faults P.errno (request_of (params_of self.now) (registered_of self.now) REGISTER_NAPI 1 (0 ∷ 0 ∷ NAPI_ADD_ID ∷ id ∷ [])) Nothing partner.old partner.new result }
    {
        self.send(
            alloc,
            partner,
            REGISTER_NAPI,
            1,
            &[0, 0, NAPI_ADD_ID, u64::from(id)],
        )
    }

    /// Takes a device out of those that are polled.
    pub fn register_napi_del_id<P: Registrar>(
        &self,
        alloc: Global,
        partner: &mut P,
        id: u32,
    ) -> Result<(), SubmitError>
        ensures sends { Sends P.answers P.calls P.log P.state P.plan P.faults P.errno (request_of (params_of self.now) (registered_of self.now) REGISTER_NAPI 1 (0 ∷ 0 ∷ NAPI_DEL_ID ∷ id ∷ [])) Nothing partner.old partner.new result }
    {
        self.send(
            alloc,
            partner,
            REGISTER_NAPI,
            1,
            &[0, 0, NAPI_DEL_ID, u64::from(id)],
        )
    }

    /// Registers a ring of buffers, without flags.
    pub fn register_buf_ring<P: Registrar>(
        &self,
        alloc: Global,
        partner: &mut P,
        addr: u64,
        entries: u16,
        bgid: u16,
    ) -> Result<(), SubmitError>
        ensures sends { Sends P.answers P.calls P.log P.state P.plan P.faults P.errno (request_of (params_of self.now) (registered_of self.now) REGISTER_PBUF_RING 1 (addr ∷ entries ∷ bgid ∷ 0 ∷ [])) Nothing partner.old partner.new result }
    {
        self.send(
            alloc,
            partner,
            REGISTER_PBUF_RING,
            1,
            &[addr, u64::from(entries), u64::from(bgid), 0],
        )
    }

    /// Registers a ring of buffers.
    pub fn register_buf_ring_with_flags<P: Registrar>(
        &self,
        alloc: Global,
        partner: &mut P,
        addr: u64,
        entries: u16,
        bgid: u16,
        flags: u16,
    ) -> Result<(), SubmitError>
        ensures sends { Sends P.answers P.calls P.log P.state P.plan P.faults P.errno (request_of (params_of self.now) (registered_of self.now) REGISTER_PBUF_RING 1 (addr ∷ entries ∷ bgid ∷ flags ∷ [])) Nothing partner.old partner.new result }
    {
        self.send(
            alloc,
            partner,
            REGISTER_PBUF_RING,
            1,
            &[addr, u64::from(entries), u64::from(bgid), u64::from(flags)],
        )
    }

    /// Lets go a ring of buffers.
    pub fn unregister_buf_ring<P: Registrar>(
        &self,
        alloc: Global,
        partner: &mut P,
        bgid: u16,
    ) -> Result<(), SubmitError>
        ensures sends { Sends P.answers P.calls P.log P.state P.plan P.faults P.errno (request_of (params_of self.now) (registered_of self.now) UNREGISTER_PBUF_RING 1 (0 ∷ 0 ∷ bgid ∷ 0 ∷ [])) Nothing partner.old partner.new result }
    {
        self.send(
            alloc,
            partner,
            UNREGISTER_PBUF_RING,
            1,
            &[0, 0, u64::from(bgid), 0],
        )
    }

    /// Takes over the buffers that another ring registered.
    pub fn register_buffers_clone<P: Registrar>(
        &self,
        alloc: Global,
        partner: &mut P,
        src_fd: i32,
    ) -> Result<(), SubmitError>
        ensures sends { Sends P.answers P.calls P.log P.state P.plan P.faults P.errno (raw_request REGISTER_CLONE_BUFFERS 1 (bits_of src_fd ∷ 0 ∷ 0 ∷ 0 ∷ 0 ∷ [])) Nothing partner.old partner.new result }
    {
        send_raw(
            alloc,
            partner,
            REGISTER_CLONE_BUFFERS,
            1,
            &[bits(src_fd), 0, 0, 0, 0],
        )
    }

    /// Takes over some of the buffers that another ring registered.
    pub fn register_buffers_clone_offset<P: Registrar>(
        &self,
        alloc: Global,
        partner: &mut P,
        src_fd: i32,
        src_off: u32,
        dst_off: u32,
        nr: u32,
        flags: CloneBuffersFlags,
    ) -> Result<(), SubmitError>
        ensures sends { Sends P.answers P.calls P.log P.state P.plan P.faults P.errno (raw_request REGISTER_CLONE_BUFFERS 1 (bits_of src_fd ∷ clone_bits flags ∷ src_off ∷ dst_off ∷ nr ∷ [])) Nothing partner.old partner.new result }
    {
        send_raw(
            alloc,
            partner,
            REGISTER_CLONE_BUFFERS,
            1,
            &[
                bits(src_fd),
                u64::from(flags.bits()),
                u64::from(src_off),
                u64::from(dst_off),
                u64::from(nr),
            ],
        )
    }

    /// Cancels operations, and waits for their ends, at most so long.
    pub fn register_sync_cancel<P: Registrar>(
        &self,
        alloc: Global,
        partner: &mut P,
        timeout: Option<Timespec>,
        builder: CancelBuilder,
    ) -> Result<(), SubmitError>
        ensures sends { Sends P.answers P.calls P.log P.state P.plan P.faults P.errno (request_of (params_of self.now) (registered_of self.now) REGISTER_SYNC_CANCEL 1 (canceled timeout builder)) Nothing partner.old partner.new result }
    {
        let (seconds, nanos) = time_bits(timeout);
        self.send(
            alloc,
            partner,
            REGISTER_SYNC_CANCEL,
            1,
            &[
                builder.wanted_user_data().unwrap_or(0),
                bits(builder.to_fd()),
                u64::from(builder.flag_bits()),
                seconds,
                nanos,
            ],
        )
    }
}
