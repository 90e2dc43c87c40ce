//! How a memory partner answers a registration.

ghost use Rattle.std.specs.Prelude.{◌≡◌, IfOk};
ghost use Rattle.uring_partner.specs.Answering.{answering_to, given_after, is_served, number_left, number_of, plain_code, probed, LeavesBy};

use file_tree::path_operation_of;
use std::alloc::{AllocError, Global};
use uring_base::squeue::Entry;
use uring_base::{Buf, Loan, Nums, Taken, opcodes};
use uring_model::{Operation, operation_of};
use uring_types::register_codes::{
    OP_SUPPORTED, REGISTER_BUFFERS, REGISTER_BUFFERS_UPDATE, REGISTER_BUFFERS2,
    REGISTER_CLONE_BUFFERS, REGISTER_ENABLE_RINGS, REGISTER_EVENTFD, REGISTER_EVENTFD_ASYNC,
    REGISTER_FILES, REGISTER_FILES_UPDATE, REGISTER_FILES2, REGISTER_IOWQ_MAX_WORKERS,
    REGISTER_NAPI, REGISTER_PBUF_RING, REGISTER_PERSONALITY, REGISTER_PROBE, REGISTER_RESTRICTIONS,
    REGISTER_RING_FDS, REGISTER_SYNC_CANCEL, UNREGISTER_BUFFERS, UNREGISTER_EVENTFD,
    UNREGISTER_FILES, UNREGISTER_NAPI, UNREGISTER_PBUF_RING, UNREGISTER_PERSONALITY,
    UNREGISTER_RING_FDS, USE_REGISTERED_RING,
};

/// The last operation code that a probe tells.
pub const LAST_CODE: u8 = opcodes::PIPE;

/// The last personality that is given out.
pub const LAST_PERSONALITY: u32 = u16::MAX as u32;

/// How a registration is answered.
#[derive(Clone, Copy, PartialEq, Eq, Debug)]
pub enum Answering {
    /// One ring is registered, under the index 0.
    Ring,
    /// The operations that are served are told.
    Served,
    /// The next personality is given out.
    Personality,
    /// The count is the number.
    Count,
    /// The number is 0, and nothing changes.
    Nothing,
    /// The code isn't known.
    Refused,
}

/// How a registration with this code is answered. The bit that says how the ring is named says
/// nothing else.
pub fn how_answered(code: u32) -> Answering
    ensures { result ≡ answering_to (plain_code code) }
{
    match code & (USE_REGISTERED_RING - 1) {
        REGISTER_RING_FDS => Answering::Ring,
        REGISTER_PROBE => Answering::Served,
        REGISTER_PERSONALITY => Answering::Personality,
        REGISTER_FILES_UPDATE => Answering::Count,
        REGISTER_BUFFERS
        | UNREGISTER_BUFFERS
        | REGISTER_BUFFERS2
        | REGISTER_BUFFERS_UPDATE
        | REGISTER_CLONE_BUFFERS
        | REGISTER_FILES
        | UNREGISTER_FILES
        | REGISTER_FILES2
        | REGISTER_EVENTFD
        | UNREGISTER_EVENTFD
        | REGISTER_EVENTFD_ASYNC
        | UNREGISTER_PERSONALITY
        | REGISTER_RESTRICTIONS
        | REGISTER_ENABLE_RINGS
        | REGISTER_IOWQ_MAX_WORKERS
        | UNREGISTER_RING_FDS
        | REGISTER_PBUF_RING
        | UNREGISTER_PBUF_RING
        | REGISTER_SYNC_CANCEL
        | REGISTER_NAPI
        | UNREGISTER_NAPI => Answering::Nothing,
        _ => Answering::Refused,
    }
}

/// The number that is answered, where so many personalities were given out; none is a fault.
pub fn number_of(how: Answering, nr: u32, given: u32) -> Option<u32>
    ensures { result ≡ number_of how nr given }
{
    match how {
        Answering::Ring => Some(1),
        Answering::Personality if LAST_PERSONALITY <= given => None,
        Answering::Personality => Some(given + 1),
        Answering::Count => Some(nr),
        Answering::Served | Answering::Nothing => Some(0),
        Answering::Refused => None,
    }
}

/// How many personalities were given out then.
pub fn given_after(how: Answering, given: u32) -> u32
    ensures { result ≡ given_after how given }
{
    match how {
        Answering::Personality if given < LAST_PERSONALITY => given + 1,
        _ => given,
    }
}

/// Whether an operation of this code is served: a bare entry of it, with a loan, asks for one.
fn is_served(alloc: Global, code: u8) -> bool
    ensures { result ≡ is_served code }
{
    let taken = Taken {
        entry: Entry::blank(code),
        big: [0; 64],
        large: false,
        loan: Some(Loan {
            number: 0,
            from: 0,
            buf: Buf::new(alloc),
        }),
    };
    if path_operation_of(&taken).is_some() {
        return true;
    }
    match operation_of(&taken) {
        Operation::Lacking | Operation::Unknown => false,
        _ => true,
    }
}

/// The number that a probe tells in this place: the last code, and then the flags of each code.
fn probed(alloc: Global, place: usize) -> u64
    ensures { result ≡ probed place }
{
    if place == 0 {
        return u64::from(LAST_CODE);
    }
    match u8::try_from(place - 1) {
        Ok(code) if is_served(alloc, code) => OP_SUPPORTED,
        _ => 0,
    }
}

/// What is left in this place of a request's numbers.
fn number_left(alloc: Global, how: Answering, place: usize, number: u64) -> u64
    ensures { result ≡ number_left how place number }
{
    match how {
        Answering::Ring if place == 0 => 0,
        Answering::Served => probed(alloc, place),
        _ => number,
    }
}

/// What is left of a request's numbers.
pub fn numbers_left(alloc: Global, how: Answering, numbers: &[u64]) -> Result<Nums, AllocError>
    ensures { IfOk result (LeavesBy how numbers.now) }
{
    let mut left = Nums::new(alloc);
    for (place, number) in numbers.iter().enumerate() {
        left.push(alloc, number_left(alloc, how, place, *number))?;
    }
    Ok(left)
}
