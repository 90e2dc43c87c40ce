//! Lists of completion entries of either size, as bytes.

ghost use Rattle.std.specs.Prelude.{◌≡◌, IfOk, IfErr};
ghost use Rattle.std.specs.List.{AllByRecursion};
ghost use Rattle.uring_mixed.specs.Listing.{IsEntry, encoding, IsReading, IsOnlyReading};
ghost use Rattle.uring_mixed.specs.Forms.{completion_form};

use crate::fault::MixedFault;
use crate::listing::{LARGE_MARK, Listed, MixedList, SMALL_MARK, decode, encode, put_marked};
use std::alloc::{AllocError, Global};
use uring_base::Buf;
use uring_large::cqueue::{Entry, Entry32, MixedCompletion};

/// Completions that were decoded.
pub type MixedCompletions = MixedList<MixedCompletion>;

impl Listed for MixedCompletion {
    ghost form = { completion_form };

    fn size(mark: u8) -> usize {
        if mark == SMALL_MARK { 16 } else { 32 }
    }

    fn put(&self, bytes: &mut Vec<u8>) -> Result<(), AllocError> {
        match self {
            MixedCompletion::Small(entry) => put_marked(SMALL_MARK, &entry.to_bytes(), bytes),
            MixedCompletion::Large(large) => put_marked(LARGE_MARK, &large.to_bytes(), bytes),
        }
    }

    fn held(mark: u8, bytes: &[u8]) -> MixedCompletion {
        if mark == SMALL_MARK {
            let own: &[u8; 16] = bytes.first_chunk().unwrap();
            MixedCompletion::Small(Entry::from_bytes(own))
        } else {
            let own: &[u8; 32] = bytes.first_chunk().unwrap();
            MixedCompletion::Large(Entry32::from_bytes(own))
        }
    }
}

/// The bytes of a list of completions: before each its mark, 1 for a small one and 2 for a large
/// one.
pub fn encode_completions(alloc: Global, completions: &[MixedCompletion]) -> Result<Buf, MixedFault>
    ensures ok { IfOk result (λ bytes. bytes ≡ encoding completion_form completions.now) }
    ensures entries { IfOk result (λ _. AllByRecursion (IsEntry completion_form) completions.now) }
    ensures err { IfErr result (λ fault. fault ≡ MixedFault.NoMemory) }
{
    let bytes = encode(alloc, completions)?;
    Ok(Buf::from(bytes))
}

/// The list of completions whose bytes these are, and exactly these.
pub fn decode_completions(alloc: Global, bytes: &[u8]) -> Result<MixedCompletions, MixedFault>
    ensures reading { IsReading completion_form bytes.now result }
    ensures only { IsOnlyReading completion_form bytes.now result }
{
    decode(alloc, bytes)
}
