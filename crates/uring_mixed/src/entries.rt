//! Lists of submission entries of either size, as bytes.

ghost use Rattle.std.specs.Prelude.{◌≡◌, IfOk, IfErr};
ghost use Rattle.std.specs.List.{AllByRecursion};
ghost use Rattle.uring_mixed.specs.Listing.{IsEntry, encoding, IsReading, IsOnlyReading};
ghost use Rattle.uring_mixed.specs.Forms.{entry_form};

use crate::fault::MixedFault;
use crate::listing::{LARGE_MARK, Listed, MixedList, SMALL_MARK, decode, encode, put_marked};
use std::alloc::{AllocError, Global};
use uring_base::Buf;
use uring_large::squeue::{Entry, Entry128, MixedEntry};

/// Entries that were decoded.
pub type MixedEntries = MixedList<MixedEntry>;

impl Listed for MixedEntry {
    ghost form = { entry_form };

    fn size(mark: u8) -> usize {
        if mark == SMALL_MARK { 64 } else { 128 }
    }

    fn put(&self, bytes: &mut Vec<u8>) -> Result<(), AllocError> {
        match self {
            MixedEntry::Small(entry) => put_marked(SMALL_MARK, &entry.to_bytes(), bytes),
            MixedEntry::Large(large) => put_marked(LARGE_MARK, &large.to_bytes(), bytes),
        }
    }

    fn held(mark: u8, bytes: &[u8]) -> MixedEntry {
        if mark == SMALL_MARK {
            let own: &[u8; 64] = bytes.first_chunk().unwrap();
            MixedEntry::Small(Entry::from_bytes(own))
        } else {
            let own: &[u8; 128] = bytes.first_chunk().unwrap();
            MixedEntry::Large(Entry128::from_bytes(own))
        }
    }
}

/// The bytes of a list of entries: before each its mark, 1 for a small one and 2 for a large one.
pub fn encode_entries(alloc: Global, entries: &[MixedEntry]) -> Result<Buf, MixedFault>
    ensures ok { IfOk result (λ bytes. bytes ≡ encoding entry_form entries.now) }
    ensures entries { IfOk result (λ _. AllByRecursion (IsEntry entry_form) entries.now) }
    ensures err { IfErr result (λ fault. fault ≡ MixedFault.NoMemory) }
{
    let bytes = encode(alloc, entries)?;
    Ok(Buf::from(bytes))
}

/// The list of entries whose bytes these are, and exactly these.
pub fn decode_entries(alloc: Global, bytes: &[u8]) -> Result<MixedEntries, MixedFault>
    ensures reading { IsReading entry_form bytes.now result }
    ensures only { IsOnlyReading entry_form bytes.now result }
{
    decode(alloc, bytes)
}
