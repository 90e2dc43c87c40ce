//! Copies a file of 10,000 bytes in pieces of 4 KiB, in two ways: by hand over a pair of rings, and
//! by an engine that keeps account of what is in flight. A partner that keeps its files in memory
//! stands in the kernel's place.
//!
//! It writes what each way took, and whether the copy equals the source.
#![tactic(auto)]

ghost use Rattle.std.specs.Prelude.{◌≡◌, ◌↔◌, IfOk, IsTrue, length};
ghost use Rattle.copy_file.specs.Copies.{IsCopy, bytes_under};

mod by_engine;
mod by_hand;
mod copied;

use copied::Copied;
use partner_traits::Seedable;
use rent_fs::File;
use std::alloc::{AllocError, Global};
use std::io::{self, Print};
use uring_base::Buf;
use uring_base::types::Fixed;
use uring_partner::MemoryPartner;

/// The number of the file that is copied.
const SOURCE: u32 = 1;

/// The number of the file that it is copied to.
const COPY: u32 = 2;

/// How many bytes are copied.
const LENGTH: u32 = 10_000;

/// The source: each byte is its place modulo 251.
fn source_bytes(alloc: Global) -> Result<Buf, AllocError>
    ensures { IfOk result (λ bytes. length bytes ≡ LENGTH) }
{
    let mut bytes = Vec::new(alloc);
    for place in 0..LENGTH {
        bytes.push((place % 251) as u8)?;
    }
    Ok(Buf::from(bytes))
}

/// A partner in memory that has the source, and an empty file for the copy.
fn partner_with_source(alloc: Global) -> io::Result<MemoryPartner> {
    let mut partner = MemoryPartner::new(alloc);
    partner.put_file(alloc, SOURCE, source_bytes(alloc)?)?;
    partner.put_file(alloc, COPY, Buf::new(alloc))?;
    Ok(partner)
}

/// Whether the partner has a source, and a copy of the same bytes.
pub fn is_copied(partner: &MemoryPartner) -> bool
    ensures { IsTrue result ↔ IsCopy (bytes_under partner.now SOURCE) (bytes_under partner.now COPY) }
{
    match (partner.file_bytes(SOURCE), partner.file_bytes(COPY)) {
        (Some(source), Some(copy)) => copy == source,
        _ => false,
    }
}

/// Writes what a copy took, and whether it equals the source.
fn tell(rt: &impl Print, way: &str, copied: Copied, partner: &MemoryPartner) -> io::Result<()> {
    let Copied { bytes, operations } = copied;
    let verdict = if is_copied(partner) {
        "the copy equals the source"
    } else {
        "the copy differs from the source"
    };
    println!(rt; "{way}: {bytes} bytes in {operations} operations, {verdict}")
}

fn main(rt: HostRuntime) -> io::Result<()> {
    let alloc = rt.alloc();

    let mut partner = partner_with_source(alloc)?;
    let copied = by_hand::copy(alloc, &mut partner, Fixed(SOURCE), Fixed(COPY), LENGTH)?;
    tell(&rt, "by hand", copied, &partner)?;

    let mut partner = partner_with_source(alloc)?;
    let source = File::of_number(SOURCE);
    let copy = File::of_number(COPY);
    let copied = by_engine::copy(alloc, &mut partner, source, copy, LENGTH)?;
    tell(&rt, "by engine", copied, &partner)
}
