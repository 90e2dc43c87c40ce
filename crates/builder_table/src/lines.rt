//! The lines of the table.

use std::io;
use uring_base::squeue::Entry;
use uring_large::squeue::Entry128;

/// Writes a builder's name and the bytes of its entry in hex.
pub fn line<R: Alloc + Print>(rt: &R, name: &str, entry: Entry) -> io::Result<()> {
    let bytes = entry.to_bytes();
    let text = hex::encode(rt.alloc(), bytes.as_slice())?;
    println!(rt; "{name} {text}")
}

/// Writes a builder's name and the bytes of its large entry in hex.
pub fn large_line<R: Alloc + Print>(rt: &R, name: &str, entry: Entry128) -> io::Result<()> {
    let bytes = entry.to_bytes();
    let text = hex::encode(rt.alloc(), bytes.as_slice())?;
    println!(rt; "{name} {text}")
}
