//! The operation that does nothing.

ghost use Rattle.std.specs.Prelude.{◌≡◌};

use uring_base::opcodes;
use uring_base::squeue::Entry;

/// Does nothing, and answers 0.
#[derive(Drop)]
pub struct Nop {}

impl Nop {
    ghost use Rattle.uring_ops_file.specs.Rows.{new_nop, nop_words};

    /// `IORING_OP_NOP` of `linux/io_uring.h`.
    pub const CODE: u8 = opcodes::NOP;

    /// A Nop.
    pub fn new() -> Nop
        ensures { result ≡ new_nop }
    {
        Nop {}
    }

    /// The entry, on no descriptor.
    pub fn build(self) -> Entry
        ensures { result ≡ nop_words self }
    {
        let Nop {} = self;
        Entry {
            fd: -1,
            ..Entry::blank(Nop::CODE)
        }
    }
}
