//! What an entry asks of the tree.

ghost use Rattle.std.specs.Prelude.{◌≡◌};
ghost use Rattle.uring_base.specs.FlagBits.{has_flags};
ghost use Rattle.file_tree.specs.Asks.{path_op_of, unless_lacking};

use bitflags::Flags as _;
use uring_base::squeue::Flags;
use uring_base::{Loan, Taken, opcodes};

/// An operation on the tree. Its path or paths are the bytes that its entry lends.
#[derive(Clone, Copy, PartialEq, Eq, Debug)]
pub enum PathOperation {
    Open { flags: u32, mode: u32 },
    Close { number: u32 },
    /// Of a path, or with `AT_EMPTY_PATH` and an empty path of the file of this number.
    Stat { number: u32, flags: u32 },
    /// The old path, a zero byte, and the new path are lent.
    Rename,
    Unlink { flags: u32 },
    MakeDir { mode: u32 },
    /// One without the loan that it needs.
    Lacking,
}

fn unless_lacking(loan: &Option<Loan>, operation: PathOperation) -> PathOperation
    ensures { result ≡ unless_lacking loan.now operation }
{
    match loan {
        None => PathOperation::Lacking,
        Some(_) => operation,
    }
}

/// What the entry asks of the tree, if anything.
pub fn path_operation_of(taken: &Taken) -> Option<PathOperation>
    ensures { result ≡ path_op_of taken.now }
{
    let entry = taken.entry;
    if has(entry.flags, Flags::BUFFER_SELECT) {
        return None;
    }
    let number = entry.fd.cast_unsigned();
    let flags = entry.op;
    let mode = entry.len;
    let operation = match entry.opcode {
        opcodes::OPENAT => PathOperation::Open { flags, mode },
        opcodes::CLOSE => return Some(PathOperation::Close { number }),
        opcodes::STATX => PathOperation::Stat { number, flags },
        opcodes::RENAMEAT => PathOperation::Rename,
        opcodes::UNLINKAT => PathOperation::Unlink { flags },
        opcodes::MKDIRAT => PathOperation::MakeDir { mode },
        _ => return None,
    };
    Some(unless_lacking(&taken.loan, operation))
}

fn has(word: u8, flags: Flags) -> bool
    ensures { result ≡ has_flags word flags }
{
    Flags::from_bits_retain(word).contains(flags)
}
