//! Cancels of operations.

ghost use Rattle.std.specs.Prelude.{◌≡◌};

use uring_base::opcodes;
use uring_base::squeue::Entry;

/// Cancels an operation that isn't done. Its result is 0, or an errno below 0: `ENOENT` where
/// there is none. The field is what `new` was given.
#[derive(Drop)]
pub struct AsyncCancel {
    pub user_data: u64,
}

impl AsyncCancel {
    ghost use Rattle.uring_ops_file.specs.Rows.{new_async_cancel, async_cancel_words};

    /// `IORING_OP_ASYNC_CANCEL` of `linux/io_uring.h`.
    pub const CODE: u8 = opcodes::ASYNC_CANCEL;

    /// A cancel of the operation whose entry has this `user_data`.
    pub fn new(user_data: u64) -> AsyncCancel
        ensures { result ≡ new_async_cancel user_data }
    {
        AsyncCancel { user_data }
    }

    /// The entry, on no descriptor.
    pub fn build(self) -> Entry
        ensures { result ≡ async_cancel_words self }
    {
        Entry {
            fd: -1,
            addr: self.user_data,
            ..Entry::blank(AsyncCancel::CODE)
        }
    }
}
