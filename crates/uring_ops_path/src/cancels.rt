//! Cancels of operations that a builder names.

ghost use Rattle.std.specs.Prelude.{◌≡◌};

use uring_base::opcodes;
use uring_base::squeue::Entry;
use uring_types::CancelBuilder;

/// Cancels operations by their number, by what they act on, or all of them. Its result is 0, or an
/// errno below 0: `ENOENT` where there is none. With `all` or `any` it is how many are canceled.
/// The field is what `new` was given.
#[derive(Drop)]
pub struct AsyncCancel2 {
    pub builder: CancelBuilder,
}

impl AsyncCancel2 {
    ghost use Rattle.uring_ops_path.specs.Rows.{new_async_cancel2, async_cancel2_words};

    /// `IORING_OP_ASYNC_CANCEL` of `linux/io_uring.h`.
    pub const CODE: u8 = opcodes::ASYNC_CANCEL;

    /// A cancel of the operations that `builder` means.
    pub fn new(builder: CancelBuilder) -> AsyncCancel2
        ensures { result ≡ new_async_cancel2 builder }
    {
        AsyncCancel2 { builder }
    }

    /// The entry, on the target that `builder` asks for, or on no descriptor.
    pub fn build(self) -> Entry
        ensures { result ≡ async_cancel2_words self }
    {
        Entry {
            fd: self.builder.to_fd(),
            addr: self.builder.wanted_user_data().unwrap_or(0),
            op: self.builder.flag_bits(),
            ..Entry::blank(AsyncCancel2::CODE)
        }
    }
}
