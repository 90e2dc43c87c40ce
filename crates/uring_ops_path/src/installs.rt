//! Descriptors for registered files.

ghost use Rattle.std.specs.Prelude.{◌≡◌};

use uring_base::opcodes;
use uring_base::squeue::Entry;
use uring_base::types::{Fixed, Target};

/// Gives a registered file a descriptor, too. Its result is the descriptor, or an errno below 0.
/// Each field is what `new` was given.
#[derive(Drop)]
pub struct FixedFdInstall {
    pub fd: Fixed,
    pub file_flags: u32,
}

impl FixedFdInstall {
    ghost use Rattle.uring_ops_path.specs.Rows.{new_fixed_fd_install, fixed_fd_install_words};

    /// `IORING_OP_FIXED_FD_INSTALL` of `linux/io_uring.h`.
    pub const CODE: u8 = opcodes::FIXED_FD_INSTALL;

    /// A descriptor for `fd`. `file_flags` are `IORING_FIXED_FD_` bits of `linux/io_uring.h`.
    pub fn new(fd: Fixed, file_flags: u32) -> FixedFdInstall
        ensures { result ≡ new_fixed_fd_install fd file_flags }
    {
        FixedFdInstall { fd, file_flags }
    }

    /// The entry, with the flag `FIXED_FILE`.
    pub fn build(self) -> Entry
        ensures { result ≡ fixed_fd_install_words self }
    {
        Entry {
            op: self.file_flags,
            ..Entry::blank(FixedFdInstall::CODE)
        }
        .on(Target::from(self.fd))
    }
}
