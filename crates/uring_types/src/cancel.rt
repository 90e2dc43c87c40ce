//! Which operations a cancel means.

ghost use Rattle.std.specs.Prelude.{◌≡◌};

use crate::cancel_flags::{ALL, ANY, FD, FD_FIXED};
use std::marker::Model;
use uring_base::types::{Target, UseTarget};

/// The operation or operations that a cancel means, under the bits of `cancel_flags`.
#[derive(Drop)]
pub struct CancelBuilder {
    flags: u32,
    user_data: Option<u64>,
    fd: Option<Target>,
}

impl Model for CancelBuilder {
    ghost use Rattle.uring_types.specs.Cancel.{Cancel};

    ghost Value = { Cancel };

    ghost view = { λ cancel. record { flags = cancel.flags; user_data = cancel.user_data; fd = cancel.fd } };
}

impl CancelBuilder {
    ghost use Rattle.uring_types.specs.Cancel.{all_that_fit, any_operation, on_target, target_word, with_user_data};

    /// Any operation.
    pub fn any() -> CancelBuilder
        ensures { result ≡ any_operation }
    {
        CancelBuilder {
            flags: ANY,
            user_data: None,
            fd: None,
        }
    }

    /// An operation with this number.
    pub fn user_data(user_data: u64) -> CancelBuilder
        ensures { result ≡ with_user_data user_data }
    {
        CancelBuilder {
            flags: 0,
            user_data: Some(user_data),
            fd: None,
        }
    }

    /// An operation on this target.
    pub fn fd<T: UseTarget>(fd: T) -> CancelBuilder
        ensures { result ≡ on_target (T.target_of fd) }
    {
        let target = fd.target();
        CancelBuilder {
            flags: match target {
                Target::Fd(_) => FD,
                Target::Fixed(_) => FD | FD_FIXED,
            },
            user_data: None,
            fd: Some(target),
        }
    }

    /// All operations that fit, and not the first alone.
    pub fn all(mut self) -> CancelBuilder
        ensures { result ≡ all_that_fit self }
    {
        self.flags |= ALL;
        self
    }

    /// The cancel's flags as their bits.
    pub fn flag_bits(&self) -> u32
        ensures { result ≡ self.now.flags }
    {
        self.flags
    }

    /// The number of the operation, where the cancel asks for one.
    pub fn wanted_user_data(&self) -> Option<u64>
        ensures { result ≡ self.now.user_data }
    {
        self.user_data
    }

    /// The target of the operation, where the cancel asks for one.
    pub fn wanted_fd(&self) -> Option<Target>
        ensures { result ≡ self.now.fd }
    {
        self.fd
    }

    /// The descriptor word of the cancel's entry: the target's, or -1 without one.
    pub fn to_fd(&self) -> i32
        ensures { result ≡ target_word self.now.fd }
    {
        match self.fd {
            None => -1,
            Some(Target::Fd(fd)) => fd,
            Some(Target::Fixed(index)) => index.cast_signed(),
        }
    }
}
