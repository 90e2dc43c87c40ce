//! Small types that entries are built from.

ghost use Rattle.std.specs.Prelude.{◌≡◌};
ghost use Rattle.uring_base.specs.declared.types.Target.{Target};
ghost use Rattle.uring_base.specs.declared.types.Target.TheVariants.{Fd as raw, Fixed as registered};

pub use crate::fsync_flags::FsyncFlags;

/// A raw descriptor: a number that the partner knows a file or socket by. What a negative one
/// means is the partner's to say.
#[derive(Clone, Copy)]
pub struct Fd(pub i32);

/// The index of a file in the partner's table of registered files, counted from 0.
#[derive(Clone, Copy)]
pub struct Fixed(pub u32);

/// What an operation acts on: a raw descriptor or a registered file.
#[derive(Clone, Copy)]
pub enum Target {
    /// A raw descriptor, as in [`Fd`].
    Fd(i32),
    /// The index of a registered file, as in [`Fixed`].
    Fixed(u32),
}

impl From<Fd> for Target {
    ghost from_gives = { λ fd target. target ≡ raw fd.0 };

    fn from(fd: Fd) -> Target {
        Target::Fd(fd.0)
    }
}

impl From<Fixed> for Target {
    ghost from_gives = { λ fixed target. target ≡ registered fixed.0 };

    fn from(fixed: Fixed) -> Target {
        Target::Fixed(fixed.0)
    }
}

/// What may be given where an operation needs a target. It stands for io-uring's `UseFd` and
/// `UseFixed`, of which the second takes registered files too.
pub trait UseTarget {
    // The target that a value stands for.
    ghost target_of: { Self → Target };

    /// The value as a target.
    fn target(self) -> Target
        ensures { result ≡ target_of self };
}

impl UseTarget for Fd {
    ghost target_of = { λ fd. raw fd.0 };

    fn target(self) -> Target {
        Target::from(self)
    }
}

impl UseTarget for Fixed {
    ghost target_of = { λ fixed. registered fixed.0 };

    fn target(self) -> Target {
        Target::from(self)
    }
}

impl UseTarget for Target {
    ghost target_of = { λ target. target };

    fn target(self) -> Target {
        self
    }
}
