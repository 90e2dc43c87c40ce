//! The flags of a sync.

ghost use Rattle.std.specs.Prelude.{◌≡◌, ⊤, [], ◌∷◌, codes, bit_or};
ghost use Rattle.uring_base.specs.FlagBits.{fsync_bits};

use bitflags::Flag;
use std::ops::{BitOr, BitOrAssign};

/// The flags of a sync of a file, under the bits of the Linux io_uring header. Without any, all
/// that belongs to the file is synced.
#[derive(Clone, Copy, PartialEq, Eq, PartialOrd, Ord)]
pub struct FsyncFlags(u32);

impl FsyncFlags {
    /// Of what describes the file only what is needed to read the data back, as `fdatasync` does.
    pub const DATASYNC: FsyncFlags = FsyncFlags(1);

    const FLAGS: &'static [Flag<FsyncFlags>] = &[Flag {
        name: "DATASYNC",
        value: FsyncFlags::DATASYNC,
    }];
}

impl bitflags::Flags for FsyncFlags {
    type Bits = u32;

    ghost exact = { ⊤ };

    ghost table = { (codes "DATASYNC", 1) ∷ [] };

    ghost set_of = { λ flags. flags.0 };

    fn flags<'a>() -> &'a [Flag<FsyncFlags>] {
        FsyncFlags::FLAGS
    }

    fn bits(&self) -> u32 {
        self.0
    }

    fn from_bits_retain(bits: u32) -> FsyncFlags {
        FsyncFlags(bits)
    }
}

impl BitOr for FsyncFlags {
    type Output = FsyncFlags;

    ghost bitor_gives = { λ a b both. fsync_bits both ≡ bit_or (fsync_bits a) (fsync_bits b) };

    fn bitor(self, other: FsyncFlags) -> FsyncFlags {
        FsyncFlags(self.0 | other.0)
    }
}

impl BitOrAssign for FsyncFlags {
    ghost bitor_assign_gives = { λ a b both. fsync_bits both ≡ bit_or (fsync_bits a) (fsync_bits b) };

    fn bitor_assign(&mut self, other: FsyncFlags) {
        self.0 |= other.0;
    }
}
