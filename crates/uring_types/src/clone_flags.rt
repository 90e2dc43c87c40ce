//! The flags of a cloning of registered buffers.

ghost use Rattle.std.specs.Prelude.{◌≡◌, ⊤, [], ◌∷◌, codes, bit_or};
ghost use Rattle.uring_types.specs.FlagBits.{clone_bits};

use bitflags::Flag;
use std::ops::{BitOr, BitOrAssign};

/// The flags of a cloning of registered buffers from one ring to another, under the bits of the
/// Linux io_uring header (`IORING_REGISTER_SRC_REGISTERED`, `IORING_REGISTER_DST_REPLACE`).
#[derive(Clone, Copy, PartialEq, Eq, PartialOrd, Ord)]
pub struct CloneBuffersFlags(u32);

impl CloneBuffersFlags {
    /// The source ring is named by its registered index.
    pub const SRC_REGISTERED: CloneBuffersFlags = CloneBuffersFlags(1);
    /// Buffers that the taking ring has already are replaced.
    pub const DST_REPLACE: CloneBuffersFlags = CloneBuffersFlags(2);

    const FLAGS: &'static [Flag<CloneBuffersFlags>] = &[
        Flag {
            name: "SRC_REGISTERED",
            value: CloneBuffersFlags::SRC_REGISTERED,
        },
        Flag {
            name: "DST_REPLACE",
            value: CloneBuffersFlags::DST_REPLACE,
        },
    ];
}

impl bitflags::Flags for CloneBuffersFlags {
    ghost use Rattle.uring_types.specs.declared.clone_flags.TheConstants.CloneBuffersFlags.{SRC_REGISTERED, DST_REPLACE};

    type Bits = u32;

    ghost exact = { ⊤ };

    ghost table = { (codes "SRC_REGISTERED", SRC_REGISTERED.0) ∷ (codes "DST_REPLACE", DST_REPLACE.0) ∷ [] };

    ghost set_of = { λ flags. flags.0 };

    fn flags<'a>() -> &'a [Flag<CloneBuffersFlags>] {
        CloneBuffersFlags::FLAGS
    }

    fn bits(&self) -> u32 {
        self.0
    }

    fn from_bits_retain(bits: u32) -> CloneBuffersFlags {
        CloneBuffersFlags(bits)
    }
}

impl BitOr for CloneBuffersFlags {
    type Output = CloneBuffersFlags;

    ghost bitor_gives = { λ a b both. clone_bits both ≡ bit_or (clone_bits a) (clone_bits b) };

    fn bitor(self, other: CloneBuffersFlags) -> CloneBuffersFlags {
        CloneBuffersFlags(self.0 | other.0)
    }
}

impl BitOrAssign for CloneBuffersFlags {
    ghost bitor_assign_gives = { λ a b both. clone_bits both ≡ bit_or (clone_bits a) (clone_bits b) };

    fn bitor_assign(&mut self, other: CloneBuffersFlags) {
        self.0 |= other.0;
    }
}
