//! The flags of a completion.

ghost use Rattle.std.specs.Prelude.{◌≡◌, ⊤, [], ◌∷◌, codes, bit_or};
ghost use Rattle.uring_base.specs.FlagBits.{completion_bits};

use bitflags::Flag;
use std::ops::{BitOr, BitOrAssign};

/// The flags of a completion, under the bits of the Linux io_uring header (`IORING_CQE_F_..`). The
/// 16 bits above them hold the number of a buffer.
#[derive(Clone, Copy, PartialEq, Eq, PartialOrd, Ord)]
pub struct Flags(u32);

impl Flags {
    /// The operation took a buffer from its group.
    pub const BUFFER: Flags = Flags(1);
    /// More completions of the operation are to come.
    pub const MORE: Flags = Flags(2);
    /// The socket has more to be received.
    pub const SOCK_NONEMPTY: Flags = Flags(4);
    /// The second completion of a send that doesn't copy.
    pub const NOTIF: Flags = Flags(8);
    /// The buffer that the completion names still has room for more.
    pub const BUF_MORE: Flags = Flags(16);

    const FLAGS: &'static [Flag<Flags>] = &[
        Flag {
            name: "BUFFER",
            value: Flags::BUFFER,
        },
        Flag {
            name: "MORE",
            value: Flags::MORE,
        },
        Flag {
            name: "SOCK_NONEMPTY",
            value: Flags::SOCK_NONEMPTY,
        },
        Flag {
            name: "NOTIF",
            value: Flags::NOTIF,
        },
        Flag {
            name: "BUF_MORE",
            value: Flags::BUF_MORE,
        },
    ];
}

impl bitflags::Flags for Flags {
    type Bits = u32;

    ghost exact = { ⊤ };

    ghost table = { (codes "BUFFER", 1)
        ∷ (codes "MORE", 2)
        ∷ (codes "SOCK_NONEMPTY", 4)
        ∷ (codes "NOTIF", 8)
        ∷ (codes "BUF_MORE", 16)
        ∷ [] };

    ghost set_of = { λ flags. flags.0 };

    fn flags<'a>() -> &'a [Flag<Flags>] {
        Flags::FLAGS
    }

    fn bits(&self) -> u32 {
        self.0
    }

    fn from_bits_retain(bits: u32) -> Flags {
        Flags(bits)
    }
}

impl BitOr for Flags {
    type Output = Flags;

    ghost bitor_gives = { λ a b both. completion_bits both ≡ bit_or (completion_bits a) (completion_bits b) };

    fn bitor(self, other: Flags) -> Flags {
        Flags(self.0 | other.0)
    }
}

impl BitOrAssign for Flags {
    ghost bitor_assign_gives = { λ a b both. completion_bits both ≡ bit_or (completion_bits a) (completion_bits b) };

    fn bitor_assign(&mut self, other: Flags) {
        self.0 |= other.0;
    }
}
