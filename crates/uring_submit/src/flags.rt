//! The flags of an enter.

ghost use Rattle.std.specs.Prelude.{◌≡◌, ⊤, [], ◌∷◌, ◌^◌, codes, bit_or};
ghost use Rattle.uring_submit.specs.EnterBits.{enter_bits};

use bitflags::Flag;
use std::ops::{BitOr, BitOrAssign};

macro_rules! named_flags {
    ($type:ident: $($flag:ident),*) => {
        &[$(Flag { name: stringify!($flag), value: $type::$flag }),*]
    };
}

/// The flags of an enter, under the bits of the Linux io_uring header (`IORING_ENTER_..`).
#[derive(Clone, Copy, PartialEq, Eq, Debug)]
pub struct EnterFlags(u32);

impl EnterFlags {
    /// Completions are asked for.
    pub const GETEVENTS: EnterFlags = EnterFlags(1 << 0);
    /// The partner's own thread is woken.
    pub const SQ_WAKEUP: EnterFlags = EnterFlags(1 << 1);
    /// Waits until an entry fits into the submission ring.
    pub const SQ_WAIT: EnterFlags = EnterFlags(1 << 2);
    /// The last argument is a structure of its own, with a timeout and a signal mask.
    pub const EXT_ARG: EnterFlags = EnterFlags(1 << 3);
    /// The ring is named by its registered index.
    pub const REGISTERED_RING: EnterFlags = EnterFlags(1 << 4);
    /// The timeout is a time and no duration.
    pub const ABS_TIMER: EnterFlags = EnterFlags(1 << 5);
    /// That structure lies in a registered region.
    pub const EXT_ARG_REG: EnterFlags = EnterFlags(1 << 6);
    /// Waiting is left out of the time of input and output.
    pub const NO_IOWAIT: EnterFlags = EnterFlags(1 << 7);

    const FLAGS: &'static [Flag<EnterFlags>] = named_flags!(
        EnterFlags: GETEVENTS, SQ_WAKEUP, SQ_WAIT, EXT_ARG, REGISTERED_RING, ABS_TIMER, EXT_ARG_REG, NO_IOWAIT
    );
}

impl bitflags::Flags for EnterFlags {
    type Bits = u32;

    ghost exact = { ⊤ };

    ghost table = { (codes "GETEVENTS", 2 ^ 0)
        ∷ (codes "SQ_WAKEUP", 2 ^ 1)
        ∷ (codes "SQ_WAIT", 2 ^ 2)
        ∷ (codes "EXT_ARG", 2 ^ 3)
        ∷ (codes "REGISTERED_RING", 2 ^ 4)
        ∷ (codes "ABS_TIMER", 2 ^ 5)
        ∷ (codes "EXT_ARG_REG", 2 ^ 6)
        ∷ (codes "NO_IOWAIT", 2 ^ 7)
        ∷ [] };

    ghost set_of = { λ flags. flags.0 };

    fn flags<'a>() -> &'a [Flag<EnterFlags>] {
        EnterFlags::FLAGS
    }

    fn bits(&self) -> u32 {
        self.0
    }

    fn from_bits_retain(bits: u32) -> EnterFlags {
        EnterFlags(bits)
    }
}

impl BitOr for EnterFlags {
    type Output = EnterFlags;

    ghost bitor_gives = { λ a b both. enter_bits both ≡ bit_or (enter_bits a) (enter_bits b) };

    fn bitor(self, other: EnterFlags) -> EnterFlags {
        EnterFlags(self.0 | other.0)
    }
}

impl BitOrAssign for EnterFlags {
    ghost bitor_assign_gives = { λ a b both. enter_bits both ≡ bit_or (enter_bits a) (enter_bits b) };

    fn bitor_assign(&mut self, other: EnterFlags) {
        self.0 |= other.0;
    }
}
