//! The flags of a timeout.

ghost use Rattle.std.specs.Prelude.{◌≡◌, ⊤, [], ◌∷◌, codes, bit_or};
ghost use Rattle.uring_types.specs.FlagBits.{timeout_bits};

use bitflags::Flag;
use std::ops::{BitOr, BitOrAssign};

macro_rules! named_flags {
    ($type:ident: $($flag:ident),*) => {
        &[$(Flag { name: stringify!($flag), value: $type::$flag }),*]
    };
}

/// The flags of a timeout, under the bits of the Linux io_uring header.
#[derive(Clone, Copy, PartialEq, Eq, PartialOrd, Ord)]
pub struct TimeoutFlags(u32);

impl TimeoutFlags {
    /// The time is a point of the clock, and not a span from now.
    pub const ABS: TimeoutFlags = TimeoutFlags(1);
    /// By the clock that also runs while the machine sleeps.
    pub const BOOTTIME: TimeoutFlags = TimeoutFlags(4);
    /// By the clock of the day.
    pub const REALTIME: TimeoutFlags = TimeoutFlags(8);
    /// An update means a timeout that is linked to another operation.
    pub const LINK_TIMEOUT_UPDATE: TimeoutFlags = TimeoutFlags(16);
    /// A timeout that runs out counts as a success in a chain of links.
    pub const ETIME_SUCCESS: TimeoutFlags = TimeoutFlags(32);
    /// Posts a completion each time that it runs out.
    pub const MULTISHOT: TimeoutFlags = TimeoutFlags(64);

    const FLAGS: &'static [Flag<TimeoutFlags>] = named_flags!(
        TimeoutFlags: ABS, BOOTTIME, REALTIME, LINK_TIMEOUT_UPDATE, ETIME_SUCCESS, MULTISHOT
    );
}

impl bitflags::Flags for TimeoutFlags {
    ghost use Rattle.uring_types.specs.declared.timeout_flags.TheConstants.TimeoutFlags.{ABS, BOOTTIME, REALTIME, LINK_TIMEOUT_UPDATE, ETIME_SUCCESS, MULTISHOT};

    type Bits = u32;

    ghost exact = { ⊤ };

    ghost table = { (codes "ABS", ABS.0)
        ∷ (codes "BOOTTIME", BOOTTIME.0)
        ∷ (codes "REALTIME", REALTIME.0)
        ∷ (codes "LINK_TIMEOUT_UPDATE", LINK_TIMEOUT_UPDATE.0)
        ∷ (codes "ETIME_SUCCESS", ETIME_SUCCESS.0)
        ∷ (codes "MULTISHOT", MULTISHOT.0)
        ∷ [] };

    ghost set_of = { λ flags. flags.0 };

    fn flags<'a>() -> &'a [Flag<TimeoutFlags>] {
        TimeoutFlags::FLAGS
    }

    fn bits(&self) -> u32 {
        self.0
    }

    fn from_bits_retain(bits: u32) -> TimeoutFlags {
        TimeoutFlags(bits)
    }
}

impl BitOr for TimeoutFlags {
    type Output = TimeoutFlags;

    ghost bitor_gives = { λ a b both. timeout_bits both ≡ bit_or (timeout_bits a) (timeout_bits b) };

    fn bitor(self, other: TimeoutFlags) -> TimeoutFlags {
        TimeoutFlags(self.0 | other.0)
    }
}

impl BitOrAssign for TimeoutFlags {
    ghost bitor_assign_gives = { λ a b both. timeout_bits both ≡ bit_or (timeout_bits a) (timeout_bits b) };

    fn bitor_assign(&mut self, other: TimeoutFlags) {
        self.0 |= other.0;
    }
}
