//! The flags of a submission entry.

ghost use Rattle.std.specs.Prelude.{◌≡◌, ⊤, [], ◌∷◌, codes, bit_or};
ghost use Rattle.uring_base.specs.FlagBits.{bits_in};

use bitflags::Flag;
use std::ops::{BitOr, BitOrAssign};

macro_rules! named_flags {
    ($type:ident: $($flag:ident),*) => {
        &[$(Flag { name: stringify!($flag), value: $type::$flag }),*]
    };
}

/// The flags of a submission entry.
#[derive(Clone, Copy, PartialEq, Eq, PartialOrd, Ord)]
pub struct Flags(u8);

impl Flags {
    /// The descriptor is the index of a registered file.
    pub const FIXED_FILE: Flags = Flags(1);
    /// Starts when all before it are done.
    pub const IO_DRAIN: Flags = Flags(2);
    /// The next entry starts when this one is done.
    pub const IO_LINK: Flags = Flags(4);
    /// As `IO_LINK`, whatever the result.
    pub const IO_HARDLINK: Flags = Flags(8);
    /// Runs apart from the submitter.
    pub const ASYNC: Flags = Flags(16);
    /// Takes its buffer from a group.
    pub const BUFFER_SELECT: Flags = Flags(32);
    /// Posts no completion where it succeeds.
    pub const SKIP_SUCCESS: Flags = Flags(64);

    const FLAGS: &'static [Flag<Flags>] = named_flags!(
        Flags: FIXED_FILE, IO_DRAIN, IO_LINK, IO_HARDLINK, ASYNC, BUFFER_SELECT, SKIP_SUCCESS
    );
}

impl bitflags::Flags for Flags {
    type Bits = u8;

    ghost exact = { ⊤ };

    ghost table = { (codes "FIXED_FILE", 1)
        ∷ (codes "IO_DRAIN", 2)
        ∷ (codes "IO_LINK", 4)
        ∷ (codes "IO_HARDLINK", 8)
        ∷ (codes "ASYNC", 16)
        ∷ (codes "BUFFER_SELECT", 32)
        ∷ (codes "SKIP_SUCCESS", 64)
        ∷ [] };

    ghost set_of = { λ flags. flags.0 };

    fn flags<'a>() -> &'a [Flag<Flags>] {
        Flags::FLAGS
    }

    fn bits(&self) -> u8 {
        self.0
    }

    fn from_bits_retain(bits: u8) -> Flags {
        Flags(bits)
    }
}

impl BitOr for Flags {
    type Output = Flags;

    ghost bitor_gives = { λ a b both. bits_in both ≡ bit_or (bits_in a) (bits_in b) };

    fn bitor(self, other: Flags) -> Flags {
        Flags(self.0 | other.0)
    }
}

impl BitOrAssign for Flags {
    ghost bitor_assign_gives = { λ a b both. bits_in both ≡ bit_or (bits_in a) (bits_in b) };

    fn bitor_assign(&mut self, other: Flags) {
        self.0 |= other.0;
    }
}
