//! Who may read, write and execute.

ghost use Rattle.std.specs.Prelude.{◌≡◌, ◌==◌, bit_and, not};
ghost use Rattle.uring_base.specs.declared.stat.TheConstants.{S_WRITE};

use uring_base::stat::S_WRITE;

/// Who may read, write and execute a file, as bits of its mode.
#[derive(Clone, Copy, PartialEq, Eq, Debug)]
pub struct Permissions {
    mode: u32,
}

impl Permissions {
    ghost use Rattle.fs_data.specs.Modes.{mode_of, may_write, with_readonly};

    /// Those of this mode.
    pub fn from_mode(mode: u32) -> Permissions
        ensures { mode_of result ≡ mode }
    {
        Permissions { mode }
    }

    /// The whole mode.
    pub fn mode(&self) -> u32
        ensures { result ≡ mode_of self.now }
    {
        self.mode
    }

    pub fn set_mode(&mut self, mode: u32)
        ensures { mode_of self.new ≡ mode }
    {
        self.mode = mode;
    }

    /// Whether nobody may write.
    pub fn readonly(&self) -> bool
        ensures { result ≡ not (may_write (mode_of self.now)) }
    {
        self.mode & S_WRITE == 0
    }

    /// Nobody may write, or everybody may.
    pub fn set_readonly(&mut self, readonly: bool)
        ensures mode { mode_of self.new ≡ with_readonly readonly (mode_of self.old) }
    {
        self.mode = if readonly {
            self.mode & !S_WRITE
        } else {
            self.mode | S_WRITE
        };
    }
}
