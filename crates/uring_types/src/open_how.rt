//! How a file is opened.

ghost use Rattle.std.specs.Prelude.{◌≡◌};
ghost use Rattle.uring_types.specs.New.{new_open_how};

/// How `openat2` opens a file, under the bits of the Linux headers.
#[derive(Clone, Copy)]
pub struct OpenHow {
    flags: u64,
    mode: u64,
    resolve: u64,
}

impl OpenHow {
    /// No flag, no mode, and no limit on how the path is resolved.
    pub fn new() -> OpenHow
        ensures { result ≡ new_open_how }
    {
        OpenHow {
            flags: 0,
            mode: 0,
            resolve: 0,
        }
    }

    /// Sets the flags of the opening (`O_CREAT` and others).
    pub fn flags(self, flags: u64) -> OpenHow
        ensures { result ≡ record self { flags = flags } }
    {
        OpenHow { flags, ..self }
    }

    /// Sets the mode of a file that is created.
    pub fn mode(self, mode: u64) -> OpenHow
        ensures { result ≡ record self { mode = mode } }
    {
        OpenHow { mode, ..self }
    }

    /// Sets how the path may be resolved (`RESOLVE_BENEATH` and others).
    pub fn resolve(self, resolve: u64) -> OpenHow
        ensures { result ≡ record self { resolve = resolve } }
    {
        OpenHow { resolve, ..self }
    }

    /// The flags of the opening.
    pub fn get_flags(&self) -> u64
        ensures { result ≡ self.now.flags }
    {
        self.flags
    }

    /// The mode of a file that is created.
    pub fn get_mode(&self) -> u64
        ensures { result ≡ self.now.mode }
    {
        self.mode
    }

    /// How the path may be resolved.
    pub fn get_resolve(&self) -> u64
        ensures { result ≡ self.now.resolve }
    {
        self.resolve
    }
}

impl Default for OpenHow {
    ghost is_default = { λ how. how ≡ new_open_how };

    fn default() -> OpenHow {
        OpenHow::new()
    }
}
