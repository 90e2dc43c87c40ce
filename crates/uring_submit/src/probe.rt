//! What a partner serves.

ghost use Rattle.std.specs.Prelude.{◌≡◌};
ghost use Rattle.uring_submit.specs.Numbers.{is_told, no_probe, probe_numbers};

use uring_types::register_codes::OP_SUPPORTED;

/// How many numbers a probe has: the last code, and the flags of each code.
const PROBE_LEN: usize = 257;

/// Which operations a partner serves, as it told.
#[derive(Drop)]
pub struct Probe {
    pub(crate) numbers: [u64; PROBE_LEN],
}

impl Probe {
    /// A probe that tells of no operation.
    pub fn new() -> Probe
        ensures { result ≡ no_probe }
    {
        Probe {
            numbers: [0; PROBE_LEN],
        }
    }

    /// Whether the operation of this code is served.
    pub fn is_supported(&self, op: u8) -> bool
        ensures { result ≡ is_told (probe_numbers self.now) op }
    {
        let flags = self.numbers[usize::from(op) + 1];
        u64::from(op) <= self.numbers[0] && flags & OP_SUPPORTED == OP_SUPPORTED
    }
}

impl Default for Probe {
    ghost is_default = { λ probe. probe ≡ no_probe };

    fn default() -> Probe {
        Probe::new()
    }
}
