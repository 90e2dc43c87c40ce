//! Further arguments of an enter.

ghost use Rattle.std.specs.Prelude.{◌≡◌, Some};
ghost use Rattle.uring_types.specs.New.{new_submit_args};

use crate::time::Timespec;

/// What else an enter that waits is told. A partner reads these values.
#[derive(Clone, Copy, PartialEq, Eq, Debug)]
pub struct SubmitArgs {
    /// The signals that are masked while it waits, a bit for each; `None` leaves the mask as it is.
    pub sigmask: Option<u64>,
    /// How many microseconds it waits for all the completions that are wanted, before one is
    /// enough. 0 is no such time.
    pub min_wait_usec: u32,
    /// How long it waits at the most; `None` is for ever.
    pub timespec: Option<Timespec>,
}

impl SubmitArgs {
    /// No mask and no times.
    pub fn new() -> SubmitArgs
        ensures { result ≡ new_submit_args }
    {
        SubmitArgs {
            sigmask: None,
            min_wait_usec: 0,
            timespec: None,
        }
    }

    /// Sets the signals that are masked.
    pub fn sigmask(self, sigmask: u64) -> SubmitArgs
        ensures { result ≡ record self { sigmask = Some sigmask } }
    {
        SubmitArgs {
            sigmask: Some(sigmask),
            ..self
        }
    }

    /// Sets the microseconds after which one completion is enough.
    pub fn min_wait_usec(self, min_wait_usec: u32) -> SubmitArgs
        ensures { result ≡ record self { min_wait_usec = min_wait_usec } }
    {
        SubmitArgs {
            min_wait_usec,
            ..self
        }
    }

    /// Sets how long it waits at the most.
    pub fn timespec(self, timespec: Timespec) -> SubmitArgs
        ensures { result ≡ record self { timespec = Some timespec } }
    {
        SubmitArgs {
            timespec: Some(timespec),
            ..self
        }
    }
}

impl Default for SubmitArgs {
    ghost is_default = { λ args. args ≡ new_submit_args };

    fn default() -> SubmitArgs {
        SubmitArgs::new()
    }
}
