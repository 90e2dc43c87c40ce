//! Spans of time and points in it.

ghost use Rattle.std.specs.Prelude.{◌≡◌, ◌<◌, ◌^◌, pos};
ghost use Rattle.uring_types.specs.New.{new_timespec, timespec_of};

use std::time::Duration;

/// A span of time, or a point of a clock, as a partner reads it: whole seconds and nanoseconds
/// beyond them.
#[derive(Clone, Copy, PartialEq, Eq, Debug)]
pub struct Timespec {
    seconds: i64,
    nanos: i64,
}

impl Timespec {
    /// No time.
    pub fn new() -> Timespec
        ensures { result ≡ new_timespec }
    {
        Timespec {
            seconds: 0,
            nanos: 0,
        }
    }

    /// Sets the seconds, of which there are fewer than 2^63.
    pub fn sec(mut self, seconds: u64) -> Timespec
        requires { seconds < 2 ^ 63 }
        ensures { result ≡ record self { seconds = pos seconds } }
    {
        self.seconds = seconds as i64;
        self
    }

    /// Sets the nanoseconds. A second or more of them is passed on as it is, and a partner may
    /// refuse it.
    pub fn nsec(mut self, nanos: u32) -> Timespec
        ensures { result ≡ record self { nanos = pos nanos } }
    {
        self.nanos = i64::from(nanos);
        self
    }

    /// The seconds.
    pub fn seconds(&self) -> i64
        ensures { result ≡ self.now.seconds }
    {
        self.seconds
    }

    /// The nanoseconds.
    pub fn nanos(&self) -> i64
        ensures { result ≡ self.now.nanos }
    {
        self.nanos
    }
}

impl Default for Timespec {
    ghost is_default = { λ time. time ≡ new_timespec };

    fn default() -> Timespec {
        Timespec::new()
    }
}

/// A duration of 2^63 seconds or more gets the greatest number of seconds.
impl From<Duration> for Timespec {
    ghost from_gives = { λ duration time. time ≡ timespec_of duration };

    fn from(duration: Duration) -> Timespec {
        Timespec {
            seconds: duration.as_secs().min(i64::MAX as u64) as i64,
            nanos: i64::from(duration.subsec_nanos()),
        }
    }
}
