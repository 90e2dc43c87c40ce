//! Busy polling of network devices.

ghost use Rattle.std.specs.Prelude.{◌≡◌};
ghost use Rattle.uring_types.specs.New.{new_napi, tracking_code};

/// The number of tracking by the sockets in use (`IO_URING_NAPI_TRACKING_DYNAMIC`).
pub const TRACKING_DYNAMIC: u32 = 0;

/// The number of tracking by a list (`IO_URING_NAPI_TRACKING_STATIC`).
pub const TRACKING_STATIC: u32 = 1;

/// The number of no tracking (`IO_URING_NAPI_TRACKING_INACTIVE`).
pub const TRACKING_INACTIVE: u32 = 255;

/// How a partner finds the devices that it polls.
#[derive(Clone, Copy, PartialEq, Eq)]
pub enum NapiTracking {
    /// By the sockets that the ring's operations use.
    Dynamic,
    /// By the list that the caller keeps.
    Static,
    /// Not at all.
    Inactive,
}

/// The busy polling of a ring's network devices. A registration leaves in it what held before.
#[derive(Clone, Copy)]
pub struct Napi {
    pub busy_poll_timeout: u32,
    pub prefer_busy_poll: bool,
    /// The number of a [`NapiTracking`], or what else the partner left.
    pub tracking: u32,
}

impl Napi {
    /// No time, no preference, and tracking by the sockets in use.
    pub fn new() -> Napi
        ensures { result ≡ new_napi }
    {
        Napi {
            busy_poll_timeout: 0,
            prefer_busy_poll: false,
            tracking: TRACKING_DYNAMIC,
        }
    }

    /// Sets how many microseconds are polled.
    pub fn set_busy_poll_timeout(self, micros: u32) -> Napi
        ensures { result ≡ record self { busy_poll_timeout = micros } }
    {
        Napi {
            busy_poll_timeout: micros,
            ..self
        }
    }

    /// Sets whether polling is preferred to interrupts.
    pub fn set_prefer_busy_poll(self, enabled: bool) -> Napi
        ensures { result ≡ record self { prefer_busy_poll = enabled } }
    {
        Napi {
            prefer_busy_poll: enabled,
            ..self
        }
    }

    /// Sets how devices are found.
    pub fn set_tracking(self, strategy: NapiTracking) -> Napi
        ensures { result ≡ record self { tracking = tracking_code strategy } }
    {
        let tracking = match strategy {
            NapiTracking::Dynamic => TRACKING_DYNAMIC,
            NapiTracking::Static => TRACKING_STATIC,
            NapiTracking::Inactive => TRACKING_INACTIVE,
        };
        Napi { tracking, ..self }
    }

    /// How many microseconds are polled.
    pub fn busy_poll_timeout(&self) -> u32
        ensures { result ≡ self.now.busy_poll_timeout }
    {
        self.busy_poll_timeout
    }

    /// Whether polling is preferred to interrupts.
    pub fn prefer_busy_poll(&self) -> bool
        ensures { result ≡ self.now.prefer_busy_poll }
    {
        self.prefer_busy_poll
    }
}

impl Default for Napi {
    ghost is_default = { λ napi. napi ≡ new_napi };

    fn default() -> Napi {
        Napi::new()
    }
}
