//! Moments.

/// A moment: seconds since the beginning of 1970, and nanoseconds behind them.
#[derive(Clone, Copy, PartialEq, Eq, PartialOrd, Ord, Debug)]
pub struct Moment {
    pub secs: i64,
    pub nanos: u32,
}
