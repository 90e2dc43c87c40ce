//! What a ring is asked to be, and the size rule.

ghost use Rattle.std.specs.Prelude.{◌≡◌, ◌≤◌, nat_lt, nat_le, ◌&&◌, true, false, IfOk, IfErr};
ghost use Rattle.uring_base.specs.Sizes.{rounded_up, is_valid_size};
ghost use Rattle.ring_core.specs.Positions.{is_ring_size};
ghost use Rattle.uring_base.specs.declared.limits.TheConstants.{MAX_ENTRIES, MAX_COMPLETIONS};
ghost use Rattle.ring_setup.specs.Setup.{told_entries, told_completions, default_settings, is_buildable, parameters_for, parameters_of_sizes, cut, setup_word};

use crate::feature_flags::FeatureFlags;
use crate::parameters::Parameters;
use crate::setup_flags::SetupFlags;
use bitflags::Flags as _;
use ring_core::SetupError;
use uring_base::limits::{MAX_COMPLETIONS, MAX_ENTRIES};

/// The least power of two that is at least the count.
fn rounded_up(count: u32) -> u32
    requires { count ≤ MAX_COMPLETIONS }
    ensures { result ≡ rounded_up count }
{
    count.next_power_of_two()
}

fn in_range(count: u32, most: u32) -> bool
    ensures { result ≡ (nat_lt 0 count && nat_le count most) }
{
    0 < count && count <= most
}

/// What a ring is asked to be.
#[derive(Clone, Copy, PartialEq, Eq, Debug)]
pub struct Settings {
    /// The setup flags, without the one that says that a completion count was given.
    pub setup: u32,
    /// The feature flags.
    pub features: u32,
    /// The completion count, where one was given.
    pub cq_entries: Option<u32>,
    /// The position at which both rings begin.
    pub start: u32,
    /// After how many milliseconds without work a thread of the partner's own falls asleep.
    pub sq_thread_idle: u32,
    /// The processor that this thread runs on.
    pub sq_thread_cpu: u32,
    /// The descriptor of the ring whose workers are shared.
    pub wq_fd: i32,
    /// Whether the rings are kept from a forked process.
    pub dontfork: bool,
}

impl Settings {
    /// Settings of these setup flags: all features that have a name, positions that begin at 0, and
    /// nothing else that is asked for.
    pub fn new(setup: u32) -> Settings
        ensures { result ≡ default_settings setup }
    {
        Settings {
            setup,
            features: FeatureFlags::all().bits(),
            cq_entries: None,
            start: 0,
            sq_thread_idle: 0,
            sq_thread_cpu: 0,
            wq_fd: 0,
            dontfork: false,
        }
    }

    fn setup_word(&self) -> u32
        ensures { result ≡ setup_word self.now }
    {
        match self.cq_entries {
            Some(_) => self.setup | SetupFlags::CQSIZE.bits(),
            None => self.setup,
        }
    }

    /// A count, or the most that there may be where counts are to be cut.
    fn cut(&self, count: u32, most: u32) -> u32
        ensures { result ≡ cut self.now most count }
    {
        if SetupFlags::from_bits_retain(self.setup).contains(SetupFlags::CLAMP) {
            count.min(most)
        } else {
            count
        }
    }

    /// The parameters of the ring of these settings, or `Invalid` where the sizes aren't those of a
    /// ring.
    pub fn parameters(&self, entries: u32) -> Result<Parameters, SetupError>
        ensures ok { IfOk result (λ parameters. (is_buildable self.now entries ≡ true) × (parameters ≡ parameters_for self.now entries)) }
        ensures sizes { IfOk result (λ parameters. (is_ring_size (told_entries parameters) ≡ true) × (is_ring_size (told_completions parameters) ≡ true) × (told_entries parameters ≤ MAX_ENTRIES)) }
        ensures err { IfErr result (λ error. (is_buildable self.now entries ≡ false) × (error ≡ SetupError.Invalid)) }
    {
        let entries = self.cut(entries, MAX_ENTRIES);
        if !in_range(entries, MAX_ENTRIES) {
            return Err(SetupError::Invalid);
        }
        let completions = match self.cq_entries {
            Some(count) => self.cut(count, MAX_COMPLETIONS),
            None => 2 * entries,
        };
        self.sized(entries, completions)
    }

    /// The parameters of a ring of these counts, each cut already.
    fn sized(&self, entries: u32, completions: u32) -> Result<Parameters, SetupError>
        requires { (nat_lt 0 entries && nat_le entries MAX_ENTRIES) ≡ true }
        ensures ok { IfOk result (λ parameters. (is_valid_size entries completions ≡ true) × (parameters ≡ parameters_of_sizes self.now entries completions)) }
        ensures sizes { IfOk result (λ parameters. (is_ring_size (told_entries parameters) ≡ true) × (is_ring_size (told_completions parameters) ≡ true) × (told_entries parameters ≤ MAX_ENTRIES)) }
        ensures err { IfErr result (λ error. (is_valid_size entries completions ≡ false) × (error ≡ SetupError.Invalid)) }
    {
        if !in_range(completions, MAX_COMPLETIONS) {
            return Err(SetupError::Invalid);
        }
        let sq_entries = rounded_up(entries);
        let cq_entries = rounded_up(completions);
        if cq_entries < sq_entries {
            return Err(SetupError::Invalid);
        }
        Ok(Parameters {
            setup: self.setup_word(),
            features: self.features,
            sq_entries,
            sq_thread_idle: self.sq_thread_idle,
            cq_entries,
        })
    }
}
