//! The sizes and flags of a ring: what it is asked to be, and what it was made with.
#![tactic(auto)]

macro_rules! named_flags {
    ($type:ident: $($flag:ident),*) => {
        &[$(Flag { name: stringify!($flag), value: $type::$flag }),*]
    };
}

mod feature_flags;
pub mod laws;
mod parameters;
mod ring_flags;
mod settings;
mod setup_flags;

pub use feature_flags::FeatureFlags;
pub use parameters::Parameters;
pub use ring_flags::{CompletionRingFlags, SubmissionFlags};
pub use settings::Settings;
pub use setup_flags::SetupFlags;
