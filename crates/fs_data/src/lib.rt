//! What files are: their metadata, in numbers, and where the parents of paths end.
#![tactic(auto)]

mod file_type;
mod moment;
mod paths;
mod permissions;
mod stat_record;
#[cfg(test)]
mod tests;

pub use file_type::FileType;
pub use moment::Moment;
pub use paths::parent_end;
pub use permissions::Permissions;
pub use stat_record::{STAT_RECORD_LEN, StatRecord};
