//! Texts: scripts, reports and statuses.
#![tactic(auto)]

mod digits;
mod fields;
mod jobs;
mod laws;
mod limits;
mod line;
mod marks;
mod read;
mod report;
mod script;
mod status;

pub use fields::number_to;
pub use laws::{
    fields_end_at_spaces, fronts_are_scripts, lines_are_as_said, lines_end_at_feeds,
    numbers_are_decimal, scripts_are_as_said,
};
pub use limits::{MAX_FILES, MAX_JOB_BYTES, MAX_JOBS, MAX_READ_BYTES};
pub use read::read_script;
pub use report::report_text;
pub use script::{Line, Script, ScriptFault, Seed};
pub use status::{Status, status_text};
