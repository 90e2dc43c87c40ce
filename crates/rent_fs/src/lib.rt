//! Files and directories: states of the operations on them, by number and by path.
#![tactic(auto)]

mod answers;
mod creation;
mod error;
mod file;
pub mod fs;
pub mod laws;
mod lent;
mod make_dir;
mod metadata;
mod moved;
mod names;
mod open;
mod open_options;
mod path_op;
mod read_at;
mod read_exact_at;
mod read_whole;
mod stats;
mod synced;
mod syncs;
mod whole_buffer;
mod write_all_at;
mod write_at;
mod write_whole;

pub use answers::{Left, MAX_BREAKS, Progress, WholeFault, after_answer};
pub use creation::{Creation, Phase};
pub use error::FsError;
pub use file::File;
pub use fs_data::{FileType, Moment, Permissions, STAT_RECORD_LEN, StatRecord};
pub use make_dir::{DirBuilder, MakeDir, Making};
pub use metadata::Metadata;
pub use names::{Naming, Remove, Rename};
pub use open::{CloseFile, Closing, Open, Opening};
pub use open_options::{NEW_FILE_MODE, OpenOptions};
pub use path_op::{PathLoan, PathOp, PathRequest, PathStage};
pub use read_at::{ReadAt, Reading};
pub use read_exact_at::{ReadExactAt, WholeRead};
pub use read_whole::{ReadWhole, WholeFileRead};
pub use stats::{Stat, Stating};
pub use syncs::{Sync, Syncing};
pub use whole_buffer::{Transfer, WholeBuffer, begin};
pub use write_all_at::{WholeWrite, WriteAllAt};
pub use write_at::{WriteAt, Writing};
pub use write_whole::{WholeFileWrite, WriteWhole};
