//! The limits of a script.

/// How many files a script may name.
pub const MAX_FILES: usize = 64;
/// How many jobs a script may have.
pub const MAX_JOBS: usize = 262_144;
/// How many bytes the buffers of all jobs of a script may have together.
pub const MAX_JOB_BYTES: usize = 67_108_864;
/// How many bytes one read may ask for.
pub const MAX_READ_BYTES: u64 = 16_777_216;
