//! Jobs, run over a ring and a partner, and the texts and the streams around them, under one name.
//! All of it stands in run_loop, uring_streams and uring_text; this crate only names it again.
#![tactic(auto)]

pub use run_loop::{
    Job, JobKind, Link, Outcome, Report, RunFault, first_bad_job, run_jobs, run_on,
};
pub use uring_streams::{
    Failed, InputFault, MemorySink, MemorySource, Sink, Source, StdSink, StdSource, read_all,
    write_all,
};
pub use uring_text::{Script, ScriptFault, Seed, Status, read_script, report_text, status_text};
