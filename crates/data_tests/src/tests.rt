mod base;
mod file_builders;
mod large_completions;
mod large_entries;
mod markers;
mod mixed_lists;
mod path_builders;
mod types;
