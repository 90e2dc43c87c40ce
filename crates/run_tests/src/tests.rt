mod read_scripts;
mod reports;
mod runs;
mod scripts;
mod shared_runs;
mod streams;
mod texts;
