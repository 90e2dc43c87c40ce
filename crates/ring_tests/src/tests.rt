mod cores;
mod rings;
mod settings;
