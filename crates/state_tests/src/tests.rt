mod executors;
mod files;
mod helpers;
mod paths;
mod whole_buffers;
