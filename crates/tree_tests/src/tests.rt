mod helpers;
mod names;
mod whole_files;
