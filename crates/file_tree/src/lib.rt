//! A tree of names over files: directories, files with names, and what paths ask of them.
//!
//! - `Tree` is what stands under each name of each directory, and what is kept of files beside their
//!   bytes.
//! - `World` is files and a tree together.
//! - What an entry of a ring asks of it is `path_operation_of`, and `perform_path` does it.
//! - In specs/: the tables of what each operation answers, and the world of files and a tree.
#![tactic(auto)]

mod dirs;
mod inodes;
mod names;
mod nodes;
mod opening;
mod path_operation;
mod perform;
mod place;
mod stats;
mod tree;
mod walk;
mod world;

pub use inodes::{Inode, Inodes, SEEDED_MODE};
pub use nodes::Nodes;
pub use path_operation::{PathOperation, path_operation_of};
pub use perform::{PathAnswered, perform_path};
pub use place::{Node, Place, Spot};
pub use stats::{BLOCK_SIZE, DEVICE, ROOT_MODE, STAT_BLOCK};
pub use tree::Tree;
pub use world::World;
