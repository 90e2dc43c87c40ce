//! What a copy took.

/// How many bytes one operation moves at most.
pub const PIECE: u32 = 4096;

/// How many bytes were copied, by how many operations.
#[derive(Clone, Copy, PartialEq, Eq, Debug)]
pub struct Copied {
    pub bytes: u32,
    pub operations: u32,
}
