//! Operations, and what comes of them.

use rent_table::OpDone;
use std::marker::Model;

/// Names an operation of the engine that gave it, by its number.
#[derive(Drop)]
pub struct OpKey {
    pub(crate) number: u64,
}

impl Model for OpKey {
    ghost use Rattle.std.specs.Prelude.{ℕ};

    ghost Value = { ℕ };

    ghost view = { λ key. key.number };
}

/// What comes of asking for an operation's result.
#[derive(Drop)]
pub enum OpPoll {
    Ready(OpDone),
    /// It is in flight.
    Pending(OpKey),
    /// The engine doesn't know it.
    Lost(OpKey),
}

/// What a turn did.
#[derive(Clone, Copy, PartialEq, Eq, Debug)]
pub struct TurnReport {
    /// How many entries the partner took.
    pub taken: u32,
    /// How many final completions were taken; it stays at `u32::MAX` once there.
    pub finals: u32,
}
