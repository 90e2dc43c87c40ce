//! Operations in flight over a pair of rings.
#![tactic(auto)]

mod completions;
mod engine;
mod executor;
mod fault;
mod handles;
pub mod laws;
mod one_op;
mod op_kind;
mod ops;
mod sequences;
mod start;
mod state;
mod turn;

pub use engine::Engine;
pub use executor::{ExecFault, Executor};
pub use fault::{EngineFault, StartFault};
pub use one_op::{OneAnswer, OneOp, Request, Stage};
pub use op_kind::{OpKind, SingleOp};
pub use ops::{OpKey, OpPoll, TurnReport};
pub use rent_table::{CancelHandle, OpDone, Step};
pub use sequences::{Plan, PlanStep, Sequence};
pub use state::{OpState, Poll};
