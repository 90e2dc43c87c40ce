//! Partners: what stands in the kernel's place at the other end of both rings.
#![tactic(auto)]

mod answering;
mod chain;
mod ending;
mod hostile;
mod kept_calls;
pub mod laws;
mod ledger;
mod logging;
mod memory;
mod pending_list;
mod plan;
mod registering;
mod scan;
mod settle;
mod settle_on_tree;

pub use hostile::{HostilePartner, LoanPlan, Scripted};
pub use memory::MemoryPartner;
pub use partner_traits::{
    Counts, EnterCall, Partner, PartnerCall, PartnerError, PendingCount, Registrar, Request,
    Seedable,
};
