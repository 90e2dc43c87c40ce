//! The ends of each side of two rings, without a lifetime.

ghost use Rattle.std.specs.Prelude.{◌≡◌};
ghost use Rattle.ring_shared.specs.Ends.{sent, published_items, taken, head_published};

use ring_shared::{SendEnd, TakeEnd};
use uring_base::{Completion, Taken};

/// The engine's ends: it sends entries and takes completions. They may move to another thread, and
/// are used by `on`, with the pair that they were made with.
#[derive(Drop)]
pub struct EngineSeats {
    pub(crate) send: SendEnd<Taken>,
    pub(crate) take: TakeEnd<Completion>,
}

/// The partner's ends: it takes entries and sends completions. They may move to another thread, and
/// are used by `on`, with the pair that they were made with.
#[derive(Drop)]
pub struct PartnerSeats {
    pub(crate) take: TakeEnd<Taken>,
    pub(crate) send: SendEnd<Completion>,
    // what it takes it gives back at once
    ghost given_back: { head_published take ≡ taken take },
    // what it posts it shows at once
    ghost shown: { published_items send ≡ sent send },
}
