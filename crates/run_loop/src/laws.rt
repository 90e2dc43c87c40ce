//! The laws of the definitions that a run stands on.

ghost use Rattle.run_loop.specs.Laws.{ModelLaws};

use partner_traits::Partner;
use partner_traits::laws::world_laws;
use uring_model::laws::{
    moves_join, no_stranger, partner_replays, turns_are_few, turns_are_moves, whole_at_the_end,
};

/// What the crate of the definitions has proved of a partner's moves, by the contracts of its laws.
/// It does nothing when it runs.
pub fn model_laws<P: Partner>()
    ensures { ModelLaws P.machine P.view P.Plain }
{
    moves_join();
    turns_are_moves();
    turns_are_few();
    partner_replays();
    no_stranger();
    whole_at_the_end();
    world_laws::<P>();
}
