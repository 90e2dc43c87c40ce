//! Laws of what a partner did in a stretch of rounds, each the contract of a function that does
//! nothing.

ghost use Rattle.partner_serving.specs.Serving.{ServingsJoin, NoRoundServes, WorkingTurnsAreFew, UnbrokenTurnsAreFew};
ghost use Rattle.partner_serving.specs.Rounds.{DueTurnsWork};
ghost use Rattle.partner_serving.specs.TwoSides.{TwoSidesAreOneRun};

use partner_traits::Partner;
use partner_traits::laws::world_laws;
use uring_model::laws::{
    moves_join, no_stranger, partner_replays, turns_are_moves, whole_at_the_end,
};

/// Stretches in a row are one, and none at all is an unbroken one.
pub fn servings_join<P: Partner>()
    ensures join { ServingsJoin P.machine P.Plain }
    ensures none { NoRoundServes P.machine P.Plain }
{
    moves_join();
    world_laws::<P>();
}

/// An unbroken stretch has at most two turns for each entry that it takes, and one for each that was
/// pending before it, where the machine has its answers.
pub fn unbroken_turns_are_few<P: Partner>()
    ensures moves { WorkingTurnsAreFew P.machine P.Plain }
    ensures few { UnbrokenTurnsAreFew P.machine P.Plain }
{
    world_laws::<P>();
}

/// A whole turn takes or settles an entry, where the machine has its answers, and one was known to
/// wait, or one was pending and there was room.
pub fn due_turns_work<P: Partner>()
    ensures { DueTurnsWork P.machine P.Plain }
{
    turns_are_moves();
    world_laws::<P>();
}

/// What both sides of a run tell once they met is one run over one list of moves, whatever their
/// calls were between each other.
pub fn two_sides_are_one_run<P: Partner>()
    ensures { TwoSidesAreOneRun P.machine P.view P.Plain }
{
    moves_join();
    partner_replays();
    no_stranger();
    whole_at_the_end();
    world_laws::<P>();
}
