//! What holds of every partner's world.

ghost use Rattle.uring_model.specs.Refines.{WorldLaws};

use crate::traits::Partner;

/// Calls in a row are one run of its machine, its turns are moves that post within their room, and
/// where something is ready, and no entry is lost. While its world is plain, and nothing is asked
/// but the six operations, it goes as its files do.
pub fn world_laws<P: Partner>()
    ensures { WorldLaws P.machine P.view P.Plain }
{}
