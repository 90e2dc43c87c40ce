//! Laws of the definitions, each the contract of a function that does nothing.

ghost use Rattle.rent_engine.specs.Laws.{StaysInFlight, Lands, LeavesOnce, StartsApart, LandsApart, LeavesApart, ForgetsApart, StartsKnown, LandsKnown, LeavesKnown, ForgetsKnown};

/// A number that was started stays in flight until a final completion for it, or for one that it
/// hangs on. It is resolved then, and is taken out once.
pub fn numbers_stay()
    ensures in_flight { StaysInFlight }
    ensures lands { Lands }
    ensures once { LeavesOnce }
{}

/// No number is both in flight and resolved, whatever is started, completed, polled and forgotten.
pub fn numbers_are_apart()
    ensures started { StartsApart }
    ensures completed { LandsApart }
    ensures polled { LeavesApart }
    ensures forgotten { ForgetsApart }
{}

/// A number that is known stays so until it is polled or forgotten, so a key isn't lost on the
/// engine that gave it.
pub fn keys_are_known()
    ensures started { StartsKnown }
    ensures completed { LandsKnown }
    ensures polled { LeavesKnown }
    ensures forgotten { ForgetsKnown }
{}
