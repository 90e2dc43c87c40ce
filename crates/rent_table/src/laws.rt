//! Laws of the definitions, each the contract of a function that does nothing.

ghost use Rattle.rent_table.specs.Laws.{OnlyWhatHangs, AnyDepth, InOrder, FlightsAfter, OutcomesAfter, JoinsAfter, ResolvesAsked};

/// The end of a number resolves what hangs on it, quietly, and nothing else.
pub fn quiet_ends()
    ensures only { OnlyWhatHangs }
    ensures any_depth { AnyDepth }
    ensures in_order { InOrder }
    ensures flights { FlightsAfter }
    ensures outcomes { OutcomesAfter }
    ensures joins { JoinsAfter }
    ensures asked { ResolvesAsked }
{}
