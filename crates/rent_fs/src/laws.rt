//! Laws of the definitions, each the contract of a function that does nothing.

ghost use Rattle.rent_fs.specs.Laws.{IsWholeExactly};
ghost use Rattle.rent_fs.specs.Rows.{AppendsAndTruncates, AppendsToNew, MakesThree, MakesBelowRoot};

/// A whole buffer is moved exactly where each buffer came back as it was lent, and the counts, each
/// above 0, add up to the whole, with no more interruptions than there may be.
pub fn whole_buffers()
    ensures { IsWholeExactly }
{}

/// Worked rows of recursive creations: which beginnings of a path are tried, by their lengths.
pub fn worked_creations()
    ensures three { MakesThree }
    ensures root { MakesBelowRoot }
{}

/// Worked rows of the options of an opening.
pub fn worked_options()
    ensures refused { AppendsAndTruncates }
    ensures made { AppendsToNew }
{}
