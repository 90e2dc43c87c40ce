//! Laws of scripts and their lines, apart from any reading.

ghost use Rattle.uring_text.specs.Laws.{LinesEndAtFeeds, FieldsEndAtSpaces, NumbersAreDecimal, LinesAreAsSaid, ScriptsAreAsSaid, FrontsAreScripts};

/// A line feed ends a line, and the last line may lack it; of an empty text there is no line.
pub fn lines_end_at_feeds()
    ensures { LinesEndAtFeeds }
{}

/// One space stands between two fields, so two in a row have an empty field between them.
pub fn fields_end_at_spaces()
    ensures { FieldsEndAtSpaces }
{}

/// A number is read from its decimal text, and from no other.
pub fn numbers_are_decimal()
    ensures { NumbersAreDecimal }
{}

/// What is read of a line is what it says by the grammar, and nothing else.
pub fn lines_are_as_said()
    ensures { LinesAreAsSaid }
{}

/// A script is read from the lines that are one, and tells what they say.
pub fn scripts_are_as_said()
    ensures { ScriptsAreAsSaid }
{}

/// The first lines of a script are a script, so there is one fault line where there is any.
pub fn fronts_are_scripts()
    ensures { FrontsAreScripts }
{}
