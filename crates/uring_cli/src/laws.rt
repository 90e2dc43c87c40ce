//! The law of the command's words, apart from any reading.

ghost use Rattle.uring_cli.specs.Laws.{OptionsAreAsSaid};

use uring_text::numbers_are_decimal;

/// The options that are read are those that the words say by the grammar, and nothing else is
/// read.
pub fn options_are_as_said()
    ensures { OptionsAreAsSaid }
{
    numbers_are_decimal();
}
