//! Laws of the definitions, each the contract of a function that does nothing.

ghost use Rattle.uring_model.specs.Explained.{MovesAreExplained, CallsAreExplained, IdleCallsAreMoves, IdlePartnersAreExplained};
ghost use Rattle.uring_model.specs.Partner.{file_machine};
ghost use Rattle.uring_model.specs.Progress.{LowestMaySettle, AlwaysAnswers, FrontIsReady, TurnsAreMoves, ReadySettles, TurnsSettle, PostsFitRoom, SettlingTurns, SettlingTurnsJoin, NoneIsLost, TurnsAreFew};
ghost use Rattle.uring_model.specs.Ends.{SetWhereWhole, WholeWhereSet, WholeByCount, WholeAtEnd, IdleWhereWhole, AnsweredAtEnd, WholeWhereAnswered, LastTurnsPost};
ghost use Rattle.uring_model.specs.Honest.{NoPostIsStrange, PostsAnswer, QuietsAnswer};
ghost use Rattle.uring_model.specs.Joins.{MovesJoin, NoMoveStays, TurnsPostTheirs};
ghost use Rattle.uring_model.specs.Words.{MayInWords, SeveredInWords, ReadyInWords, PlaceInWords, CancelInWords, MarkInWords};

/// What an idle partner does over entries that ask what the jobs ask makes a journal that
/// replays, and is chosen by its choices.
pub fn partner_replays()
    ensures moves { MovesAreExplained }
    ensures calls { CallsAreExplained }
    ensures from_idle { IdlePartnersAreExplained }
    ensures as_moves { IdleCallsAreMoves }
{}

/// The lowest open job may always settle. The files can answer whatever is asked, so the entry in
/// front is always ready.
pub fn lowest_may_settle()
    ensures job { LowestMaySettle }
    ensures answers { AlwaysAnswers file_machine }
    ensures entry { FrontIsReady file_machine }
{}

/// The moves of a turn lead on from any state; entries settle in it where they can, within its
/// room.
pub fn turns_are_moves()
    ensures moves { TurnsAreMoves file_machine }
    ensures ready { ReadySettles file_machine }
    ensures settles { TurnsSettle file_machine }
    ensures room { PostsFitRoom file_machine }
{}

/// Each entry taken is settled or pending, so there are no more turns in which one settles than
/// takes.
pub fn turns_are_few()
    ensures kept { NoneIsLost file_machine }
    ensures settles { SettlingTurns }
    ensures joins { SettlingTurnsJoin }
    ensures few { TurnsAreFew file_machine }
{}

/// A replay has every outcome exactly where it is whole. It is whole where all entries were
/// taken and none is pending, and where each job is answered; the partner is idle then. Until then a
/// turn posts, once all entries were taken.
pub fn whole_at_the_end()
    ensures set { SetWhereWhole }
    ensures whole { WholeWhereSet }
    ensures counted { WholeByCount }
    ensures settled { WholeAtEnd }
    ensures idle { IdleWhereWhole }
    ensures answered { AnsweredAtEnd }
    ensures heard { WholeWhereAnswered }
    ensures posts { LastTurnsPost }
{}

/// An idle partner posts only jobs that were started, each once, with its own loan. Each post
/// answers an entry that it took, and each quiet end is of a quiet one.
pub fn no_stranger()
    ensures honest { NoPostIsStrange }
    ensures answers { PostsAnswer }
    ensures quiets { QuietsAnswer }
{}

/// The moves of calls in a row are those of one run, and no call leaves all as it was.
pub fn moves_join()
    ensures join { MovesJoin }
    ensures none { NoMoveStays }
    ensures turn { TurnsPostTheirs }
{}

/// What the recursions on rows say of the jobs.
pub fn rows_in_words()
    ensures may { MayInWords }
    ensures severed { SeveredInWords }
    ensures ready { ReadyInWords }
    ensures place { PlaceInWords }
    ensures cancel { CancelInWords }
    ensures mark { MarkInWords }
{}
