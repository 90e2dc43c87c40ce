//! How far a whole buffer has come, by the answers of its operations.

ghost use Rattle.std.specs.Prelude.{◌≡◌, ◌++◌, ◌∷◌, [], List, true};
ghost use Rattle.rent_fs.specs.WholeBuffer.{TransferAnswer, after_answer, after_break, after_count, after_error, is_going, progress_of};

use uring_base::errno::EINTR;

/// How often the operations of a whole buffer may be interrupted.
pub const MAX_BREAKS: u32 = 15;

/// Why a whole buffer wasn't moved.
#[derive(Clone, Copy, PartialEq, Eq, Debug)]
pub enum WholeFault {
    /// An operation answered this error number, below 0.
    Os(u32),
    /// An operation moved nothing.
    Nothing,
    /// Its operations were interrupted once more than they may be.
    Interrupted,
    /// More was told than was asked for, or another buffer came back.
    BadCount,
    /// An operation's number is in use.
    KeyInUse,
    /// The engine doesn't know an operation, or gave no buffer back.
    KeyLost,
    NoMemory,
}

/// What is left of a whole buffer, and how often its operations were interrupted.
#[derive(Clone, Copy, PartialEq, Eq, Debug)]
pub struct Left {
    pub rest: u32,
    pub breaks: u32,
}

/// How far a whole buffer has come.
#[derive(Clone, Copy, PartialEq, Eq, Debug)]
pub enum Progress {
    Going(Left),
    Whole,
    Failed(WholeFault),
}

fn after_count(left: Left, count: u32) -> Progress
    ensures { result ≡ after_count left count }
{
    if count == 0 {
        Progress::Failed(WholeFault::Nothing)
    } else if count > left.rest {
        Progress::Failed(WholeFault::BadCount)
    } else {
        match left.rest - count {
            0 => Progress::Whole,
            rest => Progress::Going(Left { rest, ..left }),
        }
    }
}

fn after_break(left: Left) -> Progress
    ensures { result ≡ after_break left }
{
    if left.breaks < MAX_BREAKS {
        Progress::Going(Left {
            breaks: left.breaks + 1,
            ..left
        })
    } else {
        Progress::Failed(WholeFault::Interrupted)
    }
}

fn after_error(left: Left, errno: u32) -> Progress
    ensures { result ≡ after_error left errno }
{
    if errno == EINTR.cast_unsigned() {
        after_break(left)
    } else {
        Progress::Failed(WholeFault::Os(errno))
    }
}

/// What an operation's result makes of what was left, where a buffer of length `came_back` came
/// back of one of length `len`.
pub fn after_answer(len: u32, left: Left, code: i32, came_back: usize) -> Progress
    ensures step { result ≡ after_answer len (Progress.Going left) (record { result = code; length = came_back }) }
    ensures whole { (earlier : List TransferAnswer) → progress_of len earlier ≡ Progress.Going left → result ≡ progress_of len (earlier ++ record { result = code; length = came_back } ∷ []) }
    ensures lent { is_going result ≡ true → came_back ≡ len }
{
    if came_back != len as usize {
        return Progress::Failed(WholeFault::BadCount);
    }
    if code < 0 {
        after_error(left, code.unsigned_abs())
    } else {
        after_count(left, code.unsigned_abs())
    }
}
