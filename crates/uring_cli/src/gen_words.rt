//! The words of the command `gen`.

ghost use Rattle.std.specs.Prelude.{◌≡◌};
ghost use Rattle.uring_cli.specs.Generated.{asks_for_jobs, count_of};

use uring_base::Buf;
use uring_text::number_to;

/// The most jobs that the command takes.
pub const MOST_JOBS: u64 = 100_000;

/// Whether the first word is `gen`.
pub fn asks_for_jobs(words: &[Buf]) -> bool
    ensures { result ≡ asks_for_jobs words.now }
{
    match words.first() {
        Some(name) => name.as_slice() == b"gen".as_slice(),
        None => false,
    }
}

/// How many jobs the words say: `gen`, and a number from 1 to the limit.
#[tactic(auto, unfolding(crate::specs::Generated::count_of))]
pub fn count_of(words: &[Buf]) -> Option<u32>
    ensures { result ≡ count_of words.now }
{
    let (name, numbers) = words.split_first()?;
    let (number, more) = numbers.split_first()?;
    if !more.is_empty() || name.as_slice() != b"gen".as_slice() {
        return None;
    }
    let count = number_to(number.as_slice(), MOST_JOBS)?;
    if count > 0 { Some(count as u32) } else { None }
}
