//! The words of the commands that read a script.

ghost use Rattle.std.specs.Prelude.{◌≡◌, ◌+◌, ◌<◌, ◌≤◌, IfSome};
ghost use Rattle.uring_text.specs.Lines.{number_below};
ghost use Rattle.uring_cli.specs.Words.{asks_for_folder, asks_for_threads, given_by, in_force, is_command, nothing_given, options_of, shared_options_of, with_option};

use uring_base::Buf;
use uring_text::number_to;

/// A word after the program's name.
pub type Word = Buf;

/// The greatest number that an option takes.
pub const MAX_NUMBER: u64 = u32::MAX as u64;

/// How many entries the submission ring holds where `--sq` isn't given.
pub const DEFAULT_ENTRIES: u32 = 8;

/// After how many idle turns in a row the run is given up where `--idle` isn't given.
pub const DEFAULT_IDLE: u32 = 16;

/// What the options say, each where it is given.
#[derive(Clone, Copy)]
pub struct Given {
    pub sq: Option<u32>,
    pub cq: Option<u32>,
    pub start: Option<u32>,
    pub idle: Option<u32>,
}

/// The sizes of a run, as `run_jobs` takes them.
#[derive(Clone, Copy, PartialEq, Eq, Debug)]
pub struct Options {
    pub sq: u32,
    pub cq: u32,
    pub start: u32,
    pub idle: u32,
}

impl Given {
    fn nothing() -> Given
        ensures { result ≡ nothing_given }
    {
        Given {
            sq: None,
            cq: None,
            start: None,
            idle: None,
        }
    }

    /// One more option, unless there is none of this name, or it came before.
    #[tactic(auto, unfolding(crate::specs::Words::with_option))]
    pub fn with_option(self, name: &[u8], number: u32) -> Option<Given>
        ensures { result ≡ with_option name.now number self }
    {
        if name == b"--sq".as_slice() && self.sq.is_none() {
            Some(Given {
                sq: Some(number),
                ..self
            })
        } else if name == b"--cq".as_slice() && self.cq.is_none() {
            Some(Given {
                cq: Some(number),
                ..self
            })
        } else if name == b"--start".as_slice() && self.start.is_none() {
            Some(Given {
                start: Some(number),
                ..self
            })
        } else if name == b"--idle".as_slice() && self.idle.is_none() && number > 0 {
            Some(Given {
                idle: Some(number),
                ..self
            })
        } else {
            None
        }
    }

    /// The options, those that aren't given among them.
    fn in_force(self) -> Options
        ensures { result ≡ in_force self }
    {
        let sq = self.sq.unwrap_or(DEFAULT_ENTRIES);
        Options {
            sq,
            cq: self.cq.unwrap_or(sq.saturating_mul(2)),
            start: self.start.unwrap_or(0),
            idle: self.idle.unwrap_or(DEFAULT_IDLE),
        }
    }
}

/// The number that the word spells, where it is one that an option takes.
fn number_in(word: &Word) -> Option<u32>
    ensures { result ≡ number_below (MAX_NUMBER + 1) word.now }
{
    let number = number_to(word.as_slice(), MAX_NUMBER)?;
    Some(number as u32)
}

/// What names and numbers in turn give.
fn given_by(words: &[Word]) -> Option<Given>
    ensures given { result ≡ given_by nothing_given words.now }
    ensures idle { IfSome result (λ given. IfSome given.idle (λ idle. 0 < idle)) }
{
    let mut given = Given::nothing();
    let mut rest = words.iter();
    while let Some(name) = rest.next() {
        let number = number_in(rest.next()?)?;
        given = given.with_option(name.as_slice(), number)?;
    }
    Some(given)
}

/// Whether the word names a command that runs a script on the program's own thread: `run` or `std`.
fn is_command(name: &Word) -> bool
    ensures { result ≡ is_command name.now }
{
    name.as_slice() == b"run".as_slice() || name.as_slice() == b"std".as_slice()
}

/// The options of the commands `run` and `std`, where the words are a command's name and then
/// options.
#[tactic(auto, unfolding(crate::specs::Words::options_of))]
pub fn options_of(words: &[Word]) -> Option<Options>
    ensures options { result ≡ options_of words.now }
    ensures idle { IfSome result (λ options. 0 < options.idle) }
{
    let (name, settings) = words.split_first()?;
    if !is_command(name) {
        return None;
    }
    let given = given_by(settings)?;
    Some(given.in_force())
}

/// The options of the command `shared`, where the words are its name and then options: those of
/// `run` but `--idle`, since such a run isn't given up.
#[tactic(auto, unfolding(crate::specs::Words::shared_options_of))]
pub fn shared_options_of(words: &[Word]) -> Option<Options>
    ensures { result ≡ shared_options_of words.now }
{
    let (name, settings) = words.split_first()?;
    if name.as_slice() != b"shared".as_slice() {
        return None;
    }
    let given = given_by(settings)?;
    if given.idle.is_some() {
        return None;
    }
    Some(given.in_force())
}

/// Whether the first word is `std`.
pub fn asks_for_folder(words: &[Word]) -> bool
    ensures { result ≡ asks_for_folder words.now }
{
    match words.first() {
        Some(name) => name.as_slice() == b"std".as_slice(),
        None => false,
    }
}

/// Whether the first word is `shared`.
pub fn asks_for_threads(words: &[Word]) -> bool
    ensures { result ≡ asks_for_threads words.now }
{
    match words.first() {
        Some(name) => name.as_slice() == b"shared".as_slice(),
        None => false,
    }
}
