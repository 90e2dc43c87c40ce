//! The marks at the end of a job line.

ghost use Rattle.std.specs.Prelude.{◌≡◌, map};
ghost use Rattle.uring_text.specs.Script.{after_word, link_mark, marks_of};

use uring_model::Link;

/// The marks at the end of a job line.
#[derive(Clone, Copy)]
pub struct Marks {
    pub drain: bool,
    pub quiet: bool,
    pub link: Link,
}

/// Whether the word stands in front, and what follows it.
#[tactic(auto, unfolding(crate::specs::Script::after_word))]
fn after_word<'a>(word: &[u8], marks: &'a [&'a [u8]]) -> (bool, &'a [&'a [u8]])
    ensures { (result.0, map (λ x. x.now) result.1.now) ≡ after_word word.now (map (λ x. x.now) marks.now) }
{
    match marks {
        [mark, after @ ..] if *mark == word => (true, after),
        _ => (false, marks),
    }
}

/// The last mark: `link`, `hard` or none.
#[tactic(auto, unfolding(crate::specs::Script::link_mark))]
fn link_mark(marks: &[&[u8]]) -> Option<Link>
    ensures { result ≡ link_mark (map (λ x. x.now) marks.now) }
{
    match marks {
        [] => Some(Link::Free),
        [mark] if *mark == b"link".as_slice() => Some(Link::Soft),
        [mark] if *mark == b"hard".as_slice() => Some(Link::Hard),
        _ => None,
    }
}

/// All marks: whether the job is drained, whether it is quiet, and its link.
#[tactic(auto, unfolding(crate::specs::Script::marks_of))]
pub fn marks_of(marks: &[&[u8]]) -> Option<Marks>
    ensures { result ≡ marks_of (map (λ x. x.now) marks.now) }
{
    let (drain, marks) = after_word(b"drain", marks);
    let (quiet, marks) = after_word(b"quiet", marks);
    let link = link_mark(marks)?;
    Some(Marks { drain, quiet, link })
}
