//! Lists of any entries that have two sizes, as bytes.

ghost use Rattle.std.specs.Prelude.{◌≡◌, ◌<◌, ◌++◌, ◌∷◌, ◌↔◌, [], true, false, IfOk, IfErr, OnOk, IsTrue, length, slice_index};
ghost use Rattle.std.specs.List.{AllByRecursion};
ghost use Rattle.uring_mixed.specs.Listing.{Form, IsEntry, is_mark, size_for, encoding, IsReading, IsOnlyReading};
ghost use Rattle.uring_mixed.specs.Steps.{StandsAt, IsFaultAt};

use crate::fault::MixedFault;
use std::alloc::{AllocError, Global};
use std::marker::Model;

/// The mark before a small entry.
pub(crate) const SMALL_MARK: u8 = 1;
/// The mark before a large entry.
pub(crate) const LARGE_MARK: u8 = 2;

/// A list that was decoded.
#[derive(Drop)]
pub struct MixedList<T> {
    items: Vec<T>,
}

impl<T> Model for MixedList<T> {
    ghost use Rattle.std.specs.Prelude.{List};

    ghost Value = { List T };

    ghost view = { λ list. list.items.items };
}

impl<T> MixedList<T> {
    /// How many entries there are.
    pub fn len(&self) -> usize
        ensures { result ≡ length self.now }
    {
        self.items.len()
    }

    /// Whether there are none.
    pub fn is_empty(&self) -> bool
        ensures { IsTrue result ↔ (self.now ≡ []) }
    {
        self.items.is_empty()
    }

    /// The entries.
    pub fn as_slice(&self) -> &[T]
        ensures { result.now ≡ self.now }
    {
        self.items.as_slice()
    }
}

/// An entry of two sizes that can stand in a list.
pub(crate) trait Listed: Copy {
    // Its bytes in a list.
    ghost form: { Form Self };

    /// How many bytes stand behind this mark.
    fn size(mark: u8) -> usize
        ensures { result ≡ size_for form mark };

    /// Adds the mark and the bytes.
    fn put(&self, bytes: &mut Vec<u8>) -> Result<(), AllocError>
        ensures entry { IsEntry form self.now }
        ensures ok { OnOk result (bytes.new.items ≡ bytes.old.items ++ form.code self.now) };

    /// The entry that these bytes behind this mark hold.
    fn held(mark: u8, bytes: &[u8]) -> Self
        requires marked { is_mark mark ≡ true }
        requires size { length bytes.now ≡ size_for form mark }
        ensures entry { IsEntry form result }
        ensures code { form.code result ≡ mark ∷ bytes.now };
}

/// Adds a mark and the bytes behind it.
pub(crate) fn put_marked(mark: u8, own: &[u8], bytes: &mut Vec<u8>) -> Result<(), AllocError>
    ensures { OnOk result (bytes.new.items ≡ bytes.old.items ++ (mark ∷ own.now)) }
{
    bytes.push(mark)?;
    bytes.extend_from_slice(own)
}

/// The bytes of the entries, in their order.
pub(crate) fn encode<T: Listed>(alloc: Global, items: &[T]) -> Result<Vec<u8>, AllocError>
    ensures { IfOk result (λ bytes. (bytes.items ≡ encoding T.form items.now) × AllByRecursion (IsEntry T.form) items.now) }
{
    let mut bytes = Vec::new(alloc);
    for item in items {
        item.put(&mut bytes)?;
    }
    Ok(bytes)
}

/// The mark at a place.
fn mark_at(bytes: &[u8], place: usize) -> Result<u8, MixedFault>
    requires { place < length bytes.now }
    ensures ok { IfOk result (λ mark. (mark ≡ slice_index bytes.now place) × (is_mark mark ≡ true)) }
    ensures err { IfErr result (λ fault. (fault ≡ MixedFault.Mark place) × (is_mark (slice_index bytes.now place) ≡ false)) }
{
    match bytes[place] {
        mark @ (SMALL_MARK | LARGE_MARK) => Ok(mark),
        _ => Err(MixedFault::Mark(place)),
    }
}

/// The entry that begins at a place, and the place behind it.
fn entry_at<T: Listed>(bytes: &[u8], place: usize) -> Result<(T, usize), MixedFault>
    requires { place < length bytes.now }
    ensures ok { IfOk result (λ found. StandsAt T.form bytes.now place found.0 found.1) }
    ensures err { IfErr result (IsFaultAt T.form bytes.now place) }
{
    let mark = mark_at(bytes, place)?;
    let begin = place + 1;
    let size = T::size(mark);
    if bytes.len() - begin < size {
        return Err(MixedFault::Cut(place));
    }
    let end = begin + size;
    Ok((T::held(mark, &bytes[begin..end]), end))
}

/// The list whose bytes these are.
pub(crate) fn decode<T: Listed>(alloc: Global, bytes: &[u8]) -> Result<MixedList<T>, MixedFault>
    ensures reading { IsReading T.form bytes.now result }
    ensures only { IsOnlyReading T.form bytes.now result }
{
    let mut items = Vec::new(alloc);
    let mut place = 0;
    'entries: while place < bytes.len() {
        let (item, end) = entry_at::<T>(bytes, place)?;
        if items.push(item).is_err() {
            return Err(MixedFault::NoMemory);
        }
        place = end;
    }
    Ok(MixedList { items })
}
