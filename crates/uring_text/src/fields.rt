//! The fields of a line, and what one of them may spell.

ghost use Rattle.std.specs.Prelude.{◌≡◌, ℕ, ◌∷◌, [], List, ◌==◌, MatchOption, IfSome, IfOk, map, length, position, ◌<◌, ◌^◌, ◌≤◌, ◌+◌};
ghost use Rattle.std.specs.List.{slice_split};
ghost use Rattle.uring_text.specs.Lines.{lines_of, fields_of, number_below, bytes_spelled};

use hex::FromHexError;
use std::alloc::{AllocError, Global};
use uring_base::Buf;

/// Where the first `at` stands.
fn find_byte(bytes: &[u8], at: u8) -> Option<usize>
    ensures { result ≡ position (λ b. b == at) bytes.now }
{
    bytes.iter().position(|b| *b == at)
}

/// What stands before the first `at`, and what follows it.
pub fn cut(bytes: &[u8], at: u8) -> Option<(&[u8], &[u8])>
    ensures parts { MatchOption result (slice_split (λ b. b == at) bytes.now ≡ bytes.now ∷ [])
        (λ x. slice_split (λ b. b == at) bytes.now ≡ x.0.now ∷ slice_split (λ b. b == at) x.1.now) }
    ensures shorter { IfSome result (λ x. length x.1.now < length bytes.now) }
{
    let place = find_byte(bytes, at)?;
    Some((&bytes[..place], &bytes[place + 1..]))
}

/// The fields of a line.
pub fn fields_of(alloc: Global, line: &[u8]) -> Result<Vec<&[u8]>, AllocError>
    ensures { IfOk result (λ v. map (λ x. x.now) v.items ≡ fields_of line.now) }
{
    line.split(|b| *b == b' ').collect(alloc)
}

/// The number of 64 bits whose decimal text this is.
pub fn u64_of(text: &[u8]) -> Option<u64>
    ensures { result ≡ number_below (2 ^ 64) text.now }
{
    if text.is_empty() {
        return None;
    }
    if text[0] == b'+' {
        return None;
    }
    if text[0] == b'0' && text.len() > 1 {
        return None;
    }
    match str::from_utf8(text) {
        Ok(digits) => digits.parse::<u64>().ok(),
        Err(_) => None,
    }
}

/// The number whose decimal text this is, if it is at most `most`. The text has no sign, and no
/// zero in front unless it is `0`.
pub fn number_to(text: &[u8], most: u64) -> Option<u64>
    ensures value { result ≡ number_below (most + 1) text.now }
    ensures small { IfSome result (λ n. n ≤ most) }
{
    let value = u64_of(text)?;
    if value <= most { Some(value) } else { None }
}

/// The number of 32 bits whose decimal text this is.
pub fn u32_of(text: &[u8]) -> Option<u32>
    ensures { result ≡ number_below (2 ^ 32) text.now }
{
    let value = number_to(text, u32::MAX as u64)?;
    Some(value as u32)
}

/// The bytes that pairs of hex digits of either case stand for; none for a dash.
pub fn bytes_of(alloc: Global, text: &[u8]) -> Result<Option<Buf>, AllocError>
    ensures { IfOk result (λ bytes. bytes ≡ bytes_spelled text.now) }
{
    if text.is_empty() {
        return Ok(None);
    }
    if text == b"-".as_slice() {
        return Ok(Some(Buf::new(alloc)));
    }
    match hex::decode(alloc, text) {
        Ok(bytes) => Ok(Some(Buf::from(bytes))),
        Err(FromHexError::OutOfMemory) => Err(AllocError),
        Err(_) => Ok(None),
    }
}
