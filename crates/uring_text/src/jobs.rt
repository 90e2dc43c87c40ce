//! The fields of a job line: a reader for each kind of job, which leaves the marks.

ghost use Rattle.std.specs.Prelude.{◌≡◌, map, option_map, IfOk};
ghost use Rattle.uring_text.specs.Script.{read_fields, write_fields, fsync_fields, truncate_fields, cancel_fields, job_fields};

use crate::fields::{bytes_of, number_to, u32_of, u64_of};
use crate::limits::MAX_READ_BYTES;
use std::alloc::{AllocError, Global};
use uring_base::Buf;
use uring_model::JobKind;

/// `read N OFFSET LEN`
#[tactic(auto, unfolding(crate::specs::Script::read_fields))]
fn read_fields<'a>(
    alloc: Global,
    fields: &'a [&'a [u8]],
) -> Result<Option<(JobKind, &'a [&'a [u8]])>, AllocError>
    ensures { IfOk result (λ said. option_map (λ x. (x.0, map (λ y. y.now) x.1.now)) said ≡ read_fields (map (λ x. x.now) fields.now)) }
{
    let [file, offset, len, marks @ ..] = fields else {
        return Ok(None);
    };
    let Some(file) = u32_of(file) else {
        return Ok(None);
    };
    let Some(offset) = u64_of(offset) else {
        return Ok(None);
    };
    let Some(len) = number_to(len, MAX_READ_BYTES) else {
        return Ok(None);
    };
    let buf = Buf::zeroed(alloc, len as usize)?;
    Ok(Some((JobKind::Read { file, offset, buf }, marks)))
}

/// `write N OFFSET HEX`
#[tactic(auto, unfolding(crate::specs::Script::write_fields))]
fn write_fields<'a>(
    alloc: Global,
    fields: &'a [&'a [u8]],
) -> Result<Option<(JobKind, &'a [&'a [u8]])>, AllocError>
    ensures { IfOk result (λ said. option_map (λ x. (x.0, map (λ y. y.now) x.1.now)) said ≡ write_fields (map (λ x. x.now) fields.now)) }
{
    let [file, offset, hex, marks @ ..] = fields else {
        return Ok(None);
    };
    let Some(file) = u32_of(file) else {
        return Ok(None);
    };
    let Some(offset) = u64_of(offset) else {
        return Ok(None);
    };
    let Some(buf) = bytes_of(alloc, hex)? else {
        return Ok(None);
    };
    Ok(Some((JobKind::Write { file, offset, buf }, marks)))
}

/// `fsync N`
#[tactic(auto, unfolding(crate::specs::Script::fsync_fields))]
fn fsync_fields<'a>(fields: &'a [&'a [u8]]) -> Option<(JobKind, &'a [&'a [u8]])>
    ensures { option_map (λ x. (x.0, map (λ y. y.now) x.1.now)) result ≡ fsync_fields (map (λ x. x.now) fields.now) }
{
    let [file, marks @ ..] = fields else {
        return None;
    };
    let file = u32_of(file)?;
    Some((JobKind::Fsync { file }, marks))
}

/// `truncate N LEN`
#[tactic(auto, unfolding(crate::specs::Script::truncate_fields))]
fn truncate_fields<'a>(fields: &'a [&'a [u8]]) -> Option<(JobKind, &'a [&'a [u8]])>
    ensures { option_map (λ x. (x.0, map (λ y. y.now) x.1.now)) result ≡ truncate_fields (map (λ x. x.now) fields.now) }
{
    let [file, len, marks @ ..] = fields else {
        return None;
    };
    let file = u32_of(file)?;
    let len = u64_of(len)?;
    Some((JobKind::Ftruncate { file, len }, marks))
}

/// `cancel J`
#[tactic(auto, unfolding(crate::specs::Script::cancel_fields))]
fn cancel_fields<'a>(fields: &'a [&'a [u8]]) -> Option<(JobKind, &'a [&'a [u8]])>
    ensures { option_map (λ x. (x.0, map (λ y. y.now) x.1.now)) result ≡ cancel_fields (map (λ x. x.now) fields.now) }
{
    let [job, marks @ ..] = fields else {
        return None;
    };
    let job = u64_of(job)?;
    Some((JobKind::Cancel { job }, marks))
}

/// What a job line says of the kind of its job, and the marks after that.
#[tactic(auto, unfolding(crate::specs::Script::job_fields))]
pub fn job_fields<'a>(
    alloc: Global,
    word: &[u8],
    fields: &'a [&'a [u8]],
) -> Result<Option<(JobKind, &'a [&'a [u8]])>, AllocError>
    ensures { IfOk result (λ said. option_map (λ x. (x.0, map (λ y. y.now) x.1.now)) said ≡ job_fields word.now (map (λ x. x.now) fields.now)) }
{
    if word == b"nop".as_slice() {
        Ok(Some((JobKind::Nop, fields)))
    } else if word == b"read".as_slice() {
        read_fields(alloc, fields)
    } else if word == b"write".as_slice() {
        write_fields(alloc, fields)
    } else if word == b"fsync".as_slice() {
        Ok(fsync_fields(fields))
    } else if word == b"truncate".as_slice() {
        Ok(truncate_fields(fields))
    } else if word == b"cancel".as_slice() {
        Ok(cancel_fields(fields))
    } else {
        Ok(None)
    }
}
