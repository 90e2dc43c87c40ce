//! Reading the script.

ghost use Rattle.std.specs.Prelude.{MatchResult};
ghost use Rattle.uring_cli.specs.Input.{GaveScript, GaveNone};
ghost use Rattle.uring_text.specs.Script.{told_by};

use std::alloc::Global;
use uring_streams::{InputFault, Source, read_all};
use uring_text::{Script, ScriptFault, Status, read_script};

/// The script that the source has left.
pub fn read_input<I: Source>(alloc: Global, input: &mut I) -> Result<Script, Status>
    ensures { MatchResult result
        (λ script. GaveScript (I.left input.old) (I.left input.new) (I.taken input.old) (I.taken input.new) (told_by script))
        (λ status. GaveNone (I.left input.old) (I.left input.new) (I.taken input.old) (I.taken input.new) (I.faults input.old) (I.faults input.new) status) }
{
    let bytes = match read_all(alloc, input) {
        Ok(bytes) => bytes,
        Err(InputFault::ReadFault) => return Err(Status::ReadFault),
        Err(InputFault::TooLong) => return Err(Status::TooLong),
        Err(InputFault::NoMemory) => return Err(Status::NoMemory),
    };
    match read_script(alloc, bytes.as_slice()) {
        Ok(script) => Ok(script),
        Err(ScriptFault::Line(line)) => Err(Status::Script(line)),
        Err(ScriptFault::NoMemory) => Err(Status::NoMemory),
    }
}
