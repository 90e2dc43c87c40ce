use std::alloc::{AllocError, Global};
use std::fmt::Write;
use std::test::Fail;
use uring_model::{Job, JobKind, Link};
use uring_text::{Script, ScriptFault, read_script};

/// A job's kind, with all bytes of its buffer, and its marks.
fn put_job(alloc: Global, out: &mut String, job: &Job) -> Result<(), AllocError> {
    match &job.kind {
        JobKind::Nop => out.push_str("nop")?,
        JobKind::Read { file, offset, buf } => {
            let hex = hex::encode(alloc, buf.as_slice())?;
            write!(out, "read {file} {offset} [{hex}]")?;
        }
        JobKind::Write { file, offset, buf } => {
            let hex = hex::encode(alloc, buf.as_slice())?;
            write!(out, "write {file} {offset} [{hex}]")?;
        }
        JobKind::Fsync { file } => write!(out, "fsync {file}")?,
        JobKind::Ftruncate { file, len } => write!(out, "cut {file} to {len}")?,
        JobKind::Cancel { job } => write!(out, "cancel {job}")?,
    }
    if job.drain {
        out.push_str(" drained")?;
    }
    if job.quiet {
        out.push_str(" quiet")?;
    }
    match job.link {
        Link::Free => out.push_str(";"),
        Link::Soft => out.push_str(" soft;"),
        Link::Hard => out.push_str(" hard;"),
    }
}

/// The files, choices and jobs of a script.
fn shown(alloc: Global, script: &Script) -> Result<String, AllocError> {
    let mut out = String::new(alloc);
    for seed in &script.files {
        let number = seed.number;
        let hex = hex::encode(alloc, seed.bytes.as_slice())?;
        write!(out, "file {number} [{hex}];")?;
    }
    for choice in &script.choices {
        write!(out, "choose {choice};")?;
    }
    for job in &script.jobs {
        put_job(alloc, &mut out, job)?;
    }
    Ok(out)
}

/// What a script tells, or its fault line.
fn read(alloc: Global, text: &str) -> Result<String, AllocError> {
    match read_script(alloc, text.as_bytes()) {
        Ok(script) => shown(alloc, &script),
        Err(ScriptFault::Line(line)) => format!(in alloc; "line {line}"),
        Err(ScriptFault::NoMemory) => Err(AllocError),
    }
}

/// Each line of the grammar, with its marks.
#[test]
fn scripts(rt: HostRuntime) -> Result<(), Fail> {
    let alloc = rt.alloc();
    for (text, want) in [
        ("", ""),
        ("\n# a comment\r\n#\n\nnop\n", "nop;"),
        ("nop\nfile 2 00\nnop", "file 2 [00];nop;nop;"),
        (
            "file 3 68656c6c6f\nread 3 0 5",
            "file 3 [68656c6c6f];read 3 0 [0000000000];",
        ),
        (
            "write 4294967295 18446744073709551615 aBFf",
            "write 4294967295 18446744073709551615 [abff];",
        ),
        ("read 0 0 0\nwrite 1 0 -", "read 0 0 [];write 1 0 [];"),
        (
            "choose 2\nfile 3 ab\nread 3 0 1\ncancel 0",
            "file 3 [ab];choose 2;read 3 0 [00];cancel 0;",
        ),
        ("fsync 0\nfsync 4294967295", "fsync 0;fsync 4294967295;"),
        (
            "truncate 4294967295 18446744073709551615\ncancel 18446744073709551615",
            "cut 4294967295 to 18446744073709551615;cancel 18446744073709551615;",
        ),
        ("nop link\nnop drain hard", "nop soft;nop drained hard;"),
        (
            "write 1 0 - drain link\nfsync 1 drain",
            "write 1 0 [] drained soft;fsync 1 drained;",
        ),
        (
            "nop quiet link\nfsync 1 drain quiet hard",
            "nop quiet soft;fsync 1 drained quiet hard;",
        ),
        (
            "truncate 1 2 quiet hard\ncancel 0 drain quiet link",
            "cut 1 to 2 quiet hard;cancel 0 drained quiet soft;",
        ),
    ] {
        assert_eq!(rt; read(alloc, text)?.as_str(), want, "at {text}");
    }
    Ok(())
}

/// Texts that are no script, and the first line that no script begins with.
#[test]
fn fault_lines(rt: HostRuntime) -> Result<(), Fail> {
    let alloc = rt.alloc();
    for (text, want) in [
        ("file 1 41\nread 1 0", "line 2"),
        ("file 1 00\nfile 1 01", "line 2"),
        ("read 1 0 16777217", "line 1"),
        ("nop\n\n# two\nread +1 0 1\nnop", "line 4"),
        ("read 01 0 1", "line 1"),
        ("nop\nread  1 0 1", "line 2"),
        ("nop ", "line 1"),
        ("nop\r\nnop", "line 1"),
        ("file 1 0", "line 1"),
        ("file 1 --", "line 1"),
        ("file 4294967296 00", "line 1"),
        ("read 1 18446744073709551616 0", "line 1"),
        ("\u{feff}nop", "line 1"),
        ("nop\nchoose 1 drain", "line 2"),
        ("nop\nnop link drain", "line 2"),
        ("nop\nftruncate 1 2", "line 2"),
        ("nop quiet", "line 1"),
        ("nop\nnop drain quiet", "line 2"),
        ("read 1 0 1 quiet link", "line 1"),
        ("write 1 0 00 quiet hard", "line 1"),
        ("nop quiet drain link", "line 1"),
        ("nop link quiet", "line 1"),
        ("nop quiet quiet link", "line 1"),
        ("choose 1 quiet", "line 1"),
    ] {
        assert_eq!(rt; read(alloc, text)?.as_str(), want, "at {text}");
    }
    Ok(())
}
