mod generated;

use crate::{MemorySink, MemorySource, Status, Word, ring_main, shared_main};
use partner_serving::NoGate;
use std::alloc::{AllocError, Global};
use std::test::Fail;
use uring_base::{Buf, Nums};
use uring_partner::MemoryPartner;

const HELLO: &str = "file 3 68656c6c6f\nread 3 0 5\n";

const HELLO_REPORT: &str = "out 0 5 68656c6c6f\nturn 1\ntake 0\npost 0 5\nend\n";

const QUIET: &str = "nop quiet link\nnop\n";

const QUIET_REPORT: &str =
    "out 0 quiet -\nout 1 0 -\nturn 1\ntake 0\nquiet 0\nturn 1\ntake 1\npost 1 0\nend\n";

/// Which read, which write and which enter of the partner fails, counted from 1.
#[derive(Clone, Copy, Default)]
struct Fails {
    read: Option<u64>,
    write: Option<u64>,
    enter: Option<u64>,
}

/// A list of at most one number.
fn nums(alloc: Global, one: Option<u64>) -> Result<Nums, AllocError> {
    let mut list = Nums::new(alloc);
    if let Some(one) = one {
        list.push(alloc, one)?;
    }
    Ok(list)
}

/// The words of a command line, one space between two.
fn words_of(alloc: Global, line: &str) -> Result<Vec<Word>, AllocError> {
    let mut words: Vec<Word> = Vec::new(alloc);
    for word in line.split(' ').filter(|word| !word.is_empty()) {
        words.push(Buf::from_slice(alloc, word.as_bytes())?)?;
    }
    Ok(words)
}

/// The status of a command on a script, and what it wrote, four bytes a write.
fn called(alloc: Global, line: &str, script: &str, fails: &Fails) -> Result<(Status, Buf), Fail> {
    let words = words_of(alloc, line)?;
    let script = Buf::from_slice(alloc, script.as_bytes())?;
    let mut input = MemorySource::new(script, nums(alloc, fails.read)?);
    let mut out = MemorySink::new(alloc, 4, nums(alloc, fails.write)?);
    let mut partner = MemoryPartner::new(alloc);
    if let Some(enter) = fails.enter {
        partner.fail_enter(alloc, enter.max(1))?;
    }
    let status = ring_main(alloc, &words, &mut input, &mut out, &mut partner);
    Ok((status, Buf::from_slice(alloc, out.bytes())?))
}

/// Each call that can find no memory answers otherwise where there is memory. A turn that takes a
/// job and posts nothing isn't idle.
#[test]
fn each_call(rt: HostRuntime) -> Result<(), Fail> {
    for (line, script, report) in [
        ("run", HELLO, HELLO_REPORT),
        ("run --sq 1 --idle 1", QUIET, QUIET_REPORT),
        ("std", HELLO, HELLO_REPORT),
    ] {
        let (status, text) = called(rt.alloc(), line, script, &Fails::default())?;
        assert_eq!(rt; status, Status::Done, "{line}");
        assert_eq!(rt; text.as_slice(), report.as_bytes(), "{line}");
    }
    Ok(())
}

/// A stream or a partner that fails in the middle ends the call, and what was written before stays.
#[test]
fn failures(rt: HostRuntime) -> Result<(), Fail> {
    for (fails, wanted, written) in [
        (
            Fails {
                read: Some(2),
                ..Fails::default()
            },
            Status::ReadFault,
            "",
        ),
        (
            Fails {
                write: Some(2),
                ..Fails::default()
            },
            Status::WriteFault,
            "out ",
        ),
        (
            Fails {
                enter: Some(1),
                ..Fails::default()
            },
            Status::PartnerFault,
            "",
        ),
    ] {
        let (status, text) = called(rt.alloc(), "run", HELLO, &fails)?;
        assert_eq!(rt; status, wanted);
        assert_eq!(rt; text.as_slice(), written.as_bytes());
    }
    Ok(())
}

/// Words that are no command, sizes that no rings have, and scripts and jobs that are refused.
#[test]
fn refusals(rt: HostRuntime) -> Result<(), Fail> {
    for (line, script, wanted) in [
        ("", HELLO, Status::Usage),
        ("gen 1", HELLO, Status::Usage),
        ("runs", HELLO, Status::Usage),
        ("run run", HELLO, Status::Usage),
        ("std run", HELLO, Status::Usage),
        ("std --idle 0", HELLO, Status::Usage),
        ("run --sq", HELLO, Status::Usage),
        ("run --sq 08", HELLO, Status::Usage),
        ("run --sq +8", HELLO, Status::Usage),
        ("run --sq 4294967296", HELLO, Status::Usage),
        ("run --sq 8 --sq 8", HELLO, Status::Usage),
        ("run --sq 8 --cq", HELLO, Status::Usage),
        ("run --idle 0", HELLO, Status::Usage),
        ("run --size 8", HELLO, Status::Usage),
        ("--sq 8", HELLO, Status::Usage),
        ("run", "file 1 41\nread 1 0", Status::Script(2)),
        ("run", "file 1 00\nfile 1 01\n", Status::Script(2)),
        ("run", "read 1 0 16777217\n", Status::Script(1)),
        ("run --sq 0", HELLO, Status::BadSize),
        ("run --sq 8 --cq 4", HELLO, Status::BadSize),
        ("run --cq 0", HELLO, Status::BadSize),
        ("run --sq 32769", HELLO, Status::BadSize),
        ("run", "read 1 9223372036854775807 1\n", Status::BadJob(0)),
        (
            "run",
            "nop\nwrite 1 18446744073709551615 00\n",
            Status::BadJob(1),
        ),
        ("run", "nop quiet link", Status::BadJob(0)),
        ("run", "nop\nfsync 1 drain quiet hard\n", Status::BadJob(1)),
        ("run", "nop quiet", Status::Script(1)),
        ("run", "read 1 0 1 quiet link\nnop", Status::Script(1)),
    ] {
        let (status, text) = called(rt.alloc(), line, script, &Fails::default())?;
        assert_eq!(rt; status, wanted, "{line}");
        assert!(rt; text.is_empty(), "{line}");
    }
    Ok(())
}

/// The statuses of a command whose partner has a thread of its own, what each wrote, and whether the
/// partner comes back.
#[test]
fn on_two_threads(rt: HostRuntime) -> Result<(), Fail> {
    let alloc = rt.alloc();
    for (line, script, write, enter, wanted, written) in [
        ("shared", HELLO, None, None, Status::Done, HELLO_REPORT),
        (
            "shared --sq 1",
            QUIET,
            None,
            None,
            Status::Done,
            QUIET_REPORT,
        ),
        ("shared --idle 16", HELLO, None, None, Status::Usage, ""),
        ("run", HELLO, None, None, Status::Usage, ""),
        ("shared --sq 0", HELLO, None, None, Status::BadSize, ""),
        ("shared", "nop\nno\n", None, None, Status::Script(2), ""),
        (
            "shared",
            "nop quiet link\n",
            None,
            None,
            Status::BadJob(0),
            "",
        ),
        ("shared", HELLO, None, Some(1), Status::PartnerFault, ""),
        ("shared", HELLO, Some(2), None, Status::WriteFault, "out "),
    ] {
        let words = words_of(alloc, line)?;
        let bytes = Buf::from_slice(alloc, script.as_bytes())?;
        let mut input = MemorySource::new(bytes, Nums::new(alloc));
        let mut out = MemorySink::new(alloc, 4, nums(alloc, write)?);
        let mut partner = MemoryPartner::new(alloc);
        if let Some(enter) = enter {
            partner.fail_enter(alloc, enter.max(1))?;
        }
        let (status, back) = shared_main(
            &rt, alloc, &words, &mut input, &mut out, partner, &NoGate,
        );
        assert_eq!(rt; status, wanted, "{line}");
        assert_eq!(rt; out.bytes(), written.as_bytes(), "{line}");
        assert!(rt; back.is_some(), "{line}");
    }
    Ok(())
}
