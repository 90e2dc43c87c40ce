use std::alloc::{AllocError, Global};
use std::test::Fail;
use uring_base::{Buf, Event};
use uring_model::{Outcome, Report};
use uring_text::report_text;

/// A result, the bytes of the buffer, if there is one, and whether it is quiet.
type End<'a> = (i32, Option<&'a [u8]>, bool);

/// The text of the report with these outcomes and events.
fn reported(alloc: Global, ends: &[End<'_>], journal: &[Event]) -> Result<Buf, AllocError> {
    let mut outcomes = Vec::new(alloc);
    for (number, bytes, quiet) in ends {
        let buf = match bytes {
            Some(bytes) => Some(Buf::from_slice(alloc, bytes)?),
            None => None,
        };
        outcomes.push(Outcome {
            result: *number,
            buf,
            quiet: *quiet,
        })?;
    }
    let report = Report {
        outcomes,
        journal: journal.to_vec(alloc)?,
    };
    report_text(alloc, &report).map_err(|_| AllocError)
}

/// A post of a job's number and result, its last.
fn post(job: u64, number: i32) -> Event {
    Event::Post {
        job,
        result: number,
        fin: true,
    }
}

/// Reports of no job, of one, and of two that settle in one turn.
#[test]
fn reports(rt: HostRuntime) -> Result<(), Fail> {
    let alloc = rt.alloc();
    assert_eq!(rt; reported(alloc, &[], &[])?.as_slice(), b"end\n".as_slice());
    for (number, bytes, want) in [
        (
            5,
            Some(b"hello".as_slice()),
            b"out 0 5 68656c6c6f\nturn 1\ntake 0\npost 0 5\nend\n".as_slice(),
        ),
        (
            -9,
            Some(b"\0".as_slice()),
            b"out 0 -9 00\nturn 1\ntake 0\npost 0 -9\nend\n".as_slice(),
        ),
        (
            0,
            None,
            b"out 0 0 -\nturn 1\ntake 0\npost 0 0\nend\n".as_slice(),
        ),
    ] {
        let journal = [Event::Turn(1), Event::Take(0), post(0, number)];
        assert_eq!(rt;
            reported(alloc, &[(number, bytes, false)], &journal)?.as_slice(),
            want
        );
    }
    let ends = [
        (1, Some(b"\xab\0".as_slice()), false),
        (-125, Some(b"\xcc".as_slice()), false),
    ];
    let journal = [
        Event::Turn(2),
        Event::Take(0),
        Event::Take(1),
        post(0, 1),
        post(1, -125),
    ];
    assert_eq!(rt;
        reported(alloc, &ends, &journal)?.as_slice(),
        b"out 0 1 ab00\nout 1 -125 cc\nturn 2\ntake 0\ntake 1\npost 0 1\npost 1 -125\nend\n".as_slice()
    );
    Ok(())
}

/// No bytes and no buffer are a dash, and a completion that isn't the last is `more`.
#[test]
fn dashes_and_more(rt: HostRuntime) -> Result<(), Fail> {
    let alloc = rt.alloc();
    let journal = [
        Event::Post {
            job: u64::MAX,
            result: 7,
            fin: false,
        },
        Event::Post {
            job: 0,
            result: -1,
            fin: false,
        },
    ];
    assert_eq!(rt;
        reported(
            alloc,
            &[(0, None, false), (i32::MIN, Some(&[]), false)],
            &journal
        )?
        .as_slice(),
        b"out 0 0 -\nout 1 -2147483648 -\nmore 18446744073709551615 7\nmore 0 -1\nend\n".as_slice()
    );
    Ok(())
}

/// A quiet outcome has no result, and a quiet event says whose it is.
#[test]
fn quiet_ends(rt: HostRuntime) -> Result<(), Fail> {
    let alloc = rt.alloc();
    let journal = [Event::Quiet(0), Event::Quiet(u64::MAX), post(1, 7)];
    assert_eq!(rt;
        reported(alloc, &[(3, None, true), (7, None, false)], &journal)?.as_slice(),
        b"out 0 quiet -\nout 1 7 -\nquiet 0\nquiet 18446744073709551615\npost 1 7\nend\n".as_slice()
    );
    Ok(())
}
