ghost use Rattle.std.specs.Prelude.{None};

use std::alloc::{AllocError, Global};
use std::io::{self, ErrorKind, Read};
use std::test::Fail;
use uring_base::{Buf, Nums};
use uring_streams::{
    Failed, INPUT_LIMIT, InputFault, MemorySink, MemorySource, Sink, Source, StdSink, StdSource,
    read_all, write_all,
};

/// The list of this one number.
fn only(alloc: Global, number: u64) -> Result<Nums, AllocError> {
    let mut list = Nums::new(alloc);
    list.push(alloc, number)?;
    Ok(list)
}

/// A reader that gives two bytes once, and then fails.
#[derive(Drop)]
struct Broken {
    begun: bool,
}

impl Read for Broken {
    ghost remaining = { λ _. None };

    fn read(&mut self, buf: &mut [u8]) -> io::Result<usize> {
        if self.begun || buf.len() < 2 {
            return Err(io::Error::from(ErrorKind::Other));
        }
        self.begun = true;
        buf[0] = b'h';
        buf[1] = b'i';
        Ok(2)
    }
}

/// Reads "abc" from a source whose call of this number fails.
fn read_abc(alloc: Global, failing: u64) -> Result<Buf, InputFault> {
    let bytes = Buf::from_slice(alloc, b"abc")?;
    let failing = only(alloc, failing)?;
    read_all(alloc, &mut MemorySource::new(bytes, failing))
}

/// Writes "abc" to a sink that takes two bytes a call, has room for these, and fails at no call.
fn write_abc(alloc: Global) -> Result<MemorySink, AllocError> {
    let mut sink = MemorySink::with_room(alloc, 3, 2, Nums::new(alloc))?;
    let _written = write_all(&mut sink, b"abc");
    Ok(sink)
}

/// Each call that can find no memory answers otherwise where there is memory.
#[test]
fn each_call(rt: HostRuntime) -> Result<(), Fail> {
    let alloc = rt.alloc();
    assert!(rt; matches!(read_abc(alloc, 2), Err(InputFault::ReadFault)));
    assert_eq!(rt; read_abc(alloc, 3)?.as_slice(), b"abc".as_slice());
    assert_eq!(rt; write_abc(alloc)?.bytes(), b"abc".as_slice());
    Ok(())
}

/// The call of a sink that is listed fails, and the next goes on.
#[test]
fn second_write_fails(rt: HostRuntime) -> Result<(), Fail> {
    let alloc = rt.alloc();
    let mut sink = MemorySink::new(alloc, 2, only(alloc, 2)?);
    assert_eq!(rt; write_all(&mut sink, b"abc"), Err(Failed));
    assert_eq!(rt; write_all(&mut sink, b"c"), Ok(()));
    assert_eq!(rt; sink.bytes(), b"abc".as_slice());
    Ok(())
}

/// An input of exactly the limit is read, and one of a byte more isn't.
#[test]
fn longest_input(rt: HostRuntime) -> Result<(), Fail> {
    let alloc = rt.alloc();
    for (len, fits) in [(INPUT_LIMIT, true), (INPUT_LIMIT + 1, false)] {
        let mut source = MemorySource::new(Buf::zeroed(alloc, len)?, Nums::new(alloc));
        match read_all(alloc, &mut source) {
            Ok(input) => assert!(rt; fits && input.len() == INPUT_LIMIT),
            Err(fault) => assert!(rt; !fits && fault == InputFault::TooLong),
        }
    }
    Ok(())
}

/// Readers and writers of std: one that fails after two bytes, and one that is full after three.
#[test]
fn over_std(rt: HostRuntime) -> Result<(), Fail> {
    let alloc = rt.alloc();
    let input = read_all(alloc, &mut StdSource::new(b"abc".as_slice()))?;
    assert_eq!(rt; input.as_slice(), b"abc".as_slice());
    let mut broken = StdSource::new(Broken { begun: false });
    let mut room = [0; 4];
    assert_eq!(rt; broken.read(&mut room), Ok(2));
    assert_eq!(rt; room, *b"hi\0\0");
    assert_eq!(rt; broken.read(&mut room), Err(Failed));
    let mut three = [0; 3];
    let mut full = StdSink::new(three.as_mut_slice());
    assert_eq!(rt; write_all(&mut full, b"hello"), Err(Failed));
    assert_eq!(rt; three, *b"hel");
    Ok(())
}

/// What each fault is called.
#[test]
fn faults(rt: HostRuntime) -> Result<(), Fail> {
    let alloc = rt.alloc();
    for (fault, text) in [
        (InputFault::ReadFault, "read fault"),
        (InputFault::TooLong, "too long"),
        (InputFault::NoMemory, "no memory"),
    ] {
        assert_eq!(rt; fault.to_string(alloc)?.as_str(), text);
    }
    assert_eq!(rt; Failed.to_string(alloc)?.as_str(), "stream failed");
    Ok(())
}
