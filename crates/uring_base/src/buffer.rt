//! Owned buffers and their loans.

ghost use Rattle.std.specs.Prelude.{◌≡◌, ◌-◌, ◌↔◌, ◌++◌, IfOk, OnOk, OnErr, IsTrue, [], ℕ, List, length, replicate, take};
ghost use Rattle.std.specs.Borrow.{sem};

use std::alloc::{AllocError, Global};
use std::marker::Model;

/// An owned buffer, seen as the list of its bytes.
#[derive(Drop)]
pub struct Buf {
    bytes: Vec<u8>,
}

impl Model for Buf {
    ghost use Rattle.std.specs.Prelude.{ℕ, List};

    ghost Value = { List ℕ };

    ghost view = { λ buf. buf.bytes.items };
}

impl Buf {
    ghost use Rattle.uring_base.specs.Lending.{LendsBytes};

    /// An empty buffer, which takes no memory.
    pub fn new(alloc: Global) -> Buf
        ensures { result ≡ [] }
    {
        Buf {
            bytes: Vec::new(alloc),
        }
    }

    /// A copy of `bytes`.
    pub fn from_slice(alloc: Global, bytes: &[u8]) -> Result<Buf, AllocError>
        ensures { IfOk result (λ buf. buf ≡ bytes.now) }
    {
        Ok(Buf {
            bytes: bytes.to_vec(alloc)?,
        })
    }

    /// A buffer of `len` zeros.
    pub fn zeroed(alloc: Global, len: usize) -> Result<Buf, AllocError>
        ensures { IfOk result (λ buf. buf ≡ replicate len 0) }
    {
        Ok(Buf {
            bytes: vec![in alloc; 0u8; len]?,
        })
    }

    /// A copy of the buffer.
    pub fn try_clone(&self, alloc: Global) -> Result<Buf, AllocError>
        ensures { IfOk result (λ buf. buf ≡ self.now) }
    {
        Buf::from_slice(alloc, self.as_slice())
    }

    /// Cuts the buffer to `len` bytes, or fills it up with zeros. It is as it was where there is no
    /// memory.
    pub fn resize(&mut self, _alloc: Global, len: usize) -> Result<(), AllocError>
        ensures ok { OnOk result (self.new ≡ take len self.old ++ replicate (len - length self.old) 0) }
        ensures err { OnErr result (self.new ≡ self.old) }
    {
        self.bytes.resize(len, 0)
    }

    /// The number of bytes.
    pub fn len(&self) -> usize
        ensures { result ≡ length self.now }
    {
        self.bytes.len()
    }

    /// Whether there are no bytes.
    pub fn is_empty(&self) -> bool
        ensures { IsTrue result ↔ (self.now ≡ []) }
    {
        self.bytes.is_empty()
    }

    /// The bytes.
    pub fn as_slice(&self) -> &[u8]
        ensures { result.now ≡ self.now }
    {
        self.bytes.as_slice()
    }

    /// The bytes, to be written in place.
    pub fn as_mut_slice(&mut self) -> &mut [u8]
        ensures* writes_back { sem 𝓛 (LendsBytes self.entry result) }
        ensures value { result.now ≡ self.old }
    {
        self.bytes.as_mut_slice()
    }
}

impl From<Vec<u8>> for Buf {
    ghost from_gives = { λ bytes buf. buf ≡ bytes.items };

    fn from(bytes: Vec<u8>) -> Buf {
        Buf { bytes }
    }
}

/// An owned buffer that is lent under a number. An operation acts on the bytes of `buf` from
/// place `from` on, which is at most the buffer's length; behind the end there are none.
#[derive(Drop)]
pub struct Loan {
    pub number: u64,
    pub from: u32,
    pub buf: Buf,
}

impl Loan {
    /// A copy of the loan.
    pub fn try_clone(&self, alloc: Global) -> Result<Loan, AllocError>
        ensures { IfOk result (λ loan. loan ≡ self.now) }
    {
        Ok(Loan {
            number: self.number,
            from: self.from,
            buf: self.buf.try_clone(alloc)?,
        })
    }
}
