//! Entries of a ring of buffers.

ghost use Rattle.std.specs.Prelude.{◌≡◌};
ghost use Rattle.uring_types.specs.New.{new_buf_ring_entry};

/// One buffer of a registered ring of buffers: its address, which is a number here, its length in
/// bytes, and the number that a completion names it by.
#[derive(Drop)]
pub struct BufRingEntry {
    addr: u64,
    len: u32,
    bid: u16,
}

impl BufRingEntry {
    /// All 0.
    pub fn new() -> BufRingEntry
        ensures { result ≡ new_buf_ring_entry }
    {
        BufRingEntry {
            addr: 0,
            len: 0,
            bid: 0,
        }
    }

    /// Sets the address alone.
    pub fn set_addr(&mut self, addr: u64)
        ensures { self.new ≡ record self.old { addr = addr } }
    {
        self.addr = addr;
    }

    /// The address.
    pub fn addr(&self) -> u64
        ensures { result ≡ self.now.addr }
    {
        self.addr
    }

    /// Sets the length alone.
    pub fn set_len(&mut self, len: u32)
        ensures { self.new ≡ record self.old { len = len } }
    {
        self.len = len;
    }

    /// The length in bytes.
    pub fn len(&self) -> u32
        ensures { result ≡ self.now.len }
    {
        self.len
    }

    /// Sets the buffer's number alone.
    pub fn set_bid(&mut self, bid: u16)
        ensures { self.new ≡ record self.old { bid = bid } }
    {
        self.bid = bid;
    }

    /// The buffer's number.
    pub fn bid(&self) -> u16
        ensures { result ≡ self.now.bid }
    {
        self.bid
    }
}
