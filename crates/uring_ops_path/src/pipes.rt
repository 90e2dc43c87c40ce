//! Pipes, and moves and copies through them.

ghost use Rattle.std.specs.Prelude.{◌≡◌};
ghost use Rattle.uring_base.specs.Targets.{number_of};
ghost use Rattle.uring_ops_path.specs.Sources.{source_mark};

use crate::marks::FD_IN_FIXED;
use uring_base::opcodes;
use uring_base::squeue::Entry;
use uring_base::types::{Target, UseTarget};
use uring_types::DestinationSlot;

/// Moves bytes from one file to another, one of which is a pipe, as `splice` does. Its result is a
/// count of bytes, or an errno below 0. Each field is what `new` was given, or what the setter of
/// its name was.
#[derive(Drop)]
pub struct Splice {
    pub fd_in: Target,
    pub off_in: i64,
    pub fd_out: Target,
    pub off_out: i64,
    pub len: u32,
    pub flags: u32,
}

impl Splice {
    ghost use Rattle.uring_ops_path.specs.Rows.{new_splice, splice_words};

    /// `IORING_OP_SPLICE` of `linux/io_uring.h`.
    pub const CODE: u8 = opcodes::SPLICE;

    /// A move of `len` bytes at most, from the place `off_in` of `fd_in` to the place `off_out` of
    /// `fd_out`. -1 is the place for a pipe, and a file's current position.
    pub fn new<T: UseTarget, U: UseTarget>(
        fd_in: T,
        off_in: i64,
        fd_out: U,
        off_out: i64,
        len: u32,
    ) -> Splice
        ensures { result ≡ new_splice (T.target_of fd_in) off_in (U.target_of fd_out) off_out len }
    {
        Splice {
            fd_in: fd_in.target(),
            off_in,
            fd_out: fd_out.target(),
            off_out,
            len,
            flags: 0,
        }
    }

    /// How the bytes are moved, `SPLICE_F_` bits of `fcntl.h`.
    pub fn flags(self, flags: u32) -> Splice
        ensures { result ≡ record self { flags = flags } }
    {
        Splice { flags, ..self }
    }

    /// The entry, on `fd_out`. A registered `fd_in` adds `SPLICE_F_FD_IN_FIXED` of
    /// `linux/io_uring.h` to the operation's flags.
    pub fn build(self) -> Entry
        ensures { result ≡ splice_words self }
    {
        Entry {
            off: self.off_out.cast_unsigned(),
            addr: self.off_in.cast_unsigned(),
            len: self.len,
            op: self.flags | source_mark(self.fd_in),
            idx: number_of(self.fd_in),
            ..Entry::blank(Splice::CODE)
        }
        .on(self.fd_out)
    }
}

/// Copies bytes from one pipe to another and leaves them in the first, as `tee` does. Its result is
/// a count of bytes, or an errno below 0. Each field is what `new` was given, or what the setter of
/// its name was.
#[derive(Drop)]
pub struct Tee {
    pub fd_in: Target,
    pub fd_out: Target,
    pub len: u32,
    pub flags: u32,
}

impl Tee {
    ghost use Rattle.uring_ops_path.specs.Rows.{new_tee, tee_words};

    /// `IORING_OP_TEE` of `linux/io_uring.h`.
    pub const CODE: u8 = opcodes::TEE;

    /// A copy of `len` bytes at most, from the pipe `fd_in` to the pipe `fd_out`.
    pub fn new<T: UseTarget, U: UseTarget>(fd_in: T, fd_out: U, len: u32) -> Tee
        ensures { result ≡ new_tee (T.target_of fd_in) (U.target_of fd_out) len }
    {
        Tee {
            fd_in: fd_in.target(),
            fd_out: fd_out.target(),
            len,
            flags: 0,
        }
    }

    /// How the bytes are copied, `SPLICE_F_` bits of `fcntl.h`.
    pub fn flags(self, flags: u32) -> Tee
        ensures { result ≡ record self { flags = flags } }
    {
        Tee { flags, ..self }
    }

    /// The entry, on `fd_out`. A registered `fd_in` adds `SPLICE_F_FD_IN_FIXED` of
    /// `linux/io_uring.h` to the operation's flags.
    pub fn build(self) -> Entry
        ensures { result ≡ tee_words self }
    {
        Entry {
            len: self.len,
            op: self.flags | source_mark(self.fd_in),
            idx: number_of(self.fd_in),
            ..Entry::blank(Tee::CODE)
        }
        .on(self.fd_out)
    }
}

/// Makes a pipe, as `pipe2` does. Its result is 0, or an errno below 0. Each field is what `new`
/// was given, or what the setter of its name was.
#[derive(Drop)]
pub struct Pipe {
    pub fds: u64,
    pub flags: u32,
    pub file_index: Option<DestinationSlot>,
}

impl Pipe {
    ghost use Rattle.uring_ops_path.specs.Rows.{new_pipe, pipe_words};

    /// `IORING_OP_PIPE` of `linux/io_uring.h`.
    pub const CODE: u8 = opcodes::PIPE;

    /// A pipe whose reading end and writing end, in this order, are told at the address `fds`.
    pub fn new(fds: u64) -> Pipe
        ensures { result ≡ new_pipe fds }
    {
        Pipe {
            fds,
            flags: 0,
            file_index: None,
        }
    }

    /// How the ends are opened, `O_` bits of `fcntl.h`.
    pub fn flags(self, flags: u32) -> Pipe
        ensures { result ≡ record self { flags = flags } }
    {
        Pipe { flags, ..self }
    }

    /// Where in the table of registered files the ends go; without it, they get descriptors.
    pub fn file_index(self, file_index: Option<DestinationSlot>) -> Pipe
        ensures { result ≡ record self { file_index = file_index } }
    {
        Pipe { file_index, ..self }
    }

    /// The entry, on no file: its descriptor word is 0.
    pub fn build(self) -> Entry
        ensures { result ≡ pipe_words self }
    {
        Entry {
            addr: self.fds,
            op: self.flags,
            idx: self.file_index.map_or(0, |slot| slot.kernel_index_arg()),
            ..Entry::blank(Pipe::CODE)
        }
    }
}

// The number of a target in an unsigned word: a descriptor by its 32 bits, an index as it is.
fn number_of(target: Target) -> u32
    ensures { result ≡ number_of target }
{
    match target {
        Target::Fd(fd) => fd.cast_unsigned(),
        Target::Fixed(index) => index,
    }
}

// The bit that says of a source's word that it is the index of a registered file.
fn source_mark(target: Target) -> u32
    ensures { result ≡ source_mark target }
{
    match target {
        Target::Fd(_) => 0,
        Target::Fixed(_) => FD_IN_FIXED,
    }
}
