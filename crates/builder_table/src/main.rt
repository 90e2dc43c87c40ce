//! Writes each builder's operation code. Then builds an entry with each builder, of wide values, and
//! writes its bytes in hex: a line for each, with the builder's name. What must come out was worked
//! out from a table of operations that was written by hand, without this code.
#![tactic(auto)]

mod codes;
mod commands;
mod files;
mod lines;
mod messages;
mod names;
mod pipes;
mod reads;
mod sockets;
mod transfers;
mod values;
mod waits;

use std::io;

/// The operations on files, and what else isn't of sockets.
fn file_operations<R: Alloc + Print>(rt: &R) -> io::Result<()> {
    reads::first_operations(rt)?;
    reads::of_registered_buffers(rt)?;
    reads::polls(rt)?;
    waits::timeouts(rt)?;
    files::openings(rt)?;
    files::descriptions(rt)?;
    reads::of_one_buffer(rt)?;
    files::advice(rt)?;
    pipes::splices(rt)?;
    pipes::groups(rt)?;
    pipes::tees(rt)?;
    names::names(rt)?;
    names::attributes(rt)?;
    waits::cancels(rt)?;
    reads::multishot_reads(rt)?;
    waits::waits(rt)?;
    files::installs_and_cuts(rt)?;
    reads::of_several_registered_buffers(rt)?;
    pipes::new_pipes(rt)
}

/// The operations on sockets, epoll instances, other rings and devices.
fn net_operations<R: Alloc + Print>(rt: &R) -> io::Result<()> {
    messages::messages(rt)?;
    messages::connections(rt)?;
    transfers::sends(rt)?;
    transfers::receives(rt)?;
    sockets::changes(rt)?;
    sockets::ring_messages(rt)?;
    sockets::new_sockets(rt)?;
    commands::small_commands(rt)?;
    commands::large_commands(rt)?;
    sockets::options(rt)?;
    transfers::sends_without_a_copy(rt)?;
    sockets::bindings(rt)?;
    transfers::receives_without_a_copy(rt)?;
    sockets::events(rt)
}

fn main(rt: HostRuntime) -> io::Result<()> {
    codes::codes(&rt)?;
    file_operations(&rt)?;
    net_operations(&rt)
}
