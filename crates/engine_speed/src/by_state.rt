//! Operations as states, which an executor polls. The engine numbers them.

ghost use Rattle.std.specs.Prelude.{◌≡◌, true, false};

use crate::Load;
use rent_engine::{Engine, Executor, OneAnswer, OpKind, SingleOp};
use std::alloc::Global;
use std::io;
use uring_ops_file::Nop;
use uring_partner::MemoryPartner;
use uring_ring::IoUring;

/// Whether the operation is done, and not with an error.
#[derive(Drop)]
struct Succeeds;

impl OpKind for Succeeds {
    ghost use Rattle.engine_speed.specs.Outputs.{succeeded, IsAny};

    type Output = bool;

    ghost gives = { λ _. succeeded };

    ghost bounds = { IsAny };

    fn output(&mut self, _alloc: Global, answer: OneAnswer) -> bool {
        match answer {
            OneAnswer::Done(done) => done.result >= 0,
            OneAnswer::InUse(_) | OneAnswer::NoMemory(_) | OneAnswer::Lost => false,
        }
    }
}

type NopTasks = Executor<SingleOp<Succeeds>>;

/// Takes in a lot of tasks, and gives the last one's id.
fn spawn(alloc: Global, tasks: &mut NopTasks, lot: u32) -> io::Result<usize> {
    let mut last = 0;
    for _ in 0..lot {
        let task = SingleOp::new(Nop::new().build(), None, Succeeds);
        last = match tasks.spawn(alloc, task) {
            Ok(id) => id,
            Err((_task, fault)) => return Err(io::Error::from(fault)),
        };
    }
    Ok(last)
}

/// Takes the outputs of a lot whose last id this is, and tells how many succeeded.
fn take(tasks: &mut NopTasks, last: usize, lot: u32) -> u64 {
    let mut done = 0u64;
    for place in 0..lot as usize {
        if tasks.take(last.wrapping_sub(place)) == Some(true) {
            done = done.wrapping_add(1);
        }
    }
    done
}

/// All that one partner serves, and how many are done.
fn serve(
    alloc: Global,
    engine: &mut Engine<IoUring>,
    tasks: &mut NopTasks,
    load: Load,
) -> io::Result<u64> {
    let mut partner = MemoryPartner::new(alloc);
    let mut done = 0u64;
    for _ in 0..load.lots {
        let last = spawn(alloc, tasks, load.lot)?;
        tasks.run(alloc, engine, &mut partner, 1)?;
        done = done.wrapping_add(take(tasks, last, load.lot));
    }
    Ok(done)
}

/// All operations, and how many are done.
pub(crate) fn run(alloc: Global, engine: &mut Engine<IoUring>, load: Load) -> io::Result<u64> {
    let mut tasks = Executor::new(alloc);
    let mut done = 0u64;
    for _ in 0..load.partners {
        done = done.wrapping_add(serve(alloc, engine, &mut tasks, load)?);
    }
    Ok(done)
}
