//! The work of workers, ended.
ghost use Rattle.std.specs.Prelude.{◌≡◌, map, IfOk};
ghost use Rattle.worker_desk.specs.Works.{duty_of};

use crate::receipt::{Duty, Receipt};
use ccp_base::NoMemory;
use std::alloc::Global;
use std::thread::{PromisedHandle, Threads};

/// The work of a worker, which goes on in a thread or was done by the caller.
#[derive(Drop)]
pub enum Work<S: Drop> {
    /// In a thread.
    Thread(PromisedHandle<Receipt<Duty<S>>, Duty<S>>),
    /// Done.
    Here(Receipt<Duty<S>>),
}

/// The end of a worker's work.
fn end<S: Drop, R: Threads>(rt: &R, work: Work<S>) -> Receipt<Duty<S>>
    ensures { result ≡ duty_of work }
{
    match work {
        Work::Thread(handle) => handle.join(rt),
        Work::Here(receipt) => receipt,
    }
}

/// The ends of works, in order.
pub fn end_all<S: Drop, R: Threads>(
    rt: &R,
    alloc: Global,
    works: Vec<Work<S>>,
) -> Result<Vec<Receipt<Duty<S>>>, NoMemory>
    ensures { IfOk result (λ all. all.items ≡ map duty_of works.items) }
{
    let mut left = works;
    let mut all = Vec::new(alloc);
    while !left.is_empty() {
        let work = left.remove(0);
        all.push(end(rt, work))?;
    }
    Ok(all)
}
