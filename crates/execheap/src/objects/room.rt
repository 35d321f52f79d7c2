//! The room for the objects of a memory beside its table, if none is made yet: for a group of kinds each a function,
//! since each part that can fail multiplies the proof.
ghost use Rattle.std.specs.Prelude.{◌≡◌, ◌≤◌, ◌+◌, [], None, replicate, IfOk};
ghost use Rattle.execlist.specs.{Lists.blank, Pool.all_free};
ghost use Rattle.msgport.specs.Ports.{no_ports};
ghost use Rattle.sigsem.specs.Semaphores.{no_sems};
ghost use Rattle.timerdev.specs.Timing.{new_timer};
ghost use Rattle.execheap.specs.Changes.{reserved};

use crate::objects::requests::with_requests;
use execlist::space::ListSpace;
use iorequest::requests::Requests;
use msgport::ports::Ports;
use sigsem::sems::Sems;
use std::alloc::{AllocError, Global};
use timerdev::timer::Timer;

/// Lists and nodes, and semaphores at which that many tasks may wait.
pub(crate) fn lists_and_semaphores<S: ListSpace>(
    alloc: Global,
    pool: usize,
    tasks: usize,
) -> Result<(S, Sems<S>), AllocError>
    requires pool { pool ≤ 1024 }
    requires tasks { tasks ≤ 4096 }
    ensures empty { IfOk result (λ made. S.sequences made.0 ≡ replicate pool []) }
    ensures unlinked { IfOk result (λ made. S.homes made.0 ≡ replicate pool None) }
    ensures blank { IfOk result (λ made. S.keys made.0 ≡ replicate pool blank) }
    ensures semaphores { IfOk result (λ made. made.1 ≡ no_sems pool tasks) }
{
    let space = S::new(alloc, pool, pool)?;
    let sems = Sems::new(alloc, pool, tasks)?;
    Ok((space, sems))
}

/// Ports and messages, and a message more for each request.
pub(crate) fn ports_of<S: ListSpace>(alloc: Global, pool: usize) -> Result<Ports<S>, AllocError>
    requires { pool ≤ 1024 }
    ensures { IfOk result (λ ports. ports ≡ reserved pool (no_ports pool (pool + pool))) }
{
    let ports = Ports::new(alloc, pool, pool + pool)?;
    Ok(with_requests(ports, pool))
}

/// Requests, and the timer for which they wait.
pub(crate) fn requests_and_timer<S: ListSpace>(
    alloc: Global,
    pool: usize,
    tick_micros: u32,
) -> Result<(Requests, Timer<S>), AllocError>
    requires { pool ≤ 1024 }
    ensures requests { IfOk result (λ made. made.0 ≡ all_free pool) }
    ensures timer { IfOk result (λ made. made.1 ≡ record { room = pool; timer = new_timer tick_micros }) }
{
    let requests = Requests::new(alloc, pool)?;
    let timer = Timer::new(alloc, pool, tick_micros)?;
    Ok((requests, timer))
}
