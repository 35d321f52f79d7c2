//! Which step ends a run by an alert.
ghost use Rattle.std.specs.Prelude.{◌<◌, ◌≤◌, IfOk, IfSome};

use crate::events::events_up_to;
use crate::making::stops_over;
use crate::public_ports::PublicPorts;
use crate::run::Run;
use execsim::Machine;
use std::alloc::{AllocError, Global};

/// Whether an alert stops a run by the step, tick or request of a number.
fn stops_by(alloc: Global, run: &Run, number: u64) -> Result<bool, AllocError> {
    let events = events_up_to(alloc, run.events.list(), number)?;
    let file = &run.listed.machine;
    let mut machine = Machine::boot(alloc, file)?;
    let mut public = PublicPorts::new(alloc);
    Ok(stops_over(&mut machine, file, &events, &mut public))
}

/// The first step, tick or request, from `low` to `high`, by which an alert has stopped a run; it has by `high`, and
/// not before `low`.
fn first_stop(alloc: Global, run: &Run, low: u64, high: u64) -> Result<u64, AllocError>
    ensures { IfOk result (λ step. step ≤ high) }
{
    let mut low = low;
    let mut high = high;
    while low < high {
        let middle = low + (high - low) / 2;
        if stops_by(alloc, run, middle)? {
            high = middle;
        } else {
            low = middle + 1;
        }
    }
    Ok(high)
}

/// The step, tick or request of a run whose alert ends it, if there is one before that of a number. It is found by runs
/// of half the length, and half of that; a run that goes on is run once.
///
/// # Errors
///
/// When memory is refused.
///
/// Source: project rule.
pub fn alert_before(alloc: Global, run: &Run, number: u64) -> Result<Option<u64>, AllocError>
    ensures { IfOk result (λ step. IfSome step (λ s. s < number)) }
{
    if number == 0 {
        return Ok(None);
    }
    let last = number - 1;
    if !stops_by(alloc, run, last)? {
        return Ok(None);
    }
    let step = first_stop(alloc, run, 0, last)?;
    Ok(Some(step))
}
