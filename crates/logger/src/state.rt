//! All that a machine shows after some steps, as a page of text.
ghost use Rattle.std.specs.Prelude.{◌≡◌, ◌≤◌, IfErr, IfOk, sum_by};
ghost use Rattle.script.specs.Events.{event_ticks};
ghost use Rattle.execmodel.specs.Step.{run as run_of};

use crate::failure::Failure;
use execsim::Machine;
use logforms::{PublicPorts, Run, page_of, stops_over};
use script::Event;
use std::alloc::Global;

/// The page of what a machine shows after the step of a number, which is the last of these events, and whether an alert
/// has stopped it.
///
/// # Errors
///
/// When memory is refused.
///
/// Source: project rule.
pub fn state_page<'a>(
    alloc: Global,
    run: &Run,
    path: &str,
    events: &[Event],
    number: u64,
    last: u64,
) -> Result<(String, bool), Failure<'a>>
    requires { sum_by event_ticks events.now ≤ 1000000 }
    ensures stopped { IfOk result (λ page. page.1 ≡ (run_of run.now.listed.machine events.now).state.stopped) }
    ensures failure { IfErr result (λ failure. failure ≡ Failure.NoMemory) }
{
    let file = &run.listed.machine;
    let mut machine = Machine::boot(alloc, file)?;
    let mut public = PublicPorts::new(alloc);
    let is_stopped = stops_over(&mut machine, file, events, &mut public);
    if public.is_cut() {
        return Err(Failure::NoMemory);
    }
    let page = page_of(alloc, run, path, &machine, &public, number, last)?;
    Ok((page, is_stopped))
}
