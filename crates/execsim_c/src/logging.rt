//! The log of a run, and all that its machine shows after a step.
ghost use Rattle.std.specs.Prelude.{◌≤◌};

use crate::absent::{Unshown, part_within, within};
use crate::names::{EVENTS, MACHINE};
use crate::put::hand_over;
use crate::refusal::{no_memory, refuse, refuse_with};
use crate::status::{NOT_THERE, status_if};
use execsim::SimFault;
use logger::{Failure, Options, Paths, Run, View, last_number, run_of, write_run};
use std::alloc::Global;

/// The number by which a caller asks for the last step of a run.
const LAST_STEP: u64 = u64::MAX;

/// A part of a run as text, and whether an alert has stopped the machine by its end.
#[derive(Drop)]
pub(crate) struct Shown {
    text: Vec<u8>,
    is_stopped: bool,
}

/// A view of the whole of a run.
fn whole(view: View) -> Options<'static> {
    Options {
        view,
        plain_words: false,
        from: None,
        to: None,
        at: None,
        task: None,
    }
}

/// A view of some steps of a run.
pub(crate) fn part(view: View, from: u64, to: u64) -> Options<'static> {
    let mut options = whole(view);
    options.from = Some(from);
    if to != LAST_STEP {
        options.to = Some(to);
    }
    options
}

/// What the options choose of a run.
fn written<'a>(alloc: Global, run: &Run, options: &Options<'a>) -> Result<Shown, Failure<'a>> {
    let paths = Paths {
        machine: MACHINE,
        events: EVENTS,
    };
    let mut text = Vec::new(alloc);
    let status = write_run(alloc, run, paths, options, &mut text)?;
    Ok(Shown {
        text,
        is_stopped: status != 0,
    })
}

/// Some steps of the run of two texts.
pub(crate) fn part_of(
    alloc: Global,
    machine: &[u8],
    events: &[u8],
    options: &Options<'static>,
) -> Result<Shown, Unshown> {
    let run = run_of(alloc, machine, events)?;
    part_within(options, last_number(run.events.list()))?;
    let shown = written(alloc, &run, options)?;
    Ok(shown)
}

/// All that the machine of two texts shows after a step.
fn state_of(alloc: Global, machine: &[u8], events: &[u8], step: u64) -> Result<Shown, Unshown> {
    let run = run_of(alloc, machine, events)?;
    let last = last_number(run.events.list());
    let number = if step == LAST_STEP { last } else { step };
    within("step", number, last)?;
    let shown = written(alloc, &run, &whole(View::State(number)))?;
    Ok(shown)
}

/// Puts why a run is not shown at the front of a buffer, and answers the status.
fn refuse_part(why: &Unshown, out: &mut [u8], length: &mut u64) -> u32
    ensures { result ≤ 7 }
{
    match why {
        Unshown::Failed(Failure::Machine(fault)) => refuse(SimFault::File(*fault), out, length),
        Unshown::Failed(Failure::Events(fault)) => refuse(SimFault::Events(*fault), out, length),
        Unshown::Failed(Failure::NoMemory | Failure::CannotRead(_, _) | Failure::WriteFailed) =>
            no_memory(out, length),
        _ => refuse_with(why, NOT_THERE, out, length),
    }
}

/// Hands over what is shown of a run, or why it is not.
pub(crate) fn hand_over_part(found: Result<Shown, Unshown>, out: &mut [u8], length: &mut u64) -> u32
    ensures { result ≤ 7 }
{
    match found {
        Ok(shown) => hand_over(&shown.text, status_if(shown.is_stopped), out, length),
        Err(why) => refuse_part(&why, out, length),
    }
}

/// Puts the log of the steps from `from` to `to` of the run of two texts at the front of `out`, and its length in bytes
/// in `length`: the lines of `execlog --json`, and if `words` is not 0 also those of words that print nothing, as
/// `--plain-words` adds them. `u64::MAX` for `to` is the last step.
///
/// 0 if all is there, and 3 if an alert has stopped the machine by then. 5 if the log is longer than `out`, which is
/// left alone then; `length` says how long. Otherwise `out` begins with the words of the fault, as far as there is
/// room, and they are `length` bytes: 1 if the machine file is refused, 2 if the event text is, 4 if memory was
/// refused, and 7 if the run has no such steps.
///
/// Source: project rule.
#[unsafe(no_mangle)]
pub extern "C" fn execsim_log(
    alloc: Global,
    machine: &[u8],
    events: &[u8],
    from: u64,
    to: u64,
    words: u32,
    out: &mut [u8],
    length: &mut u64,
) -> u32
    ensures { result ≤ 7 }
{
    let mut options = part(View::Json, from, to);
    options.plain_words = words != 0;
    let found = part_of(alloc, machine, events, &options);
    hand_over_part(found, out, length)
}

/// Puts all that the machine of two texts shows after the step of a number at the front of `out`, and its length in
/// bytes in `length`: the page of `execlog --state`. `u64::MAX` is the last step.
///
/// As `execsim_log`.
///
/// Source: project rule.
#[unsafe(no_mangle)]
pub extern "C" fn execsim_state(
    alloc: Global,
    machine: &[u8],
    events: &[u8],
    step: u64,
    out: &mut [u8],
    length: &mut u64,
) -> u32
    ensures { result ≤ 7 }
{
    let found = state_of(alloc, machine, events, step);
    hand_over_part(found, out, length)
}
