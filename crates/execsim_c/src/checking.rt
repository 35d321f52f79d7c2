//! What is found in two texts and in their run.
ghost use Rattle.std.specs.Prelude.{◌≡◌, ◌≢◌, ◌≤◌, ◌↔◌, IfOk, IsSome, false, true};
ghost use Rattle.execadvice.specs.Findings.{fault_of};
ghost use Rattle.runadvice.specs.Ends.{ends_by_alert};
ghost use Rattle.taskscript.specs.{File.file_of, Events.script_of};
ghost use Rattle.execsim_c.specs.Checking.{Judges};

use crate::names::{EVENTS, MACHINE};
use crate::put::hand_over;
use crate::refusal::no_memory;
use crate::status::{ALERTED, EVENTS_REFUSED, MACHINE_REFUSED, RAN};
use execadvice::{Diagnostic, Look, are_grave, check_events, check_machine, rendered};
use runadvice::check_run;
use std::alloc::{AllocError, Global};

/// What was found.
#[derive(Drop)]
struct Found {
    text: String,
    status: u32,
}

/// The status of what was found: whether each text is refused, and whether there is a warning or an alert.
fn status_of_findings(is_machine_refused: bool, is_script_refused: bool, warns: bool) -> u32
    ensures machine { (result ≡ 1) ↔ (is_machine_refused ≡ true) }
    ensures events { (result ≡ 2) ↔ ((is_machine_refused ≡ false) × (is_script_refused ≡ true)) }
    ensures warned { is_machine_refused ≡ false → is_script_refused ≡ false → warns ≡ true → result ≡ 3 }
    ensures within { result ≤ 3 }
{
    if is_machine_refused {
        MACHINE_REFUSED
    } else if is_script_refused {
        EVENTS_REFUSED
    } else if warns {
        ALERTED
    } else {
        RAN
    }
}

/// Writes what was found in a text after what is there already, and answers whether there is more than notes.
fn add_found(
    alloc: Global,
    name: &str,
    found: &[Diagnostic],
    text: &mut String,
) -> Result<bool, AllocError> {
    text.push_str(rendered(alloc, name, found, Look::PLAIN)?.as_str())?;
    Ok(are_grave(found))
}

/// Writes what is found in a machine file, and answers whether it is refused, and whether there is more than notes.
fn add_machine(alloc: Global, machine: &[u8], text: &mut String) -> Result<(bool, bool), AllocError>
    ensures { IfOk result (λ judged. (judged.0 ≡ true) ↔ IsSome (fault_of (file_of machine.now))) }
{
    let finding = check_machine(alloc, machine)?;
    let is_refused = finding.fault.is_some();
    let is_grave = add_found(alloc, MACHINE, &finding.found, text)?;
    Ok((is_refused, is_grave))
}

/// Writes what is found in an event text, and answers whether it is refused.
fn add_events(alloc: Global, events: &[u8], text: &mut String) -> Result<bool, AllocError>
    ensures { IfOk result (λ is_refused. (is_refused ≡ true) ↔ IsSome (fault_of (script_of events.now))) }
{
    let finding = check_events(alloc, events)?;
    let is_refused = finding.fault.is_some();
    add_found(alloc, EVENTS, &finding.found, text)?;
    Ok(is_refused)
}

/// Writes what is found in the run of two texts, and answers whether an alert ended it or there is more than notes.
fn add_run(
    alloc: Global,
    machine: &[u8],
    events: &[u8],
    text: &mut String,
) -> Result<bool, AllocError>
    ensures { IfOk result (λ warns. ends_by_alert (file_of machine.now) (script_of events.now) ≡ true → warns ≡ true) }
{
    let report = check_run(alloc, machine, events)?;
    let is_alerted = report.is_alerted;
    let is_grave = add_found(alloc, MACHINE, &report.found, text)?;
    Ok(is_alerted || is_grave)
}

/// What is found in two texts and in their run, as `execcheck` finds it.
fn found_in(alloc: Global, machine: &[u8], events: &[u8]) -> Result<Found, AllocError>
    ensures { IfOk result (λ found. Judges (file_of machine.now) (script_of events.now) found.status) }
{
    let mut text = String::new(alloc);
    let (is_machine_refused, is_grave) = add_machine(alloc, machine, &mut text)?;
    let is_script_refused = add_events(alloc, events, &mut text)?;
    let warns = add_run(alloc, machine, events, &mut text)? || is_grave;
    let status = status_of_findings(is_machine_refused, is_script_refused, warns);
    Ok(Found { text, status })
}

/// Puts what `execcheck machine.toml run.events` writes of two texts at the front of `out`, and its length in bytes in
/// `length`.
///
/// 0 if nothing was found, or notes alone; 3 if there are warnings, or an alert ended the run; 1 if the machine file is
/// refused, and 2 if the event text alone is. 5 if what was found is longer than `out`, which is left alone then;
/// `length` says how long. 4 if memory was refused.
///
/// Source: project rule.
#[unsafe(no_mangle)]
pub extern "C" fn execsim_check(
    alloc: Global,
    machine: &[u8],
    events: &[u8],
    out: &mut [u8],
    length: &mut u64,
) -> u32
    ensures judged { result ≢ 4 → result ≢ 5 → Judges (file_of machine.now) (script_of events.now) result }
    ensures status { result ≤ 5 }
{
    match found_in(alloc, machine, events) {
        Ok(found) => hand_over(found.text.as_str().as_bytes(), found.status, out, length),
        Err(_) => no_memory(out, length),
    }
}
