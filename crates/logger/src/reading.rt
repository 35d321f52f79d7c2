//! The texts of a run, read and looked at.

ghost use Rattle.std.specs.Prelude.{◌≡◌, ◌⊎◌, IfErr, IfOk, Some};
ghost use Rattle.taskscript.specs.{Events.script_of, File.file_of, Listings.listing_in};
ghost use Rattle.execrun.specs.Texts.{IsTextAt};
ghost use Rattle.logger.specs.{Failing.IsOfMachine, Failing.IsOfScript, Failing.IsUnread, Reading.IsOneOf, Reading.IsRefused, Reading.IsRunOf, Reading.RefusesTexts, Reading.RunsTexts};

use crate::command_line::Paths;
use crate::failure::Failure;
use execrun::{Texts, read_text};
use logforms::{Run, book_of};
use script::Events;
use std::alloc::Global;
use taskscript::{Listed, read_events, read_listed};

/// The machine of the bytes of a machine file, with its lines and names.
#[tactic(auto, using(crate::proofs::FailLemmas::of_machine_fault))]
fn listed_in<'a>(alloc: Global, bytes: &[u8]) -> Result<Listed, Failure<'a>>
    ensures machine { IfOk result (λ listed. file_of bytes.now ≡ Ok listed.machine) }
    ensures listing { IfOk result (λ listed. listing_in bytes.now ≡ Some listed.listing) }
    ensures failure { IfErr result (IsOfMachine bytes.now) }
{
    match read_listed(alloc, bytes) {
        Ok(listed) => Ok(listed),
        Err(fault) => Err(Failure::of_machine(fault)),
    }
}

/// The events of the bytes of an event text.
#[tactic(auto, using(crate::proofs::FailLemmas::of_script_fault))]
fn events_in<'a>(alloc: Global, bytes: &[u8]) -> Result<Events, Failure<'a>>
    ensures events { IfOk result (λ events. script_of bytes.now ≡ Ok events) }
    ensures failure { IfErr result (IsOfScript bytes.now) }
{
    match read_events(alloc, bytes) {
        Ok(events) => Ok(events),
        Err(fault) => Err(Failure::of_script(fault)),
    }
}

/// The run of the bytes of a machine file and of an event text.
///
/// # Errors
///
/// `NoMemory` if memory is refused, `Machine` or `Events` if a text is refused: the machine file if both are.
///
/// Source: project rule.
#[tactic(auto, using(crate::proofs::FailLemmas::by_machine, crate::proofs::FailLemmas::by_script, crate::proofs::FailLemmas::by_memory))]
pub fn run_of<'a>(alloc: Global, machine: &[u8], script: &[u8]) -> Result<Run, Failure<'a>>
    ensures run { IfOk result (IsRunOf machine.now script.now) }
    ensures failure { IfErr result (IsRefused machine.now script.now) }
{
    let listed = listed_in(alloc, machine)?;
    let events = events_in(alloc, script)?;
    let book = book_of(alloc, machine, &listed)?;
    Ok(Run {
        listed,
        events,
        book,
    })
}

/// The bytes of the text at a path.
#[tactic(auto, using(crate::proofs::FailLemmas::unread_text))]
fn text_at<'a, T: Texts>(texts: &T, alloc: Global, path: &'a str) -> Result<Vec<u8>, Failure<'a>>
    ensures bytes { IfOk result (λ bytes. IsTextAt (T.text_at texts.now) path.now bytes.items) }
    ensures failure { IfErr result (IsUnread (λ other. other ≡ path.entry)) }
{
    match read_text(texts, alloc, path) {
        Ok(bytes) => Ok(bytes),
        Err(fault) => Err(Failure::of_text(path, fault)),
    }
}

/// Reads the texts at two paths. Nothing is judged before both are read.
///
/// # Errors
///
/// If memory is refused, a text cannot be read, or one is refused.
///
/// Source: project rule.
#[tactic(auto, using(crate::proofs::FailLemmas::unread_machine, crate::proofs::FailLemmas::unread_events))]
pub fn read_run<'a, T: Texts>(
    texts: &T,
    alloc: Global,
    paths: Paths<'a>,
) -> Result<Run, Failure<'a>>
    ensures run { IfOk result (RunsTexts (T.text_at texts.now) paths.entry) }
    ensures failure { IfErr result (λ why. IsUnread (IsOneOf paths.entry) why ⊎ RefusesTexts (T.text_at texts.now) paths.entry why) }
{
    let machine = text_at(texts, alloc, paths.machine)?;
    let script = text_at(texts, alloc, paths.events)?;
    run_of(alloc, &machine, &script)
}
