//! A bounded search: every way in which interrupts can come among the events of a run, and the events of one way.
ghost use Rattle.std.specs.Prelude.{◌≤◌, IfOk};

use crate::absent::Unanswered;
use crate::names::{EVENTS, MACHINE};
use crate::put::hand_over;
use crate::refusal::{no_memory, refuse, refuse_with};
use crate::status::{NOT_THERE, TOO_MANY, status_if};
use execexplore::{Answer, Failure, Options, Paths, frame_in, searched, window_of};
use execsim::SimFault;
use std::alloc::Global;
use wayrun::See;
use ways::Watcher;

/// A watcher that reports nothing.
#[derive(Clone, Copy, Drop)]
struct Quiet;

impl Watcher for Quiet {
    fn report(&mut self, _tried: u64, _outcomes: usize) {}
}

/// The kinds of interrupts of a mask, as the command takes them: bit 0 is PORTS, bit 1 a tick, bit 2 EXTER; no bit is
/// those that the machine file serves.
fn kinds_of(mask: u32) -> Result<Option<&'static str>, Failure<'static>> {
    match mask {
        0 => Ok(None),
        1 => Ok(Some("PORTS")),
        2 => Ok(Some("tick")),
        3 => Ok(Some("tick,PORTS")),
        4 => Ok(Some("EXTER")),
        5 => Ok(Some("PORTS,EXTER")),
        6 => Ok(Some("tick,EXTER")),
        7 => Ok(Some("tick,PORTS,EXTER")),
        _ => Err(Failure::Option("kinds is a sum of 1 (PORTS), 2 (ticks) and 4 (EXTER), or 0")),
    }
}

/// What is seen of a way, by its number.
fn see_of(number: u32) -> Result<See, Failure<'static>> {
    match number {
        0 => Ok(See::End),
        1 => Ok(See::Prints),
        2 => Ok(See::Trace),
        _ => Err(Failure::Option("see is 0 (the end), 1 (the prints) or 2 (the trace)")),
    }
}

/// The number of extras.
fn extra_of(number: u32) -> Result<usize, Failure<'static>>
    ensures { IfOk result (λ extra. extra ≤ 8) }
{
    if number <= 8 {
        Ok(number as usize)
    } else {
        Err(Failure::Option("extra is a number from 0 to 8"))
    }
}

/// The options of a search.
fn options_of(
    extra: u32,
    kinds: u32,
    see: u32,
    outcome: Option<u64>,
) -> Result<Options<'static>, Failure<'static>> {
    Ok(Options {
        extra: extra_of(extra)?,
        of: kinds_of(kinds)?,
        see: see_of(see)?,
        part: None,
        events: outcome,
        progress: false,
    })
}

/// What a search of at most that many ways prints.
fn answer_of(
    alloc: Global,
    machine: &[u8],
    events: &[u8],
    options: &Options<'static>,
    limit: u64,
) -> Result<Answer, Failure<'static>> {
    let names = Paths {
        machine: MACHINE,
        events: EVENTS,
    };
    let frame = frame_in(alloc, machine, events, options)?;
    if frame.ways > limit {
        return Err(Failure::TooManyWays(Some(frame.ways), limit));
    }
    let window = window_of(&frame, options);
    searched(alloc, names, options, &frame, window, Quiet)
}

/// Puts why there is no answer at the front of a buffer, and answers the status.
fn refuse_search(failure: &Failure<'_>, out: &mut [u8], length: &mut u64) -> u32
    ensures { result ≤ 8 }
{
    match failure {
        Failure::Machine(fault) => refuse(SimFault::File(*fault), out, length),
        Failure::Events(fault) => refuse(SimFault::Events(*fault), out, length),
        Failure::NoMemory | Failure::CannotRead(_, _) | Failure::WriteFailed => no_memory(
            out, length,
        ),
        Failure::TooManyWays(_, _)
        | Failure::TooManyOutcomes
        | Failure::TooMuch(_)
        | Failure::TooManyTicks(_) => { refuse_with(&Unanswered(failure), TOO_MANY, out, length) }
        _ => refuse_with(&Unanswered(failure), NOT_THERE, out, length),
    }
}

/// Hands over what a search prints, or why there is none.
fn hand_over_answer(found: Result<Answer, Failure<'_>>, out: &mut [u8], length: &mut u64) -> u32
    ensures { result ≤ 8 }
{
    match found {
        Ok(answer) => hand_over(&answer.text, status_if(answer.is_mixed), out, length),
        Err(failure) => refuse_search(&failure, out, length),
    }
}

/// Runs every way to insert at most `extra` interrupts into the events of the run of two texts, and puts the report of
/// `execexplore` at the front of `out`, and its length in bytes in `length`. `kinds` is a mask of the interrupts: bit 0
/// PORTS, bit 1 a tick, bit 2 EXTER; 0 is ticks and the sources that the machine file serves. `see` is what is seen of
/// a way: 0 its end, 1 its prints, 2 its trace. At most `limit` ways are tried.
///
/// 0 if there is one outcome and no alert, and 3 if there are more or an alert. 5 if the report is longer than `out`,
/// which is left alone then; `length` says how long. Otherwise `out` begins with the words of the fault, as far as
/// there is room, and they are `length` bytes: 1 if the machine file is refused, 2 if the event text is, 4 if memory
/// was refused, 7 if a number is out of range, and 8 if there are more ways than the limit, or more outcomes, bytes of
/// outcomes or ticks than a search takes.
///
/// Source: project rule.
#[unsafe(no_mangle)]
pub extern "C" fn execsim_explore(
    alloc: Global,
    machine: &[u8],
    events: &[u8],
    extra: u32,
    kinds: u32,
    see: u32,
    limit: u64,
    out: &mut [u8],
    length: &mut u64,
) -> u32
    ensures { result ≤ 8 }
{
    let found = match options_of(extra, kinds, see, None) {
        Ok(options) => answer_of(alloc, machine, events, &options, limit),
        Err(failure) => Err(failure),
    };
    hand_over_answer(found, out, length)
}

/// Makes the search of `execsim_explore`, and puts the events of the first way of an outcome, from 1, at the front of
/// `out` as an event text.
///
/// As `execsim_explore`; 7 also if there is no such outcome.
///
/// Source: project rule.
#[unsafe(no_mangle)]
pub extern "C" fn execsim_way(
    alloc: Global,
    machine: &[u8],
    events: &[u8],
    extra: u32,
    kinds: u32,
    see: u32,
    limit: u64,
    outcome: u64,
    out: &mut [u8],
    length: &mut u64,
) -> u32
    ensures { result ≤ 8 }
{
    let found = match options_of(extra, kinds, see, Some(outcome)) {
        Ok(options) => answer_of(alloc, machine, events, &options, limit),
        Err(failure) => Err(failure),
    };
    hand_over_answer(found, out, length)
}
