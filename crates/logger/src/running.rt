//! The command over any words and writers, and on the arguments of its process.
ghost use Rattle.std.specs.Prelude.{◌≡◌, ◌≤◌, ◌⊎◌, IfErr, IfOk, OnOk, false, sum_by};
ghost use Rattle.script.specs.Events.{event_ticks};
ghost use Rattle.execsim.specs.Time.{HasTimeFor};
ghost use Rattle.execlog.specs.Log.{turns};
ghost use Rattle.logger.specs.{Asking.IsOfWords, Failing.IsNoText, Failing.status_of, Reading.RefusesSome, Reading.RunsSome};

use crate::choice::{Choice, chosen, number_within};
use crate::command_line::{Paths, Refusal, asked_by, not_text_error};
use crate::ending::check_first;
use crate::failure::{Failure, report};
use crate::options::{Options, View};
use crate::pictures::write_picture;
use crate::reading::read_run;
use crate::state::state_page;
use crate::writing::write_text;
use clap::error::ErrorKind;
use execlist::link::LinkSpace;
use execlog::{Form, Plain};
use execrun::{SystemTexts, Texts};
use execsim::Machine;
use exectrace::WriteSink;
use logforms::{Json, Run, Words, Written, ends_of, events_up_to, last_number, run_events};
use script::Event;
use std::alloc::Global;
use std::env::Env;
use std::io::{BufWriter, Write};
use std::rt::Files;
use std::{env, io};

/// How many bytes are kept before they are handed to standard output.
const OUTPUT_BUFFER: usize = 65_536;

/// The status if all was shown, or after the help.
const DONE: u8 = 0;

/// The status of a command line that is refused.
const COMMAND_LINE_REFUSED: u8 = 2;

/// The status if an alert has stopped the machine.
const ALERTED: u8 = 3;

/// What is above the rows.
const HEAD: &[u8] = b" step       ms  line  trace                                        source\n";

/// The status of a run.
fn status_of(is_stopped: bool) -> u8
    ensures { (result ≡ 0) ⊎ (result ≡ 3) }
{
    if is_stopped { ALERTED } else { DONE }
}

/// Runs a machine that was not started yet over events, and writes its log in a form.
#[tactic(auto, using(crate::proofs::FailLemmas::log_no_text))]
fn write_log_of<'a, F: Form, W: Write>(
    alloc: Global,
    machine: &mut Machine<LinkSpace>,
    events: &[Event],
    form: &F,
    out: &mut W,
) -> Result<u8, Failure<'a>>
    requires going { machine.old.failed ≡ false }
    requires left { HasTimeFor 1000000 machine.old.seen }
    requires few { sum_by turns events.now ≤ 4000000 }
    requires time { sum_by event_ticks events.now ≤ 1000000 }
    ensures status { IfOk result (λ status. (status ≡ 0) ⊎ (status ≡ 3)) }
    ensures failure { IfErr result IsNoText }
{
    let mut sink = WriteSink::new(&mut *out);
    run_events(alloc, machine, events, form, &mut sink)?;
    Ok(status_of(machine.view().stopped))
}

/// Runs the machine of a file over events, and writes its log in a form.
fn write_form<'a, F: Form, W: Write>(
    alloc: Global,
    run: &Run,
    events: &[Event],
    form: &F,
    out: &mut W,
) -> Result<u8, Failure<'a>>
    requires few { sum_by turns events.now ≤ 4000000 }
    requires time { sum_by event_ticks events.now ≤ 1000000 }
    ensures status { IfOk result (λ status. (status ≡ 0) ⊎ (status ≡ 3)) }
    ensures failure { IfErr result IsNoText }
{
    match Machine::boot(alloc, &run.listed.machine) {
        Err(_) => Err(Failure::NoMemory),
        Ok(mut machine) => write_log_of(alloc, &mut machine, events, form, out),
    }
}

/// The machine file as rows need it.
fn written_of<'r>(run: &'r Run, options: &Options<'_>) -> Written<'r> {
    Written {
        book: &run.book,
        listing: &run.listed.listing,
        plain_words: options.plain_words,
    }
}

/// Writes the log of a part of a run as rows.
#[tactic(auto, using(crate::proofs::FailLemmas::writing_no_text))]
fn write_rows<'a, W: Write>(
    alloc: Global,
    run: &Run,
    events: &[Event],
    choice: Choice,
    options: &Options<'a>,
    out: &mut W,
) -> Result<u8, Failure<'a>>
    requires few { sum_by turns events.now ≤ 4000000 }
    requires time { sum_by event_ticks events.now ≤ 1000000 }
    ensures status { IfOk result (λ status. (status ≡ 0) ⊎ (status ≡ 3)) }
    ensures failure { IfErr result IsNoText }
{
    write_text(HEAD, out)?;
    if options.plain_words {
        let form = Words {
            alloc,
            written: written_of(run, options),
            filter: choice.filter,
        };
        return write_form(alloc, run, events, &form, out);
    }
    let form = Plain {
        book: &run.book,
        filter: choice.filter,
    };
    write_form(alloc, run, events, &form, out)
}

/// Writes the log of a part of a run as JSON.
#[tactic(auto, using(crate::proofs::FailLemmas::memory_no_text))]
fn write_json<'a, W: Write>(
    alloc: Global,
    run: &Run,
    events: &[Event],
    choice: Choice,
    options: &Options<'a>,
    out: &mut W,
) -> Result<u8, Failure<'a>>
    requires few { sum_by turns events.now ≤ 4000000 }
    requires time { sum_by event_ticks events.now ≤ 1000000 }
    ensures status { IfOk result (λ status. (status ≡ 0) ⊎ (status ≡ 3)) }
    ensures failure { IfErr result IsNoText }
{
    let ends = ends_of(alloc, run.events.list())?;
    let form = Json {
        alloc,
        written: written_of(run, options),
        filter: choice.filter,
        ends: &ends,
    };
    write_form(alloc, run, events, &form, out)
}

/// Writes all that the machine shows after a step of a run, of which the last one has the number `last`.
#[tactic(auto, using(crate::proofs::FailLemmas::absent_no_text, crate::proofs::FailLemmas::memory_no_text, crate::proofs::FailLemmas::writing_no_text))]
fn write_state<'a, W: Write>(
    alloc: Global,
    run: &Run,
    last: u64,
    paths: Paths<'a>,
    number: u64,
    out: &mut W,
) -> Result<u8, Failure<'a>>
    ensures status { IfOk result (λ status. (status ≡ 0) ⊎ (status ≡ 3)) }
    ensures failure { IfErr result IsNoText }
{
    let number = number_within(alloc, "--state", number, last)?;
    let events = events_up_to(alloc, run.events.list(), number)?;
    let (page, is_stopped) = state_page(alloc, run, paths.machine, &events, number, last)?;
    write_text(page.as_str().as_bytes(), out)?;
    Ok(status_of(is_stopped))
}

/// Writes the log of a part of a run, of which the last step has the number `end`.
#[tactic(auto, using(crate::proofs::FailLemmas::absent_no_text, crate::proofs::FailLemmas::memory_no_text))]
fn write_part<'a, W: Write>(
    alloc: Global,
    run: &Run,
    end: u64,
    paths: Paths<'a>,
    options: &Options<'a>,
    out: &mut W,
) -> Result<u8, Failure<'a>>
    ensures status { IfOk result (λ status. (status ≡ 0) ⊎ (status ≡ 3)) }
    ensures failure { IfErr result IsNoText }
{
    let choice = chosen(alloc, run, end, paths, options)?;
    let events = events_up_to(alloc, run.events.list(), choice.last)?;
    if options.view == View::Json {
        write_json(alloc, run, &events, choice, options, out)
    } else {
        write_rows(alloc, run, &events, choice, options, out)
    }
}

/// Writes what is asked for of a run, and answers the status: 0 if all was shown, and 3 if an alert has stopped the
/// machine by then. `paths` names the texts in sentences and titles. Options that the view does not take are ignored.
///
/// # Errors
///
/// `NoMemory` if memory is refused, `Absent` if the run does not have what is asked for, `Picture` if the part cannot
/// be drawn, and `WriteFailed` if the writer does not take all.
///
/// Source: project rule.
#[tactic(auto, using(crate::proofs::FailLemmas::picture_no_text, crate::proofs::FailLemmas::writing_no_text))]
pub fn write_run<'a, W: Write>(
    alloc: Global,
    run: &Run,
    paths: Paths<'a>,
    options: &Options<'a>,
    out: &mut W,
) -> Result<u8, Failure<'a>>
    ensures status { IfOk result (λ status. (status ≡ 0) ⊎ (status ≡ 3)) }
    ensures failure { IfErr result IsNoText }
{
    let end = last_number(run.events.list());
    let status = match options.view {
        View::State(number) => write_state(alloc, run, end, paths, number, out)?,
        View::Svg | View::Chrome => status_of(write_picture(alloc, run, end, paths, options, out)?),
        _ => write_part(alloc, run, end, paths, options, out)?,
    };
    write_text(&[], out)?;
    Ok(status)
}

/// Writes what is asked for of a run, unless the first step of it is after the alert that ended the run.
#[tactic(auto, using(crate::proofs::FailLemmas::absent_no_text))]
fn write_of_run<'a, W: Write>(
    alloc: Global,
    run: &Run,
    paths: Paths<'a>,
    options: &Options<'a>,
    out: &mut W,
) -> Result<u8, Failure<'a>>
    ensures status { IfOk result (λ status. (status ≡ 0) ⊎ (status ≡ 3)) }
    ensures failure { IfErr result IsNoText }
{
    match check_first(alloc, run, options) {
        Ok(()) => write_run(alloc, run, paths, options, out),
        Err(failure) => Err(failure),
    }
}

/// Reads the texts and writes what is asked for.
#[tactic(auto, using(crate::proofs::FailLemmas::runs_some, crate::proofs::FailLemmas::refused_texts, crate::proofs::FailLemmas::not_refused))]
fn write_asked<'a, T: Texts, W: Write>(
    texts: &T,
    alloc: Global,
    paths: Paths<'a>,
    options: &Options<'a>,
    out: &mut W,
) -> Result<u8, Failure<'a>>
    ensures status { IfOk result (λ status. (status ≡ 0) ⊎ (status ≡ 3)) }
    ensures runs { OnOk result (RunsSome (T.text_at texts.now)) }
    ensures refused { IfErr result (λ why. status_of why ≡ 1 → RefusesSome (T.text_at texts.now)) }
    ensures untouched { IfErr result (λ why. status_of why ≡ 1 → out.new ≡ out.old) }
{
    match read_run(texts, alloc, paths) {
        Ok(run) => write_of_run(alloc, &run, paths, options, out),
        Err(failure) => Err(failure),
    }
}

/// Writes the help, and flushes it.
fn write_help<W: Write>(error: &clap::Error, out: &mut W) -> io::Result<()> {
    write!(out, "{error}")?;
    out.flush()
}

/// Answers a command line that asks for nothing: the help, or why it is refused.
fn answer_without_work<W: Write, E: Write>(error: &clap::Error, out: &mut W, err: &mut E) -> u8
    ensures status { (result ≡ 0) ⊎ (result ≡ 2) ⊎ (result ≡ 4) }
    ensures silent { result ≡ 0 → err.new ≡ err.old }
{
    if error.kind() == ErrorKind::OutOfMemory {
        return report(&Failure::NoMemory, err);
    }
    if error.use_stderr() {
        let _ = write!(err, "{error}");
        return COMMAND_LINE_REFUSED;
    }
    match write_help(error, out) {
        Ok(()) => DONE,
        Err(_) => report(&Failure::WriteFailed, err),
    }
}

/// Refuses a command line that asks for what no option takes, or because memory was refused.
#[tactic(auto, using(crate::proofs::FailLemmas::words_end))]
fn refuse<E: Write>(failure: &Failure<'_>, err: &mut E) -> u8
    requires { IsOfWords (Refusal.Command failure.now) }
    ensures { (result ≡ 2) ⊎ (result ≡ 4) }
{
    report(failure, err)
}

/// Does what is asked for, says on standard error why it was not done, if it was not, and answers the status.
fn end_asked<T: Texts, W: Write, E: Write>(
    texts: &T,
    alloc: Global,
    paths: Paths<'_>,
    options: &Options<'_>,
    out: &mut W,
    err: &mut E,
) -> u8
    ensures status { result ≤ 4 }
    ensures runs { (result ≡ 0) ⊎ (result ≡ 3) → RunsSome (T.text_at texts.now) }
    ensures refused_text { result ≡ 1 → RefusesSome (T.text_at texts.now) × (out.new ≡ out.old) }
    ensures silent { (result ≡ 0) ⊎ (result ≡ 3) → err.new ≡ err.old }
{
    match write_asked(texts, alloc, paths, options, out) {
        Ok(status) => status,
        Err(failure) => report(&failure, err),
    }
}

/// Does what the words of a command line ask for, over any texts, and answers the status: 0 if all was shown and after
/// the help, 1 if a text is refused, 2 if the command line is, 3 if an alert has stopped the machine, and 4 if memory,
/// reading or writing failed.
///
/// Source: project rule.
pub fn run_on_texts<T: Texts, W: Write, E: Write>(
    texts: &T,
    alloc: Global,
    words: &[&str],
    out: &mut W,
    err: &mut E,
) -> u8
    ensures status { result ≤ 4 }
    ensures alerted { result ≡ 3 → RunsSome (T.text_at texts.now) }
    ensures refused_text { result ≡ 1 → RefusesSome (T.text_at texts.now) × (out.new ≡ out.old) }
    ensures silent { (result ≡ 0) ⊎ (result ≡ 3) → err.new ≡ err.old }
{
    match asked_by(alloc, words) {
        Err(Refusal::Words(error)) => answer_without_work(&error, out, err),
        Err(Refusal::Command(failure)) => refuse(&failure, err),
        Ok((paths, options)) => end_asked(texts, alloc, paths, &options, out, err),
    }
}

/// Runs the command on the process's arguments, with a buffer before `out`.
fn run_buffered<R: Env + Files + AllocGlobal, W: Write + Drop, E: Write>(
    rt: &R,
    out: W,
    err: &mut E,
) -> io::Result<u8>
    ensures status { IfOk result (λ status. status ≤ 4) }
    ensures silent { IfOk result (λ status. (status ≡ 0) ⊎ (status ≡ 3) → err.new ≡ err.old) }
{
    let alloc = rt.alloc();
    let arguments: Vec<String> = env::args(rt)?.skip(1).collect(alloc)?;
    let words: Vec<&str> = arguments.iter().map(|word| word.as_str()).collect(alloc)?;
    let mut out = BufWriter::with_capacity(alloc, OUTPUT_BUFFER, out)?;
    let status = run_on_texts(&SystemTexts(rt), alloc, &words, &mut out, err);
    // All was flushed by now, or a write failed: what is left then is not handed over once more.
    let _unwritten = out.into_parts();
    Ok(status)
}

/// Runs the command on the process's arguments, and answers the status with which it ends. Arguments that are not text
/// are refused as a command line is.
///
/// Source: project rule.
pub fn run_on_arguments<R: Env + Files + AllocGlobal, W: Write + Drop, E: Write>(
    rt: &R,
    out: W,
    err: &mut E,
) -> u8
    ensures status { result ≤ 4 }
    ensures silent { (result ≡ 0) ⊎ (result ≡ 3) → err.new ≡ err.old }
{
    match run_buffered(rt, out, err) {
        Ok(status) => status,
        Err(error) => {
            if error.kind() == io::ErrorKind::OutOfMemory {
                return report(&Failure::NoMemory, err);
            }
            match not_text_error(rt.alloc()) {
                Ok(error) => {
                    let _ = write!(err, "{error}");
                    COMMAND_LINE_REFUSED
                }
                Err(_) => report(&Failure::NoMemory, err),
            }
        }
    }
}
