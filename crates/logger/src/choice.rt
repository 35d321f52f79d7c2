//! What the options choose of a run, or why the run does not have it.

ghost use Rattle.std.specs.Prelude.{◌≡◌, ◌<◌, ◌≤◌, IfErr, IfOk, OnErr, OnOk, is_some, unwrap_or};
ghost use Rattle.logger.specs.{Choosing.Chooses, Choosing.IsPast, Choosing.IsWithin, Failing.IsAbsent};

use crate::command_line::Paths;
use crate::failure::Failure;
use crate::options::Options;
use escape::Shown;
use execlog::{Body, Book, Filter, Who};
use logforms::Run;
use std::alloc::{AllocError, Global};

/// A part of a run.
#[derive(Clone, Copy)]
pub struct Choice {
    /// Which rows are shown.
    pub filter: Filter,
    /// The number of the last step that is run.
    pub last: u64,
}

/// The number that an option gives, if the run has a step of that number.
///
/// # Errors
///
/// `Absent` if the run ends before it.
///
/// Source: project rule.
pub fn number_within<'a>(
    alloc: Global,
    option: &str,
    number: u64,
    last: u64,
) -> Result<u64, Failure<'a>>
    ensures number { IfOk result (λ n. n ≡ number) }
    ensures within { OnOk result (number ≤ last) }
    ensures past { OnErr result (last < number) }
    ensures failure { IfErr result IsAbsent }
{
    if number <= last {
        return Ok(number);
    }
    Err(absent(format!(in alloc;
        "{option} {number}: the run ends with step {last}; give a number from 0 to {last}, or add events"
    )))
}

/// The failure of what the run does not have, by the sentence that says what it has, if there is memory for that.
fn absent<'a>(sentence: Result<String, AllocError>) -> Failure<'a>
    ensures { IsAbsent result }
{
    match sentence {
        Ok(sentence) => Failure::Absent(sentence),
        Err(_) => Failure::NoMemory,
    }
}

/// Refuses a first step that is after the last one.
fn check_order<'a>(alloc: Global, from: u64, to: u64) -> Result<(), Failure<'a>>
    ensures order { OnOk result (from ≤ to) }
    ensures failure { IfErr result IsAbsent }
{
    if from <= to {
        return Ok(());
    }
    Err(absent(format!(in alloc;
        "--from {from} is after --to {to}; give a --from that is not greater than --to"
    )))
}

/// The nearest line below `line` with a command, and the nearest above it.
fn neighbours(book: &Book, line: u64) -> (Option<u32>, Option<u32>) {
    let mut below = None;
    let mut above = None;
    for body in book.tasks.iter().chain(book.interrupts.iter()) {
        for place in &body.places {
            if let Some(number) = place.line {
                if u64::from(number) < line {
                    below = below.max(Some(number));
                } else {
                    above = nearer(above, number);
                }
            }
        }
    }
    (below, above)
}

/// The lesser of a number that may be absent and another.
fn nearer(one: Option<u32>, other: u32) -> Option<u32> {
    match one {
        None => Some(other),
        Some(one) => Some(one.min(other)),
    }
}

/// Whether a body has a command in a line.
fn has_line(bodies: &[Body], line: u64) -> bool {
    bodies.iter().any(|body| {
        body.places.iter().any(|place| match place.line {
            None => false,
            Some(number) => u64::from(number) == line,
        })
    })
}

/// What is said of a line that has no command.
fn no_command(alloc: Global, book: &Book, path: &str, line: u64) -> Result<String, AllocError> {
    let path = Shown(path);
    match neighbours(book, line) {
        (None, None) => format!(in alloc; "--at {line}: {path} has no command"),
        (Some(below), None) => format!(in alloc;
            "--at {line}: line {line} of {path} has no command; the last line that has one is {below}"
        ),
        (None, Some(above)) => format!(in alloc;
            "--at {line}: line {line} of {path} has no command; the first line that has one is {above}"
        ),
        (Some(below), Some(above)) => format!(in alloc;
            "--at {line}: line {line} of {path} has no command; the nearest lines that have one are {below} and {above}"
        ),
    }
}

/// The line that `--at` gives, if a command is in it.
fn line_asked<'a>(
    alloc: Global,
    book: &Book,
    path: &str,
    at: Option<u64>,
) -> Result<Option<u32>, Failure<'a>>
    ensures line { IfOk result (λ line. line ≡ at) }
    ensures failure { IfErr result IsAbsent }
{
    let Some(line) = at else { return Ok(None) };
    let has_one = has_line(&book.tasks, line) || has_line(&book.interrupts, line);
    match u32::try_from(line) {
        Ok(small) if has_one => Ok(Some(small)),
        _ => Err(absent(no_command(alloc, book, path, line))),
    }
}

/// Adds the names of some bodies.
fn push_names(sentence: &mut String, bodies: &[Body], is_first: bool) -> Result<(), AllocError> {
    let mut is_first = is_first;
    for body in bodies {
        if !is_first {
            sentence.push_str(", ")?;
        }
        is_first = false;
        sentence.push_str(body.name.as_str())?;
    }
    Ok(())
}

/// What is said of a name that nobody has.
fn no_name(alloc: Global, book: &Book, path: &str, name: &str) -> Result<String, AllocError> {
    let path = Shown(path);
    let name = Shown(name);
    let mut sentence = format!(in alloc;
        "--task {name}: no task, server or software interrupt of {path} has that name; "
    )?;
    if book.tasks.is_empty() && book.interrupts.is_empty() {
        sentence.push_str("it has none")?;
        return Ok(sentence);
    }
    sentence.push_str("the names are ")?;
    push_names(&mut sentence, &book.tasks, true)?;
    push_names(&mut sentence, &book.interrupts, book.tasks.is_empty())?;
    Ok(sentence)
}

/// Who has a name.
fn named(book: &Book, name: &str) -> Option<Who> {
    let name = name.as_bytes();
    match book.task_named(name) {
        Some(task) => Some(Who::Task(task)),
        None => match book.interrupt_named(name) {
            Some(number) => Some(Who::Interrupt(number)),
            None => None,
        },
    }
}

/// Who is asked for by `--task`.
fn who_asked<'a>(
    alloc: Global,
    book: &Book,
    path: &str,
    task: Option<&str>,
) -> Result<Option<Who>, Failure<'a>>
    ensures who { IfOk result (λ who. is_some who ≡ is_some task.entry) }
    ensures failure { IfErr result IsAbsent }
{
    let Some(name) = task else { return Ok(None) };
    match named(book, name) {
        Some(who) => Ok(Some(who)),
        None => Err(absent(no_name(alloc, book, path, name))),
    }
}

/// The number that an option gives, if the run has a step of that number, or another if the option is not given.
///
/// # Errors
///
/// `Absent` if the run ends before it.
///
/// Source: project rule.
pub fn number_or<'a>(
    alloc: Global,
    option: &str,
    number: Option<u64>,
    last: u64,
    other: u64,
) -> Result<u64, Failure<'a>>
    ensures number { IfOk result (λ n. n ≡ unwrap_or number other) }
    ensures within { OnOk result (IsWithin number last) }
    ensures past { OnErr result (IsPast number last) }
    ensures failure { IfErr result IsAbsent }
{
    match number {
        None => Ok(other),
        Some(number) => number_within(alloc, option, number, last),
    }
}

/// What the options choose of a run, of which the last step has the number `end`.
///
/// # Errors
///
/// `Absent` if the run has no step of a number, no command in a line or no one of a name.
///
/// Source: project rule.
pub fn chosen<'a>(
    alloc: Global,
    run: &Run,
    end: u64,
    paths: Paths<'a>,
    options: &Options<'a>,
) -> Result<Choice, Failure<'a>>
    ensures choice { IfOk result (Chooses options.now end) }
    ensures failure { IfErr result IsAbsent }
{
    let from = number_or(alloc, "--from", options.from, end, 0)?;
    let last = number_or(alloc, "--to", options.to, end, end)?;
    check_order(alloc, from, last)?;
    let at = line_asked(alloc, &run.book, paths.machine, options.at)?;
    let by = who_asked(alloc, &run.book, paths.machine, options.task)?;
    Ok(Choice {
        filter: Filter { from, at, by },
        last,
    })
}
