//! The command line: options and two paths.

ghost use Rattle.std.specs.Prelude.{◌≡◌, IfErr, IfOk, OnOk};
ghost use Rattle.logger.specs.Asking.{GoesWith, IsOfOption, IsOfWords, picks, selects};

use crate::failure::Failure;
use crate::options::{Options, View, number_in};
use clap::error::ErrorKind;
use clap::{Arg, ArgAction, ArgMatches, Command, Error};
use escape::{HIDDEN_WORD, words_if_hidden};
use std::alloc::{AllocError, Global};

/// The paths of a command line.
#[derive(Clone, Copy)]
pub struct Paths<'a> {
    /// Where the machine file is.
    pub machine: &'a str,
    /// Where the event text is.
    pub events: &'a str,
}

/// Why a command line gives nothing to do.
#[derive(Drop)]
pub enum Refusal<'a> {
    /// What `clap` says.
    Words(Error),
    /// What the command says.
    Command(Failure<'a>),
}

impl From<AllocError> for Refusal<'_> {
    ghost use Rattle.logger.specs.declared.command_line.Refusal.TheVariants.{Command};
    ghost use Rattle.logger.specs.declared.failure.Failure.TheVariants.{NoMemory};

    ghost from_gives = { λ _ refusal. refusal ≡ Command NoMemory };

    fn from(_error: AllocError) -> Self {
        Refusal::Command(Failure::NoMemory)
    }
}

impl From<Error> for Refusal<'_> {
    fn from(error: Error) -> Self {
        Refusal::Words(error)
    }
}

impl<'a> From<Failure<'a>> for Refusal<'a> {
    ghost use Rattle.logger.specs.declared.command_line.Refusal.TheVariants.{Command};

    ghost from_gives = { λ failure refusal. refusal ≡ Command failure };

    fn from(failure: Failure<'a>) -> Self {
        Refusal::Command(failure)
    }
}

/// An option that takes a value.
fn option<'a>(alloc: Global, name: &'a str, value: &'a str, help: &'a str) -> Arg<'a> {
    Arg::new(alloc, name)
        .long(name)
        .value_name(value)
        .allow_hyphen_values(true)
        .action(ArgAction::Set)
        .help(help)
}

/// An option that takes none.
fn flag<'a>(alloc: Global, name: &'a str, help: &'a str) -> Arg<'a> {
    Arg::new(alloc, name)
        .long(name)
        .action(ArgAction::SetTrue)
        .help(help)
}

/// A path.
fn path<'a>(alloc: Global, name: &'a str, help: &'a str) -> Arg<'a> {
    Arg::new(alloc, name)
        .required(true)
        .action(ArgAction::Set)
        .help(help)
}

/// The command without its options, whose words are given without its own name.
fn bare_command<'a>(alloc: Global) -> Result<Command<'a>, AllocError> {
    let machine = path(alloc, "MACHINE", "The machine file, in TOML");
    let events = path(alloc, "EVENTS", "The event text, an event a line");
    Command::new(alloc, "execlog")
        .about("Prints the trace of a run, each line with its step, time, place and command")
        .override_usage("execlog [OPTIONS] MACHINE EVENTS")
        .after_help(
            "Example: `execlog --task daemon --from 30 daemon.toml daemon.events` shows what\ndaemon does from step 30 on, and\n`execlog --state 30 daemon.toml daemon.events` all that the machine shows after\nstep 30.\n\nexeclog --version, with nothing else, prints the version.",
        )
        .no_binary_name(true)
        .arg(machine)?
        .arg(events)
}

/// The command with the options that choose a form.
fn command_of_forms<'a>(alloc: Global) -> Result<Command<'a>, AllocError> {
    bare_command(alloc)?
        .arg(flag(
            alloc,
            "plain-words",
            "Shows also the words that print nothing, each after a tilde",
        ))?
        .arg(flag(alloc, "json", "Prints one JSON object a line"))?
        .arg(flag(alloc, "svg", "Prints a picture of the run"))?
        .arg(flag(
            alloc,
            "chrome",
            "Prints the run in the Trace Event Format, for Perfetto",
        ))?
        .arg(option(
            alloc,
            "state",
            "N",
            "Prints no log, but the machine after step N; 0 is the start",
        ))
}

/// The command.
fn command<'a>(alloc: Global) -> Result<Command<'a>, AllocError> {
    command_of_forms(alloc)?
        .arg(option(
            alloc,
            "from",
            "S",
            "Shows the run from step S on [default: 0]",
        ))?
        .arg(option(
            alloc,
            "to",
            "S",
            "Shows the run up to step S [default: the last one]",
        ))?
        .arg(option(
            alloc,
            "at",
            "LINE",
            "Shows only what the commands in that line of MACHINE do",
        ))?
        .arg(option(
            alloc,
            "task",
            "NAME",
            "Shows only that task, server or software interrupt",
        ))
}

/// The number that an option has, if it is given.
fn number_given<'a>(
    matches: &ArgMatches<'a>,
    name: &str,
    sentence: &'static str,
) -> Result<Option<u64>, Failure<'a>>
    ensures { IfErr result IsOfOption }
{
    match matches.get_str(name) {
        None => Ok(None),
        Some(word) => match number_in(word) {
            None => Err(Failure::Option(sentence)),
            Some(number) => Ok(Some(number)),
        },
    }
}

/// How many forms are asked for.
fn forms_given(matches: &ArgMatches<'_>, state: Option<u64>) -> u32 {
    u32::from(matches.get_flag("json"))
        .saturating_add(u32::from(matches.get_flag("svg")))
        .saturating_add(u32::from(matches.get_flag("chrome")))
        .saturating_add(u32::from(state.is_some()))
}

/// What is asked for: the form.
fn view_given<'a>(matches: &ArgMatches<'a>) -> Result<View, Failure<'a>>
    ensures { IfErr result IsOfOption }
{
    let state = number_given(
        matches,
        "state",
        "--state takes the number of a step: 0 is the start, and a log has the others in its first column",
    )?;
    if forms_given(matches, state) > 1 {
        return Err(Failure::Option(
            "--json, --svg, --chrome and --state are forms: give one of them",
        ));
    }
    if let Some(number) = state {
        return Ok(View::State(number));
    }
    if matches.get_flag("json") {
        Ok(View::Json)
    } else if matches.get_flag("svg") {
        Ok(View::Svg)
    } else if matches.get_flag("chrome") {
        Ok(View::Chrome)
    } else {
        Ok(View::Rows)
    }
}

/// Whether the first or the last step is named.
fn selects(options: &Options<'_>) -> bool
    ensures { result ≡ selects options.now }
{
    options.from.is_some() || options.to.is_some()
}

/// Whether only what is at a line or what one does is shown, or also the words that print nothing.
fn picks(options: &Options<'_>) -> bool
    ensures { result ≡ picks options.now }
{
    options.at.is_some() || options.task.is_some() || options.plain_words
}

/// Refuses options that a form does not take.
fn check_options<'a>(options: &Options<'a>) -> Result<(), Failure<'a>>
    ensures allowed { OnOk result (GoesWith options.now.view options.now) }
    ensures failure { IfErr result IsOfOption }
{
    let selects = selects(options);
    let picks = picks(options);
    match options.view {
        View::Rows | View::Json => Ok(()),
        View::State(_) => {
            if selects || picks {
                Err(Failure::Option(
                    "--state shows one point in time: it takes no --from, --to, --at, --task or --plain-words",
                ))
            } else {
                Ok(())
            }
        }
        View::Svg | View::Chrome => {
            if picks {
                Err(Failure::Option(
                    "--svg and --chrome show all tasks: they take --from and --to, and no --at, --task or --plain-words",
                ))
            } else {
                Ok(())
            }
        }
    }
}

/// What the options ask for.
fn options_in<'a>(matches: &ArgMatches<'a>) -> Result<Options<'a>, Failure<'a>>
    ensures allowed { IfOk result (λ options. GoesWith options.view options) }
    ensures failure { IfErr result IsOfOption }
{
    let options = Options {
        view: view_given(matches)?,
        plain_words: matches.get_flag("plain-words"),
        from: number_given(
            matches,
            "from",
            "--from takes the number of a step: 0 is the start, and a log has the others in its first column",
        )?,
        to: number_given(
            matches,
            "to",
            "--to takes the number of a step: 0 is the start, and a log has the others in its first column",
        )?,
        at: number_given(
            matches,
            "at",
            "--at takes the number of a line of the machine file, from 1",
        )?,
        task: matches.get_str("task"),
    };
    check_options(&options)?;
    Ok(options)
}

/// Parses words as they are shown.
fn parse_shown(alloc: Global, words: &[String]) -> Result<(), Error> {
    let _matches = command(alloc)?.try_get_matches_from(words)?;
    Ok(())
}

/// A refusal of a kind that has none of the words.
fn bare_error(alloc: Global, kind: ErrorKind) -> Result<Error, AllocError> {
    command(alloc)?.error(kind, HIDDEN_WORD)
}

/// An error, if it is of a kind, or a refusal of that kind that has none of the words.
fn error_of_kind(alloc: Global, error: Error, kind: ErrorKind) -> Result<Error, AllocError> {
    if error.kind() == kind {
        return Ok(error);
    }
    bare_error(alloc, kind)
}

/// What `clap` answers to words as they are shown, if it refuses them as they were refused, or a refusal that has none
/// of them.
fn error_over(alloc: Global, words: &[String], kind: ErrorKind) -> Result<Error, AllocError> {
    match parse_shown(alloc, words) {
        Ok(()) => bare_error(alloc, kind),
        Err(error) => error_of_kind(alloc, error, kind),
    }
}

/// What `clap` answers to some words, with the words as they are shown.
fn error_shown(alloc: Global, words: &[&str], error: Error) -> Result<Error, AllocError> {
    match words_if_hidden(alloc, words)? {
        None => Ok(error),
        Some(shown) => error_over(alloc, shown.as_slice(), error.kind()),
    }
}

/// What the matches of a command line ask for.
#[tactic(auto, using(crate::proofs::FailLemmas::of_option))]
fn asked_of<'a>(matches: &ArgMatches<'a>) -> Result<(Paths<'a>, Options<'a>), Refusal<'a>>
    ensures allowed { IfOk result (λ asked. GoesWith asked.1.view asked.1) }
    ensures refusal { IfErr result IsOfWords }
{
    let (Some(machine), Some(events)) = (matches.get_str("MACHINE"), matches.get_str("EVENTS"))
    else {
        return Err(Refusal::Command(Failure::Option(
            "two paths are wanted, MACHINE and EVENTS; see execlog --help",
        )));
    };
    match options_in(matches) {
        Ok(options) => Ok((Paths { machine, events }, options)),
        Err(failure) => Err(Refusal::Command(failure)),
    }
}

/// What the words of a command line ask for.
///
/// # Errors
///
/// What `clap` answers, and a value that an option does not take.
///
/// Source: project rule.
#[tactic(auto, using(crate::proofs::FailLemmas::words_by_memory))]
pub fn asked_by<'a>(
    alloc: Global,
    words: &'a [&'a str],
) -> Result<(Paths<'a>, Options<'a>), Refusal<'a>>
    ensures allowed { IfOk result (λ asked. GoesWith asked.1.view asked.1) }
    ensures refusal { IfErr result IsOfWords }
{
    match command(alloc)?.try_get_matches_from(words) {
        Ok(matches) => asked_of(&matches),
        Err(error) => Err(Refusal::Words(error_shown(alloc, words, error)?)),
    }
}

/// The error of a command line whose words are not text.
///
/// Source: project rule.
pub fn not_text_error(alloc: Global) -> Result<Error, AllocError> {
    command(alloc)?.error(
        ErrorKind::InvalidValue,
        "invalid UTF-8 was detected in one or more arguments",
    )
}
