//! The words that print nothing in a trace, as lines: `NAME x = Add $00000001 $00000002 -> $00000003`, and of a jump
//! the line of the file to which it goes.

use crate::page::Page;
use crate::replay::Replay;
use crate::values::{push_number, push_word};
use execlog::{Body, Place};
use script::{Argument, Command, PlainWord, Variable, Word};
use std::alloc::{AllocError, Global};
use taskscript::{BodyListing, Listing};

/// The names of the variables of a body.
#[derive(Clone, Copy)]
pub struct Names<'a> {
    /// Those that all bodies share.
    pub listing: &'a Listing,
    /// Those of the body.
    pub body: &'a BodyListing,
}

/// Adds the name of a variable.
///
/// Source: project rule.
pub fn push_name(line: &mut Page, names: Names<'_>, variable: Variable) {
    match variable {
        Variable::Private(n) => match names.body.private_name(n) {
            None => {}
            Some(name) => line.push_str(name.as_str()),
        },
        Variable::Shared(n) => {
            line.push_str("@");
            match names.listing.shared_name(n) {
                None => {}
                Some(name) => line.push_str(name.as_str()),
            }
        }
    }
}

/// Adds the values of the arguments.
fn push_arguments(line: &mut Page, replay: &Replay, command: &Command) {
    for (i, argument) in command
        .arguments
        .iter()
        .enumerate()
        .take(command.count as usize)
    {
        if let Argument::Number(_) | Argument::Variable(_) = argument {
            line.push_str(" ");
            push_word(line, replay.argument(command, i));
        }
    }
}

/// Whether a jump is made.
fn jumps(word: PlainWord, replay: &Replay, command: &Command) -> bool {
    match word {
        PlainWord::Jump => true,
        PlainWord::JumpZ => replay.argument(command, 0) == 0,
        PlainWord::JumpNZ => replay.argument(command, 0) != 0,
        _ => false,
    }
}

/// The place to which a command jumps.
fn target_of(command: &Command) -> Option<usize> {
    for argument in command.arguments.iter().take(command.count as usize) {
        if let Argument::Place(place) = argument {
            return Some(*place as usize);
        }
    }
    None
}

/// Adds the line of the file at which a body goes on, or `end`.
fn push_target(line: &mut Page, body: &Body, command: &Command) {
    let Some(place) = target_of(command) else {
        return;
    };
    line.push_str(" -> ");
    match body.places.get(place) {
        None => line.push_str("end"),
        Some(place) => match place.line {
            None => line.push_str("its label"),
            Some(number) => {
                line.push_str(":");
                push_number(line, u64::from(number));
            }
        },
    }
}

/// Adds what a word does, and does it.
fn push_effect(
    line: &mut Page,
    body: &Body,
    replay: &mut Replay,
    word: PlainWord,
    command: &Command,
) {
    if target_of(command).is_some() {
        if jumps(word, replay, command) {
            push_target(line, body, command);
        }
        return;
    }
    let value = replay.result(word, command);
    if let Some(target) = command.target {
        replay.set(target, value);
    }
    line.push_str(" -> ");
    push_word(line, value);
}

/// The line of a command that prints nothing, and does it.
///
/// # Errors
///
/// When memory is refused.
///
/// Source: project rule.
pub fn line_of(
    alloc: Global,
    body: &Body,
    names: Names<'_>,
    replay: &mut Replay,
    place: &Place,
) -> Result<String, AllocError> {
    let command = place.command;
    let mut line = Page::new(alloc);
    line.push_str(body.name.as_str());
    line.push_str(" ");
    if let Some(target) = command.target {
        push_name(&mut line, names, target);
        line.push_str(" = ");
    }
    line.push_str(command.word.text());
    push_arguments(&mut line, replay, &command);
    if let Word::Plain(word) = command.word {
        push_effect(&mut line, body, replay, word, &command);
    }
    line.finish()
}
