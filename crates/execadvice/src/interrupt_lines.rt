//! Lines that may not be in the body of an interrupt.

use crate::made::Made;
use crate::proposal::fix_of_line;
use crate::said::{Said, label_of, said_by};
use crate::show::Advice;
use crate::variables::{is_shared, is_variable};
use script::is_word_of_interrupt;
use std::alloc::Global;
use taskscript::line_in;
use toml::Value;

/// The words that the body of an interrupt may have.
const WORDS_OF_INTERRUPTS: &str =
    "Set, Add, Sub, And, Or, Print, Signal, Cause, PutMsg, GetMsg and ReplyMsg";

/// Why a word, or something else, may not be in the body of an interrupt.
pub(crate) fn lacked_in_interrupt(alloc: Global, what: &str) -> Made<String> {
    format!(in alloc; "the code of an interrupt has no {what}; it may have {WORDS_OF_INTERRUPTS}")
}

/// Whether a part is a private variable.
fn is_private(part: &str) -> bool {
    is_variable(part) && !is_shared(part)
}

/// A line with shared variables in place of the private ones.
fn shared_line(alloc: Global, line: &str, said: &Said<'_>) -> Made<String> {
    let values = said.values(alloc)?;
    let mut out = String::new(alloc);
    for (i, field) in line.split(' ').enumerate() {
        if i > 0 {
            out.push(' ')?;
        }
        if is_private(field) && values.iter().any(|value| value.0 == i) {
            out.push('@')?;
        }
        out.push_str(field)?;
    }
    Ok(out)
}

/// Why a line with a word may not be in the body of an interrupt, if it may not.
fn word_advice(alloc: Global, line: &str, said: &Said<'_>) -> Made<Option<Advice>> {
    if !is_word_of_interrupt(said.word) {
        let reason = lacked_in_interrupt(alloc, said.word.text())?;
        return Ok(Some(Advice::of_field(line, said.place_of_word(), reason, None)));
    }
    for (place, name) in &said.values(alloc)? {
        if is_private(*name) {
            let sentence = "an interrupt's code may use shared variables only";
            let reason = String::from_str(alloc, sentence)?;
            let shared = shared_line(alloc, line, said)?;
            let fix = fix_of_line(alloc, line, *place, shared.as_str())?;
            return Ok(Some(Advice::of_field(line, *place, reason, fix)));
        }
    }
    Ok(None)
}

/// Why a line may not be in the body of an interrupt, if it may not.
fn interrupt_advice(alloc: Global, line: &str) -> Made<Option<Advice>> {
    if label_of(line).is_some() {
        let reason = format!(in alloc;
            "the code of an interrupt has no label: it has no jumps, and runs straight to its end"
        )?;
        return Ok(Some(Advice::of_field(line, 0, reason, None)));
    }
    match said_by(alloc, line)? {
        None => Ok(None),
        Some(said) => word_advice(alloc, line, &said),
    }
}

/// Whether a line, which says something, may be in the body of an interrupt.
pub(crate) fn may_be_in_interrupt(alloc: Global, line: &str) -> Made<bool> {
    Ok(interrupt_advice(alloc, line)?.is_none())
}

/// The part of the first line of the body of an interrupt that may not be there, and why: it is a label, its word is
/// none that an interrupt may have, or the part is a private variable. None if all may.
pub fn not_in_interrupt(alloc: Global, lines: &[Value]) -> Made<Option<Advice>> {
    for item in lines {
        if let Some(advice) = interrupt_advice(alloc, line_in(item))? {
            return Ok(Some(advice));
        }
    }
    Ok(None)
}
