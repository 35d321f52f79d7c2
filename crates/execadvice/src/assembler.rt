//! Lines of an assembler of the 68000: an operation, its source and its target, as `move.l #5,d0`.

use crate::made::Made;
use std::alloc::Global;

/// The word for an operation with a source and a target. It is in small letters.
fn word_of_operation(name: &str) -> Option<&'static str> {
    match name {
        "move" | "move.l" | "move.w" | "move.b" | "movea.l" | "moveq" | "moveq.l" => Some("Set"),
        "addq" | "addq.l" | "addq.w" | "addi" | "addi.l" | "add.l" | "add.w" | "adda.l" => {
            Some("Add")
        }
        "subq" | "subq.l" | "subq.w" | "subi" | "subi.l" | "sub.l" | "sub.w" | "suba.l" => {
            Some("Sub")
        }
        "andi" | "andi.l" | "and.l" | "and.w" => Some("And"),
        "ori" | "ori.l" | "or.l" | "or.w" => Some("Or"),
        _ => None,
    }
}

/// Whether a name is that of an operation with a source and a target.
pub(crate) fn is_operation(alloc: Global, name: &str) -> Made<bool> {
    let lower = name.to_ascii_lowercase(alloc)?;
    Ok(word_of_operation(lower.as_str()).is_some())
}

/// What is meant by a line of an assembler with these parts, an operation, its source and its target: the target comes
/// first here, with `=`.
pub(crate) fn assembled(alloc: Global, parts: &[&str]) -> Made<Option<String>> {
    let [name, source, target] = parts else {
        return Ok(None);
    };
    let lower = name.to_ascii_lowercase(alloc)?;
    match word_of_operation(lower.as_str()) {
        None => Ok(None),
        Some("Set") => Ok(Some(format!(in alloc; "{target} = Set {source}")?)),
        Some(word) => Ok(Some(format!(in alloc; "{target} = {word} {target} {source}")?)),
    }
}
