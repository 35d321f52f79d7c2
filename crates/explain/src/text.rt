//! A section as it is printed.

use crate::section::{Example, Section};
use std::alloc::{AllocError, Global};

/// Adds a text, each line after some spaces, and an empty line.
fn push_text(out: &mut String, text: &str) -> Result<(), AllocError> {
    for line in text.lines() {
        out.push_str(if line.is_empty() { "" } else { "    " })?;
        out.push_str(line)?;
        out.push_str("\n")?;
    }
    out.push_str("\n")
}

/// Adds the texts of an example after a sentence, if there is one.
fn push_example(
    out: &mut String,
    sentence: &str,
    example: Option<Example>,
) -> Result<(), AllocError> {
    let Some(example) = example else {
        return Ok(());
    };
    out.push_str(sentence)?;
    out.push_str("\n\n")?;
    push_text(out, example.machine)?;
    match example.events {
        None => Ok(()),
        Some(events) => {
            out.push_str("with the events\n\n")?;
            push_text(out, events)
        }
    }
}

/// A section as it is printed: its name and title, what there is to know of it, and its examples.
///
/// # Errors
///
/// If memory is refused.
pub fn section_text(alloc: Global, section: &Section) -> Result<String, AllocError> {
    let (name, title, text) = (section.name, section.title, section.text);
    let mut out = format!(in alloc; "{name}: {title}\n\n{text}\n\n")?;
    push_example(&mut out, "These texts have it:", section.shows)?;
    push_example(&mut out, "These do not:", section.mended)?;
    Ok(out)
}
