//! How text of a file is shown: each character that a terminal obeys or does not show is written as an escape.

use crate::made::Made;
use escape::{ShownCharacter, is_hidden};
use std::alloc::Global;

/// Adds a character as it is shown, and answers how many columns that takes.
pub fn push_character(alloc: Global, out: &mut String, c: char) -> Made<usize> {
    if !is_hidden(c) {
        out.push(c)?;
        return Ok(1);
    }
    let escape = format!(in alloc; "{}", ShownCharacter(c))?;
    out.push_str(escape.as_str())?;
    Ok(escape.len())
}

/// The first characters of a text as they are shown, and two dots for those after them.
fn shown_first(alloc: Global, text: &str, most: usize) -> Made<String> {
    let mut out = String::new(alloc);
    for (i, c) in text.chars().enumerate() {
        if i == most {
            out.push_str("..")?;
            break;
        }
        push_character(alloc, &mut out, c)?;
    }
    Ok(out)
}

/// A name of a file as it is shown, without what is after its first 40 characters.
pub fn shown_name(alloc: Global, name: &str) -> Made<String> {
    shown_first(alloc, name, 40)
}

/// What a hidden character is called.
fn name_of_hidden(c: char) -> &'static str {
    match u32::from(c) {
        0x9 => "a tab",
        0xA => "a line feed",
        0xD => "a carriage return",
        0xA0 | 0x202F => "a no-break space",
        0xAD => "a soft hyphen",
        0xFEFF => "a byte order mark",
        0x200B | 0x200C | 0x200D | 0x2060 => "a character of no width",
        0x200E | 0x200F | 0x202A..=0x202E | 0x2066..=0x2069 => "a mark of text direction",
        _ => "a character that is not seen",
    }
}

/// What is to be done about a hidden character.
pub fn hidden_reason(alloc: Global, c: char) -> Made<String> {
    let name = name_of_hidden(c);
    if c.is_whitespace() && c != '\n' && c != '\r' {
        return format!(in alloc; "{name} is here: put one space in its place");
    }
    format!(in alloc; "{name} is here: remove it")
}
