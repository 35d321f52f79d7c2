//! How a text that somebody else wrote, as a path, a word of a command line or a name in a file, is shown on a
//! terminal: each character that a terminal obeys or does not show is written as an escape.
#![tactic(auto)]

ghost use Rattle.std.specs.Prelude.{◌≡◌, ◌&&◌, IfOk, IfSome, Some, map, nat_le, string_bytes};
ghost use Rattle.std.specs.Fmt.{WritesOnOk};
ghost use Rattle.std.specs.List.{list_all, list_any};
ghost use Rattle.std.specs.Str.{chars};
ghost use Rattle.escape.specs.Shown.{is_hidden, is_plain_character, shown};

use std::alloc::{AllocError, Global};
use std::fmt;

/// The characters that are shown as an escape, beside the control characters of Unicode: first and last of each row.
const HIDDEN: [(u32, u32); 18] = [
    // the no-break space, and the soft hyphen
    (0xA0, 0xA0),
    (0xAD, 0xAD),
    // marks of direction, fillers, separators and spaces of other widths
    (0x34F, 0x34F),
    (0x61C, 0x61C),
    (0x115F, 0x1160),
    (0x1680, 0x1680),
    (0x17B4, 0x17B5),
    (0x180B, 0x180F),
    (0x2000, 0x200F),
    (0x2028, 0x202F),
    (0x205F, 0x206F),
    (0x3000, 0x3000),
    (0x3164, 0x3164),
    // variation selectors, the byte order mark and others of no width
    (0xFE00, 0xFE0F),
    (0xFEFF, 0xFEFF),
    (0xFFA0, 0xFFA0),
    (0xFFF0, 0xFFFB),
    // tags, and more variation selectors
    (0xE0000, 0xE0FFF),
];

/// Whether a number is in a row, from its first to its last.
fn is_within(row: (u32, u32), code: u32) -> bool
    ensures { result ≡ (nat_le row.0 code && nat_le code row.1) }
{
    row.0 <= code && code <= row.1
}

/// Whether the rows have a character.
fn is_listed(code: u32) -> bool
    ensures { result ≡ list_any (λ row. nat_le row.0 code && nat_le code row.1) HIDDEN }
{
    HIDDEN.iter().any(|row| is_within(*row, code))
}

/// Whether a character is shown as an escape: a terminal obeys it, or it cannot be seen.
///
/// Source: project rule.
pub fn is_hidden(c: char) -> bool
    ensures { result ≡ is_hidden c }
{
    c.is_control() || is_listed(c as u32)
}

/// A character as its escape: `\t`, `\n`, `\r`, and any other by its number, as `\u{202e}`.
#[derive(Clone, Copy)]
struct Escape(char);

impl fmt::Display for Escape {
    ghost use Rattle.escape.specs.Shown.{escape_of};

    ghost output = { λ e. Some (escape_of e.0) };

    fn fmt<W: fmt::Write>(&self, f: &mut fmt::Formatter<W>) -> fmt::Result {
        match self.0 {
            '\t' => f.write_str("\\t"),
            '\n' => f.write_str("\\n"),
            '\r' => f.write_str("\\r"),
            other => {
                let code = other as u32;
                write!(f, "\\u{{{code:x}}}")
            }
        }
    }
}

/// A character as it is shown.
#[derive(Clone, Copy)]
pub struct ShownCharacter(pub char);

impl fmt::Display for ShownCharacter {
    ghost use Rattle.escape.specs.Shown.{shown_character};

    ghost output = { λ s. Some (shown_character s.0) };

    fn fmt<W: fmt::Write>(&self, f: &mut fmt::Formatter<W>) -> fmt::Result {
        let c = self.0;
        if is_hidden(c) {
            write!(f, "{}", Escape(c))
        } else {
            write!(f, "{c}")
        }
    }
}

/// Writes a text as it is shown.
fn write_shown<W: fmt::Write>(text: &str, f: &mut fmt::Formatter<W>) -> fmt::Result
    ensures { WritesOnOk W.write_str_gives f.old result (shown text.now) f.new }
{
    for c in text.chars() {
        write!(f, "{}", ShownCharacter(c))?;
    }
    Ok(())
}

/// A text as it is shown: a tab as `\t`, a line feed as `\n`, and other characters that a terminal obeys or does not
/// show by their number, as `\u{202e}`. A text of plain characters is shown as it is.
#[derive(Clone, Copy)]
pub struct Shown<'a>(pub &'a str);

impl fmt::Display for Shown<'_> {
    ghost use Rattle.escape.specs.Shown.{shown};

    ghost output = { λ s. Some (shown s.0.now) };

    fn fmt<W: fmt::Write>(&self, f: &mut fmt::Formatter<W>) -> fmt::Result {
        write_shown(self.0, f)
    }
}

/// A text as it is shown, as a text of its own.
///
/// # Errors
///
/// Memory was refused.
///
/// Source: project rule.
pub fn shown_text(alloc: Global, text: &str) -> Result<String, AllocError>
    ensures { IfOk result (λ out. string_bytes out ≡ shown text.now) }
{
    format!(in alloc; "{}", Shown(text))
}

/// Whether a text has a character that is shown as an escape.
///
/// Source: project rule.
pub fn has_hidden(text: &str) -> bool
    ensures { result ≡ list_any is_hidden (chars text.now) }
{
    text.chars().any(is_hidden)
}

/// Whether a character of a text of several lines is shown as it is: each but a hidden one, and a line feed.
fn is_plain_character(c: char) -> bool
    ensures { result ≡ is_plain_character c }
{
    c == '\n' || !is_hidden(c)
}

/// Whether a text of several lines is shown as it is: it has no hidden character but line feeds.
///
/// Source: project rule.
pub fn is_plain(text: &str) -> bool
    ensures { result ≡ list_all is_plain_character (chars text.now) }
{
    text.chars().all(is_plain_character)
}

/// Whether one of some words has a character that is shown as an escape.
fn any_hidden(words: &[&str]) -> bool {
    for word in words {
        if has_hidden(word) {
            return true;
        }
    }
    false
}

/// Each of some words as it is shown.
fn shown_words(alloc: Global, words: &[&str]) -> Result<Vec<String>, AllocError>
    ensures { IfOk result (λ out. map string_bytes out.items ≡ map (λ word. shown word.now) words.now) }
{
    let mut out = Vec::new(alloc);
    for word in words {
        out.push(shown_text(alloc, word)?)?;
    }
    Ok(out)
}

/// Each of some words as it is shown, if one of them has a character that is shown as an escape.
///
/// # Errors
///
/// Memory was refused.
///
/// Source: project rule.
pub fn words_if_hidden(alloc: Global, words: &[&str]) -> Result<Option<Vec<String>>, AllocError>
    ensures { IfOk result (λ found. IfSome found (λ out. map string_bytes out.items ≡ map (λ word. shown word.now) words.now)) }
{
    if any_hidden(words) {
        Ok(Some(shown_words(alloc, words)?))
    } else {
        Ok(None)
    }
}

/// What is said of a command line whose words have such a character, if it is refused otherwise than the words as they
/// are shown.
pub const HIDDEN_WORD: &str = "a word has a character that a terminal obeys or does not show";
