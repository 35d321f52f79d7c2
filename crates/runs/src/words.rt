//! Prints what a line may have beside a word. After the argument `words` each argument is the text of a word; its row
//! has the text, `answers` or `silent`, and the kinds of the word's arguments from left to right.
use script::{Kind, Word, word_of};
use std::process::ExitCode;
use std::{env, io};

/// The argument before the texts.
const WORD: &str = "words";

/// How a row writes a kind.
fn kind_text(kind: Kind) -> &'static str {
    match kind {
        Kind::Value => "value",
        Kind::Label => "label",
        Kind::Name => "name",
        Kind::NameOrNone => "name-or-none",
        Kind::Softint => "softint",
    }
}

/// Prints the row of a word.
fn print_row(rt: &HostRuntime, word: Word) -> io::Result<()> {
    let text = word.text();
    let answers = if word.answers() { "answers" } else { "silent" };
    print!(rt; "{text} {answers}")?;
    for kind in word.kinds() {
        let kind = kind_text(*kind);
        print!(rt; " {kind}")?;
    }
    println!(rt; "")
}

/// Whether the first argument asks for rows.
pub(crate) fn is_requested(rt: &HostRuntime) -> io::Result<bool> {
    match env::args(rt)?.nth(1) {
        Some(first) => Ok(first.as_str() == WORD),
        None => Ok(false),
    }
}

/// Prints the row of each word whose text is an argument. The status is 1 if a text is not a word's; it is named, and
/// nothing is printed after.
pub(crate) fn print_rows(rt: &HostRuntime) -> io::Result<ExitCode> {
    for text in env::args(rt)?.skip(2) {
        let text = text.as_str();
        let Some(word) = word_of(text) else {
            println!(rt; "{text} is no word")?;
            return Ok(ExitCode::FAILURE);
        };
        print_row(rt, word)?;
    }
    Ok(ExitCode::SUCCESS)
}
