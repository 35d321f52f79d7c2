//! What a line of a trace says.
use script::{Word, word_of};
use taskscript::number_of;

/// A call, as a line shows it.
#[derive(Clone, Copy)]
pub(crate) struct CallLine<'a> {
    /// The name of the task or the body that made it.
    pub who: &'a str,
    /// What it does.
    pub word: Word,
    /// The first argument, if it is a number.
    pub first: Option<u32>,
    /// The second argument, as it is printed.
    pub second: &'a str,
    /// The answer, if it has one.
    pub answer: Option<u32>,
    /// Whether it waits.
    pub waits: bool,
    /// The line without the name.
    pub said: &'a str,
}

/// A line of a trace.
#[derive(Clone, Copy)]
pub(crate) enum TraceLine<'a> {
    /// A source is served.
    Serve(&'a str),
    /// The body of a server begins.
    Server(&'a str),
    /// The body of a software interrupt begins.
    Softint(&'a str),
    /// The request at an address is finished.
    Timer(u32),
    /// An alert stops the machine: its code, and the call.
    Alert(&'a str),
    /// A call.
    Call(CallLine<'a>),
    /// A switch, or no task runs.
    Other,
}

/// The text before a space, and the text after it.
fn cut(text: &str) -> (&str, &str) {
    match text.split_once(' ') {
        Some((before, after)) => (before, after),
        None => (text, ""),
    }
}

/// The answer of a call, from its line.
fn answer_of(said: &str) -> Option<u32> {
    match said.rsplit_once(" -> ") {
        Some((_, answer)) => number_of(answer.as_bytes()),
        None => None,
    }
}

/// The call of a line whose second field is a word.
fn call_of<'a>(who: &'a str, word: Word, said: &'a str) -> CallLine<'a> {
    let (_, arguments) = cut(said);
    let (first, others) = cut(arguments);
    let (second, _) = cut(others);
    CallLine {
        who,
        word,
        first: number_of(first.as_bytes()),
        second,
        answer: answer_of(said),
        waits: said.ends_with(" waits"),
        said,
    }
}

/// What a line says that is not a call.
fn notice_of<'a>(head: &'a str, rest: &'a str) -> TraceLine<'a> {
    match head {
        "serve" => TraceLine::Serve(rest),
        "server" => TraceLine::Server(rest),
        "softint" => TraceLine::Softint(rest),
        "alert" => TraceLine::Alert(rest),
        "timer" => match number_of(rest.as_bytes()) {
            Some(address) => TraceLine::Timer(address),
            None => TraceLine::Other,
        },
        _ => TraceLine::Other,
    }
}

/// What a line of a trace says.
pub(crate) fn read_line(line: &str) -> TraceLine<'_> {
    let (head, rest) = cut(line);
    let (second, _) = cut(rest);
    match word_of(second) {
        Some(word) => TraceLine::Call(call_of(head, word, rest)),
        None => notice_of(head, rest),
    }
}
