//! A line of a trace, and its parts.
ghost use Rattle.std.specs.Prelude.{◌≡◌, ◌≤◌, ◌+◌, ◌*◌, if◌then◌else◌, length, count_by, map, codes, ◌++◌, flat_map};
ghost use Rattle.exectrace.specs.{Trace.Argument, Trace.argument_text, Trace.printed_line, Trace.quoted_count, Trace.is_quoted, Shown.shown, Shown.shown_argument};

use arrayvec::{ArrayString, ArrayVec};

/// A name, a word, a code or a source: at most 31 bytes.
pub type Name = ArrayString<31>;

/// The arguments of a call, at most four.
pub type Arguments = ArrayVec<Arg, 4>;

/// An argument of a call.
#[derive(Clone, Copy)]
pub enum Arg {
    /// A 32-bit word, printed as `$` and eight digits.
    Value(u32),
    /// A name, printed between double quotes.
    Quoted(Name),
}

impl Default for Arg {
    fn default() -> Self {
        Arg::Value(0)
    }
}

/// An argument of a call of which at most one name is quoted: the name is beside the arguments.
#[derive(Clone, Copy)]
pub enum ShortArg {
    /// A 32-bit word, printed as `$` and eight digits.
    Value(u32),
    /// The name that is beside, printed between double quotes.
    Quoted,
}

/// How a call ends.
#[derive(Clone, Copy)]
pub enum CallOutcome {
    /// It does not answer.
    Done,
    /// It answers a value.
    Answers(u32),
    /// It waits, and is tried again.
    Waits,
}

/// Who made a call, its word and its arguments.
#[derive(Drop)]
pub struct CallLine {
    pub name: Name,
    pub word: Name,
    pub arguments: Arguments,
}

/// A line of a trace: what happened, and to whom. A name is that of a task, a software interrupt or a server.
#[derive(Drop)]
pub enum Line {
    /// `switch NAME`: a task begins to run.
    Switch(Name),
    /// `idle`: no task runs.
    Idle,
    /// `NAME WORD{ ARG}`: a call that does not answer.
    Call(CallLine),
    /// `NAME WORD{ ARG} -> VALUE`: a call with its answer.
    Answer(CallLine, u32),
    /// `NAME WORD{ ARG} waits`: a call that waits, at each try.
    Wait(CallLine),
    /// `serve SOURCE`: an interrupt source is served.
    Serve(Name),
    /// `timer VALUE`: a request that waits, at this address, finishes: at a serving of VERTB, or after system time was
    /// set.
    Timer(u32),
    /// `server NAME`: a server's body begins.
    Server(Name),
    /// `softint NAME`: a software interrupt's body begins.
    Softint(Name),
    /// `alert CODE NAME WORD`: a call was refused.
    Alert { code: Name, name: Name, word: Name },
}

impl Arg {
    /// Whether it is a name between double quotes.
    pub fn is_quoted(&self) -> bool
        ensures { result ≡ is_quoted (shown_argument self.now) }
    {
        matches!(self, Arg::Quoted(_))
    }

    /// How many bytes it takes in a line, with the space before it.
    fn printed_len(&self) -> usize
        ensures value { result ≡ length (argument_text (shown_argument self.now)) }
        ensures fits { result ≤ 10 + 24 * (if is_quoted (shown_argument self.now) then 1 else 0) }
    {
        match self {
            Arg::Value(_) => 10,
            Arg::Quoted(name) => name.len() + 3,
        }
    }
}

/// How many bytes these arguments take in a line: 10 each, and up to 24 more if one is quoted.
fn arguments_len(arguments: &[Arg]) -> usize
    requires { length arguments.now ≤ 4 }
    ensures value { result ≡ length (flat_map argument_text (map shown_argument arguments.now)) }
    ensures small { result ≤ 136 }
    ensures fits { result ≤ 10 * length arguments.now + 24 * count_by is_quoted (map shown_argument arguments.now) }
{
    let mut total = 0;
    for argument in arguments {
        total += argument.printed_len();
    }
    total
}

/// How many bytes a call's line has, up to its outcome.
fn call_len(call: &CallLine) -> usize
    ensures value { result ≡ length (call.now.name.bytes ++ codes " " ++ call.now.word.bytes
        ++ flat_map argument_text (map shown_argument call.now.arguments.items)) }
    ensures small { result ≤ 199 }
    ensures fits { result ≤ 103 + 24 * count_by is_quoted (map shown_argument call.now.arguments.items) }
{
    call.name.len() + 1 + call.word.len() + arguments_len(call.arguments.as_slice())
}

impl CallLine {
    /// How many arguments are quoted.
    fn quoted_count(&self) -> usize
        ensures { result ≡ count_by is_quoted (map shown_argument self.now.arguments.items) }
    {
        self.arguments
            .iter()
            .filter(|argument| argument.is_quoted())
            .count()
    }
}

impl Line {
    /// How many arguments are quoted.
    pub fn quoted_count(&self) -> usize
        ensures { result ≡ quoted_count (shown self.now) }
    {
        match self {
            Line::Call(call) | Line::Answer(call, _) | Line::Wait(call) => call.quoted_count(),
            _ => 0,
        }
    }

    /// How many bytes the printed line has, its line feed included.
    pub fn printed_len(&self) -> usize
        ensures value { result ≡ length (printed_line (shown self.now)) }
        ensures fits { quoted_count (shown self.now) ≤ 1 → result ≤ 160 }
    {
        match self {
            Line::Switch(name) => name.len() + 8,
            Line::Idle => 5,
            Line::Call(call) => call_len(call) + 1,
            Line::Answer(call, _) => call_len(call) + 14,
            Line::Wait(call) => call_len(call) + 7,
            Line::Serve(source) => source.len() + 7,
            Line::Timer(_) => 16,
            Line::Server(name) => name.len() + 8,
            Line::Softint(name) => name.len() + 9,
            Line::Alert { code, name, word } => code.len() + name.len() + word.len() + 9,
        }
    }
}
