//! Each kind of line in its text, and writers that take little, take nothing or fail.
use super::comparing::same;
use exectrace::printing::{put_idle, put_line, put_serve, put_short_call, put_switch, put_timer};
use exectrace::sinks::written;
use exectrace::{
    Arg, Arguments, CallLine, CallOutcome, Line, Name, PageSink, PagedWrite, ROOM, ShortArg, Sink,
    SinkState, Text, WriteFault, WriteSink, emit,
};
use std::alloc::Global;
use std::io;
use std::io::Write;
use std::process::Abort;
use std::test::*;

/// An argument of a call, a value or a name.
#[derive(Clone, Copy)]
enum Given {
    Value(u32),
    Quoted(&'static str),
}

/// A line, by its parts.
#[derive(Clone, Copy)]
enum Parts {
    Switch(&'static str),
    Idle,
    Serve(&'static str),
    Timer(u32),
    Server(&'static str),
    Softint(&'static str),
    /// A code, a name and a word.
    Alert(&'static str, &'static str, &'static str),
    /// Who makes a call, its word, its arguments, and how it ends.
    Call(&'static str, &'static str, &'static [Given], CallOutcome),
}

use Given::*;
use Parts::*;

/// The line whose text is `OPENING_TEXT`.
const OPENING: Parts = Call(
    "a",
    "OpenLibrary",
    &[Quoted("x.library"), Value(37)],
    CallOutcome::Answers(0x1000),
);

const OPENING_TEXT: &str = "a OpenLibrary \"x.library\" $00000025 -> $00001000\n";

/// Each kind of line, and its text.
static TEXTS: [(Parts, &str); 12] = [
    (Switch("c"), "switch c\n"),
    (Idle, "idle\n"),
    (Serve("VERTB"), "serve VERTB\n"),
    (Timer(0x1028), "timer $00001028\n"),
    (Server("hi"), "server hi\n"),
    (Softint("x"), "softint x\n"),
    (Alert("NEST", "a", "Permit"), "alert NEST a Permit\n"),
    (
        Call(
            "a",
            "FreeMem",
            &[Value(0x1000), Value(8)],
            CallOutcome::Done,
        ),
        "a FreeMem $00001000 $00000008\n",
    ),
    (Call("a", "Forbid", &[], CallOutcome::Done), "a Forbid\n"),
    (
        Call("c", "Wait", &[Value(0x1000)], CallOutcome::Waits),
        "c Wait $00001000 waits\n",
    ),
    (
        Call(
            "a",
            "AllocSignal",
            &[Value(0xFFFF_FFFF)],
            CallOutcome::Answers(0x89AB_CDEF),
        ),
        "a AllocSignal $FFFFFFFF -> $89ABCDEF\n",
    ),
    (OPENING, OPENING_TEXT),
];

/// A name of at most 31 bytes.
fn name(text: &str) -> Name {
    Name::from(text).unwrap_or_default()
}

/// A call of these parts.
fn call_line(by: &str, word: &str, given: &[Given]) -> CallLine {
    let mut arguments = Arguments::new();
    for argument in given {
        let _ = arguments.try_push(match argument {
            Value(value) => Arg::Value(*value),
            Quoted(text) => Arg::Quoted(name(text)),
        });
    }
    CallLine {
        name: name(by),
        word: name(word),
        arguments,
    }
}

/// The line of these parts.
fn line(parts: Parts) -> Line {
    match parts {
        Switch(by) => Line::Switch(name(by)),
        Idle => Line::Idle,
        Serve(source) => Line::Serve(name(source)),
        Timer(address) => Line::Timer(address),
        Server(by) => Line::Server(name(by)),
        Softint(by) => Line::Softint(name(by)),
        Alert(code, by, word) => Line::Alert {
            code: name(code),
            name: name(by),
            word: name(word),
        },
        Call(by, word, given, CallOutcome::Done) => Line::Call(call_line(by, word, given)),
        Call(by, word, given, CallOutcome::Answers(value)) => {
            Line::Answer(call_line(by, word, given), value)
        }
        Call(by, word, given, CallOutcome::Waits) => Line::Wait(call_line(by, word, given)),
    }
}

/// What a writer takes at a call.
#[derive(Clone, Copy)]
enum Habit {
    /// Takes one byte a call.
    OneByte,
    /// Takes none 15 times, and then one byte.
    EachSixteenth,
    /// Takes what it is given until it holds that many bytes, and then fails.
    FailsAt(usize),
    /// Takes what it is given until it holds that many bytes, and then none.
    StopsAt(usize),
}

/// A writer with a habit, which counts its calls and those of them that fail.
#[derive(Drop)]
struct Fickle {
    held: Vec<u8>,
    habit: Habit,
    calls: usize,
    failures: usize,
}

impl Fickle {
    /// A writer that holds nothing.
    fn new(alloc: Global, habit: Habit) -> Self {
        Fickle {
            held: Vec::new(alloc),
            habit,
            calls: 0,
            failures: 0,
        }
    }

    /// How many bytes it takes at this call, of the most that are given.
    fn appetite(&self, most: usize) -> io::Result<usize> {
        match self.habit {
            Habit::OneByte => Ok(1),
            Habit::EachSixteenth => Ok(if self.calls % 16 == 0 { 1 } else { 0 }),
            Habit::FailsAt(end) if self.held.len() >= end => Err(io::Error::from(
                io::ErrorKind::BrokenPipe,
            )),
            Habit::FailsAt(end) | Habit::StopsAt(end) => Ok(most.min(end.saturating_sub(
                self.held.len(),
            ))),
        }
    }
}

impl Write for Fickle {
    fn write(&mut self, buf: &[u8]) -> io::Result<usize> {
        self.calls = self.calls.saturating_add(1);
        let appetite = self.appetite(buf.len());
        if appetite.is_err() {
            self.failures = self.failures.saturating_add(1);
        }
        let count = appetite?.min(buf.len());
        self.held.extend_from_slice(&buf[..count])?;
        Ok(count)
    }

    fn flush(&mut self) -> io::Result<()> {
        Ok(())
    }
}

/// A writer that lends cells that many times, and counts the calls that hand it bytes.
#[derive(Drop)]
struct Lending {
    held: Vec<u8>,
    loans: usize,
    calls: usize,
}

impl Write for Lending {
    fn write(&mut self, buf: &[u8]) -> io::Result<usize> {
        self.calls = self.calls.saturating_add(1);
        self.held.extend_from_slice(buf)?;
        Ok(buf.len())
    }

    fn flush(&mut self) -> io::Result<()> {
        Ok(())
    }
}

impl PagedWrite for Lending {
    fn take_text<T: Text>(&mut self, text: &T) -> bool {
        if self.loans == 0 {
            return false;
        }
        self.loans -= 1;
        let mut cells = [0; ROOM];
        match text.fill(&mut cells) {
            Some(count) => self.held.extend_from_slice(&cells[..count]).is_ok(),
            None => false,
        }
    }
}

/// Emits a line to a good sink over a writer. What is answered, how the sink then is, and the writer.
fn emitted<W: Write>(
    rt: &impl Abort,
    line: &Line,
    writer: W,
) -> (Result<(), WriteFault>, SinkState, W) {
    assert!(rt; line.quoted_count() <= 1);
    let mut out = WriteSink::new(writer);
    let answer = emit(line, &mut out);
    let state = out.state();
    (answer, state, out.into_inner())
}

/// Puts the line of these parts to a sink.
fn put(parts: Parts, out: &mut WriteSink<Fickle>) {
    match parts {
        Idle => put_idle(out),
        _ => put_line(&line(parts), out),
    }
}

/// Emits a line into a vector, and compares what it then holds.
fn prints(rt: &impl Abort, alloc: Global, number: usize, line: &Line, text: &str) {
    let (answer, state, held) = emitted(rt, line, Vec::new(alloc));
    same(rt, "answer", number, answer, Ok(()));
    same(rt, "state", number, state, SinkState::Good);
    same(rt, "text", number, held.as_slice(), text.as_bytes());
    same(rt, "length", number, line.printed_len(), text.len());
}

/// Emits `OPENING` to a writer of this habit, and compares the answer, the sink's state and the bytes taken.
fn opens(
    rt: &impl Abort,
    alloc: Global,
    habit: Habit,
    answer: Result<(), WriteFault>,
    state: SinkState,
    count: usize,
) -> Fickle {
    let opening = line(OPENING);
    let emitted = emitted(rt, &opening, Fickle::new(alloc, habit));
    same(rt, "answer", count, emitted.0, answer);
    same(rt, "state", count, emitted.1, state);
    let writer = emitted.2;
    same(
        rt,
        "bytes",
        count,
        Some(writer.held.as_slice()),
        OPENING_TEXT.as_bytes().get(..count),
    );
    writer
}

#[test]
fn each_line_has_its_text(rt: HostRuntime) {
    for (number, (parts, text)) in TEXTS.iter().enumerate() {
        prints(&rt, rt.alloc(), number, &line(*parts), *text);
    }
}

#[test]
fn each_line_is_handed_over_at_once(rt: HostRuntime) {
    for (number, (parts, _)) in TEXTS.iter().enumerate() {
        let takes_all = Fickle::new(rt.alloc(), Habit::FailsAt(1000));
        let emitted = emitted(&rt, &line(*parts), takes_all);
        same(&rt, "calls", number, emitted.2.calls, 1);
    }
}

#[test]
fn a_slow_writer_gets_the_whole_line(rt: HostRuntime) {
    let length = OPENING_TEXT.len();
    for (habit, calls) in [
        (Habit::OneByte, length),
        (Habit::EachSixteenth, 16 * length),
    ] {
        let writer = opens(&rt, rt.alloc(), habit, Ok(()), SinkState::Good, length);
        same(&rt, "calls", calls, writer.calls, calls);
    }
}

#[test]
fn a_failing_writer_holds_a_first_part_and_is_asked_no_more(rt: HostRuntime) {
    for end in 0..OPENING_TEXT.len() {
        let fails = Habit::FailsAt(end);
        let writer = opens(
            &rt,
            rt.alloc(),
            fails,
            Err(WriteFault),
            SinkState::Failed,
            end,
        );
        same(&rt, "failures", end, writer.failures, 1);
    }
}

#[test]
fn a_writer_that_stops_is_given_up_after_sixteen_calls(rt: HostRuntime) {
    for end in 0..OPENING_TEXT.len() {
        let stops = Habit::StopsAt(end);
        let writer = opens(
            &rt,
            rt.alloc(),
            stops,
            Err(WriteFault),
            SinkState::Empty(16),
            end,
        );
        if end == 0 {
            same(&rt, "calls", end, writer.calls, 16);
        }
    }
}

#[test]
fn nothing_is_written_after_a_failure(rt: HostRuntime) {
    static PUTS: [(Parts, Result<(), WriteFault>); 3] = [
        (Idle, Ok(())),
        (OPENING, Err(WriteFault)),
        (Idle, Err(WriteFault)),
    ];
    let mut out = WriteSink::new(Fickle::new(rt.alloc(), Habit::FailsAt(7)));
    for (number, (parts, wanted)) in PUTS.iter().enumerate() {
        put(*parts, &mut out);
        same(&rt, "written", number, written(&out), *wanted);
    }
    let writer = out.into_inner();
    same(
        &rt,
        "bytes",
        PUTS.len(),
        writer.held.as_slice(),
        b"idle\na ".as_slice(),
    );
}

#[test]
fn a_call_whose_name_stands_beside_its_arguments_has_the_same_text(rt: HostRuntime) {
    let mut out = WriteSink::new(Vec::new(rt.alloc()));
    let arguments = [ShortArg::Quoted, ShortArg::Value(37)];
    let answer = CallOutcome::Answers(0x1000);
    let quoted = name("x.library");
    put_short_call(
        &name("a"),
        "OpenLibrary",
        &arguments,
        &quoted,
        answer,
        &mut out,
    );
    same(&rt, "short", 0, written(&out), Ok(()));
    let held = out.into_inner();
    same(&rt, "short", 1, held.as_slice(), OPENING_TEXT.as_bytes());
}

#[test]
fn lines_go_into_cells_that_are_lent_and_else_by_calls(rt: HostRuntime) {
    for loans in 0..4 {
        let mut out = PageSink::new(Lending {
            held: Vec::new(rt.alloc()),
            loans,
            calls: 0,
        });
        put_switch(&name("a"), &mut out);
        put_serve("VERTB", &mut out);
        put_timer(0x1028, &mut out);
        same(&rt, "written", loans, written(&out), Ok(()));
        let writer = out.into_inner();
        let text = b"switch a\nserve VERTB\ntimer $00001028\n";
        same(&rt, "text", loans, writer.held.as_slice(), text.as_slice());
        same(&rt, "calls", loans, writer.calls, 3 - loans);
    }
}
