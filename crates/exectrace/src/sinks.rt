//! What takes bytes, and how all bytes of a text are handed over.
//! Nothing here allocates; what a std writer takes for itself is its own.
ghost use Rattle.std.specs.Prelude.{◌≡◌, ◌≢◌, ℕ, ◌↔◌, true, false, IsTrue, IsOk, ◌<◌, ◌≤◌, List, length, Option};
ghost use Rattle.exectrace.specs.{Sink.empties, Sink.Tape, Sink.Takes, Sink.Puts, Sink.Writes, declared.sinks.SinkState.SinkState};

use crate::cells::Text;
use std::io::Write;
use thiserror::Error;

/// How a sink's last writes went.
#[derive(Clone, Copy, Debug, PartialEq, Eq)]
pub enum SinkState {
    /// The last write took a byte, or there was none yet.
    Good,
    /// The last that many writes took no byte, one after another: 1 to 16.
    Empty(u8),
    /// The last write answered an error, and took no byte.
    Failed,
}

impl SinkState {
    /// Whether the last 16 writes took no byte.
    fn is_exhausted(self) -> bool
        ensures { IsTrue result ↔ (16 ≤ empties self) }
    {
        match self {
            SinkState::Empty(count) => count >= 16,
            _ => false,
        }
    }
}

/// What takes the bytes of a sink answered an error. It comes if the writer's own `write` fails.
#[derive(Clone, Copy, Debug, PartialEq, Eq, Error)]
#[error("the sink failed")]
pub struct SinkFault;

/// A text was not written to its end. It comes if a sink fails, or takes no byte 16 times in a row.
#[derive(Clone, Copy, Debug, PartialEq, Eq, Error)]
#[error("write failed")]
pub struct WriteFault;

/// What takes bytes.
pub trait Sink {
    /// The bytes that it has taken, if they are known, and its state.
    ghost tape: { Self → Tape };

    /// Hands over bytes, at least one, to a sink whose last 16 writes did not all take none. `Ok(n)` means that the
    /// first n of them were taken, and an error that none was and that the sink has failed.
    fn write(&mut self, bytes: &[u8]) -> Result<usize, SinkFault>
        requires given { 0 < length bytes.now }
        requires not_exhausted { (tape self.old).state ≢ SinkState.Empty 16 }
        ensures { Takes (tape self.old) (tape self.new) bytes.now result };

    /// How the last writes went.
    fn state(&self) -> SinkState
        ensures { result ≡ (tape self.now).state };

    /// Takes a text into cells of its own: if it is good, has 160 of them left, and the text is found to fit. The
    /// answer is whether it did; if not, nothing was taken. A sink that has no such cells does not write this call.
    #[inline(always)]
    fn take_text<T: Text>(&mut self, _text: &T) -> bool
        ensures taken { result ≡ true → Puts (tape self.old) (tape self.new) (T.bytes _text.now) }
        ensures left { result ≡ false → tape self.new ≡ tape self.old }
    {
        false
    }
}

/// A sink over a std writer.
///
/// Its bytes are those that the writer holds, if the writer reports them: what it held when the sink was made, and
/// after it what it has taken since. What a call writes is the difference of the two tapes.
#[derive(Drop)]
pub struct WriteSink<W> {
    writer: W,
    state: SinkState,
    ghost at_most_16_empty: { empties state ≤ 16 },
}

impl<W: Write> WriteSink<W> {
    /// A good sink, whose bytes are those that the writer holds. It takes no memory.
    pub fn new(writer: W) -> Self
        ensures { ⟦<WriteSink<W> as Sink>⟧.tape result ≡ record { taken = W.contents writer; state = SinkState.Good } }
    {
        WriteSink {
            writer,
            state: SinkState::Good,
        }
    }

    /// The writer, which holds what the sink took.
    pub fn into_inner(self) -> W
        ensures { W.contents result ≡ (⟦<WriteSink<W> as Sink>⟧.tape self).taken }
    {
        let WriteSink { writer, state: _ } = self;
        writer
    }
}

impl<W: Write> Sink for WriteSink<W> {
    ghost tape = { λ s. record { taken = W.contents s.writer; state = s.state } };

    #[inline(always)]
    fn write(&mut self, bytes: &[u8]) -> Result<usize, SinkFault> {
        match self.writer.write(bytes) {
            Ok(0) => {
                let before = match self.state {
                    SinkState::Empty(count) => count,
                    _ => 0,
                };
                self.state = SinkState::Empty(before + 1);
                Ok(0)
            }
            Ok(count) => {
                self.state = SinkState::Good;
                Ok(count)
            }
            Err(_) => {
                self.state = SinkState::Failed;
                Err(SinkFault)
            }
        }
    }

    fn state(&self) -> SinkState {
        self.state
    }
}

/// Writes these bytes, at least one, in as many writes as it needs, to a sink whose last 16 writes did not all take
/// none.
#[cold]
#[inline(never)]
fn write_rest<W: Sink>(bytes: &[u8], out: &mut W) -> Result<(), WriteFault>
    requires given { 0 < length bytes.now }
    requires few_empty { empties (W.tape out.old).state < 16 }
    ensures { Writes (W.tape out.old) (W.tape out.new) bytes.now result }
{
    let mut done = 0;
    while done < bytes.len() {
        match out.write(&bytes[done..]) {
            Ok(count) => done += count,
            Err(_) => return Err(WriteFault),
        }
        if out.state().is_exhausted() {
            return Err(WriteFault);
        }
    }
    Ok(())
}

/// Writes all the bytes to a good sink, and nothing to one that is not good. Mostly the first write takes them all.
#[inline(never)]
pub fn put<W: Sink>(bytes: &[u8], out: &mut W)
    ensures { Puts (W.tape out.old) (W.tape out.new) bytes.now }
{
    put_here(bytes, out);
}

/// Does what `put` does, where it is called: for the lines that come most often.
#[inline(always)]
pub(crate) fn put_here<W: Sink>(bytes: &[u8], out: &mut W)
    ensures { Puts (W.tape out.old) (W.tape out.new) bytes.now }
{
    if bytes.is_empty() {
        return;
    }
    if let SinkState::Good = out.state() {
        if let Ok(count) = out.write(bytes) {
            if count < bytes.len() {
                let _ = write_rest(&bytes[count..], out);
            }
        }
    }
}

/// Whether all was written that was put to a sink that was good before.
pub fn written<W: Sink>(out: &W) -> Result<(), WriteFault>
    ensures { IsOk result ↔ ((W.tape out.now).state ≡ SinkState.Good) }
{
    match out.state() {
        SinkState::Good => Ok(()),
        _ => Err(WriteFault),
    }
}
