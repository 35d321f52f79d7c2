//! How the program ends: what it says on standard error, and its status.
ghost use Rattle.std.specs.Prelude.{◌≡◌, IfSome, IsOk, OnOk, Some};
ghost use Rattle.std.specs.Io.KnownBytes.{Appends};
ghost use Rattle.execrun.specs.{Fault.line_of, Ending.IsSilent, Ending.Says, Ending.code_of, Ending.ending_after, Ending.status_of};

use crate::fault::Fault;
use execsim::End;
use std::fmt::Display;
use std::io;
use std::io::Write;

/// The status with which the program ends.
#[derive(Clone, Copy)]
pub enum Status {
    /// The machine ran to its end, or the help was printed.
    Done = 0,
    /// The machine file or the event text was refused.
    TextRefused = 1,
    /// The command line was refused.
    CommandLineRefused = 2,
    /// An alert ended the run.
    Alerted = 3,
    /// Memory, reading or writing failed.
    Failed = 4,
}

impl Status {
    /// The number that represents it if the program ends.
    pub fn code(self) -> u8
        ensures { result ≡ code_of self }
    {
        self as u8
    }
}

/// How the program ends.
#[derive(Drop)]
pub enum Ending<'a> {
    /// The machine ran to its end, or the help was printed.
    Done,
    /// An alert ended the run.
    Alerted,
    /// The command line was refused, with this text of `clap`'s.
    Refused(clap::Error),
    /// Something went wrong.
    Failed(Fault<'a>),
}

impl<'a> From<Result<End, Fault<'a>>> for Ending<'a> {
    ghost from_gives = { λ ended ending. ending ≡ ending_after ended };

    fn from(ended: Result<End, Fault<'a>>) -> Self {
        match ended {
            Ok(End::Ran) => Ending::Done,
            Ok(End::Alerted) => Ending::Alerted,
            Err(fault) => Ending::Failed(fault),
        }
    }
}

impl Ending<'_> {
    /// The status that represents this end.
    pub fn status(&self) -> Status
        ensures { result ≡ status_of self.now }
    {
        match self {
            Ending::Done => Status::Done,
            Ending::Alerted => Status::Alerted,
            Ending::Refused(_) => Status::CommandLineRefused,
            Ending::Failed(Fault::Machine(_)) => Status::TextRefused,
            Ending::Failed(Fault::Events(_)) => Status::TextRefused,
            Ending::Failed(_) => Status::Failed,
        }
    }
}

/// Writes what a value shows of itself, and flushes it.
fn write_shown<D: Display + Drop, E: Write>(shown: D, err: &mut E) -> io::Result<()>
    ensures { OnOk result (IfSome (D.output shown) (Appends (E.contents err.old) (E.contents err.new))) }
{
    write!(err, "{shown}")?;
    err.flush()
}

/// Writes the line of a fault, and flushes it.
fn write_fault<E: Write>(fault: &Fault<'_>, err: &mut E) -> io::Result<()>
    ensures { OnOk result (Appends (E.contents err.old) (E.contents err.new) (line_of fault.now)) }
{
    writeln!(err, "{fault}")?;
    err.flush()
}

/// Says on standard error why the program ends, if there is something to say, and flushes it.
///
/// # Errors
///
/// That of the writer, if a write or the flush fails. A prefix may have been written.
pub fn say<E: Write>(ending: &Ending<'_>, err: &mut E) -> io::Result<()>
    ensures says { OnOk result (Says (E.contents err.old) (E.contents err.new) ending.now) }
    ensures silent { IsSilent ending.now → err.new ≡ err.old }
    ensures unfailing { IsSilent ending.now → IsOk result }
{
    match ending {
        Ending::Done | Ending::Alerted => Ok(()),
        Ending::Refused(error) => write_shown(error, err),
        Ending::Failed(fault) => write_fault(fault, err),
    }
}

/// Says on standard error why the program ends, as `say` does, and answers its status.
/// A write that fails there changes nothing.
pub fn report<E: Write>(ending: &Ending<'_>, err: &mut E) -> Status
    ensures status { result ≡ status_of ending.now }
    ensures silent { IsSilent ending.now → err.new ≡ err.old }
{
    let _ = say(ending, err);
    ending.status()
}
