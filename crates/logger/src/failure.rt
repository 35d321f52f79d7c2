//! Why the command does not show what is asked for, what it says of it, and the status that it ends with.
ghost use Rattle.std.specs.Prelude.{◌≡◌, ◌≤◌, ◌⊎◌};
ghost use Rattle.logger.specs.Failing.{of_machine, of_picture, of_script, of_text, status_of};

use execlog::LogFault;
use execpicture::PictureFault;
use execrun::{CannotRead, TextFault, Unread};
use std::alloc::{AllocError, AllocFailed};
use std::fmt;
use std::io::Write;
use taskscript::{EventFault, FileFault};

/// The status if a text is refused.
const TEXT_REFUSED: u8 = 1;

/// The status if the command line is refused, or asks for what the run does not have.
const COMMAND_LINE_REFUSED: u8 = 2;

/// The status if memory, reading or writing failed.
const FAILED: u8 = 4;

/// Why what is asked for is not shown, or not all of it.
#[derive(Drop)]
pub enum Failure<'a> {
    /// Memory was refused.
    NoMemory,
    /// The file at this path cannot be read, and why.
    CannotRead(&'a str, Unread),
    /// Standard output did not take all that was to be written.
    WriteFailed,
    /// The machine file is refused.
    Machine(FileFault),
    /// The event text is refused.
    Events(EventFault),
    /// The options have a value or are together in a way that is not taken; the sentence says what is.
    Option(&'static str),
    /// The options ask for what the texts do not have; the sentence says what they have.
    Absent(String),
    /// The part of the run that is asked for is empty, or too long for a picture, or begins after the end of the run.
    Picture(PictureFault),
}

impl From<AllocError> for Failure<'_> {
    ghost use Rattle.logger.specs.declared.failure.Failure.TheVariants.{NoMemory};

    ghost from_gives = { λ _ failure. failure ≡ NoMemory };

    fn from(_error: AllocError) -> Self {
        Failure::NoMemory
    }
}

impl<T: Drop> From<AllocFailed<T>> for Failure<'_> {
    ghost use Rattle.logger.specs.declared.failure.Failure.TheVariants.{NoMemory};

    ghost from_gives = { λ _ failure. failure ≡ NoMemory };

    fn from(_error: AllocFailed<T>) -> Self {
        Failure::NoMemory
    }
}

impl From<LogFault> for Failure<'_> {
    ghost use Rattle.logger.specs.Failing.{of_log};

    ghost from_gives = { λ fault failure. failure ≡ of_log fault };

    fn from(fault: LogFault) -> Self {
        match fault {
            LogFault::Memory => Failure::NoMemory,
            LogFault::Write => Failure::WriteFailed,
        }
    }
}

impl<'a> Failure<'a> {
    /// Why a machine file gives no run.
    pub(crate) fn of_machine(fault: FileFault) -> Failure<'a>
        ensures { result ≡ of_machine fault }
    {
        match fault {
            FileFault::OutOfMemory => Failure::NoMemory,
            other => Failure::Machine(other),
        }
    }

    /// Why an event text gives no run.
    pub(crate) fn of_script(fault: EventFault) -> Failure<'a>
        ensures { result ≡ of_script fault }
    {
        match fault {
            EventFault::OutOfMemory => Failure::NoMemory,
            other => Failure::Events(other),
        }
    }

    /// Why a picture is not drawn.
    pub(crate) fn of_picture(fault: PictureFault) -> Failure<'a>
        ensures { result ≡ of_picture fault }
    {
        match fault {
            PictureFault::Memory => Failure::NoMemory,
            PictureFault::Write => Failure::WriteFailed,
            other => Failure::Picture(other),
        }
    }

    /// Why the text at a path is not at hand.
    pub(crate) fn of_text(path: &'a str, fault: TextFault) -> Failure<'a>
        ensures { result ≡ of_text path.entry fault }
    {
        match fault {
            TextFault::NoMemory => Failure::NoMemory,
            TextFault::CannotRead(why) => Failure::CannotRead(path, why),
        }
    }
}

impl Failure<'_> {
    /// The status that the command ends with.
    ///
    /// Source: project rule.
    pub fn status(&self) -> u8
        ensures is { result ≡ status_of self.now }
        ensures within { result ≤ 4 }
        ensures refuses { (result ≡ 1) ⊎ (result ≡ 2) ⊎ (result ≡ 4) }
    {
        match self {
            Failure::Machine(_) | Failure::Events(_) => TEXT_REFUSED,
            Failure::NoMemory | Failure::CannotRead(_, _) | Failure::WriteFailed => FAILED,
            Failure::Option(_) | Failure::Absent(_) | Failure::Picture(_) => COMMAND_LINE_REFUSED,
        }
    }
}

/// Writes why an event text is refused.
fn show_event_fault<W: fmt::Write>(fault: EventFault, f: &mut fmt::Formatter<W>) -> fmt::Result {
    match fault {
        EventFault::BadLine(line) => write!(f, "events: BadLine {line}"),
        EventFault::TooMany => f.write_str("events: TooMany"),
        EventFault::OutOfMemory => f.write_str("no memory"),
    }
}

/// What the command says after its name.
impl fmt::Display for Failure<'_> {
    fn fmt<W: fmt::Write>(&self, f: &mut fmt::Formatter<W>) -> fmt::Result {
        match self {
            Failure::NoMemory => f.write_str("no memory"),
            Failure::CannotRead(path, why) => write!(f, "{}", CannotRead(path, *why)),
            Failure::WriteFailed => f.write_str("write failed"),
            Failure::Machine(fault) => write!(f, "machine: {}", fault.name()),
            Failure::Events(fault) => show_event_fault(*fault, f),
            Failure::Option(sentence) => f.write_str(sentence),
            Failure::Absent(sentence) => f.write_str(sentence.as_str()),
            Failure::Picture(fault) => write!(f, "{fault}"),
        }
    }
}

/// Says on standard error why what is asked for is not shown, and answers the status that the command ends with. A
/// write that fails there changes nothing.
///
/// Source: project rule.
pub fn report<E: Write>(failure: &Failure<'_>, err: &mut E) -> u8
    ensures is { result ≡ status_of failure.now }
    ensures within { result ≤ 4 }
    ensures refuses { (result ≡ 1) ⊎ (result ≡ 2) ⊎ (result ≡ 4) }
{
    let _ = writeln!(err, "execlog: {failure}");
    failure.status()
}
