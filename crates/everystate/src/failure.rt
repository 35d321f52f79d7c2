//! Why there is no report, what the command says of it, and the status that it ends with.
ghost use Rattle.std.specs.Prelude.{◌≢◌, ◌≤◌};

use closure::Fault;
use escape::Shown;
use execrun::{CannotRead, TextFault, Unread};
use statekeys::Beyond;
use std::alloc::{AllocError, AllocFailed};
use std::fmt;
use std::io::Write;
use taskscript::FileFault;

/// Why there is no report.
#[derive(Drop)]
pub enum Failure<'a> {
    /// Memory was refused.
    NoMemory,
    /// The file at this path cannot be read, and why.
    CannotRead(&'a str, Unread),
    /// Standard output did not take all that was to be written.
    WriteFailed,
    /// The machine file is refused.
    Machine(FileFault),
    /// `--of` has a value that it does not take.
    Kinds,
    /// The machine file has a command whose word the keys of states do not cover.
    NotCovered(Beyond),
    /// The states cannot be gone over, and why.
    NotDecided(Fault),
}

impl From<AllocError> for Failure<'_> {
    fn from(_error: AllocError) -> Self {
        Failure::NoMemory
    }
}

impl<T: Drop> From<AllocFailed<T>> for Failure<'_> {
    fn from(_error: AllocFailed<T>) -> Self {
        Failure::NoMemory
    }
}

impl From<Fault> for Failure<'_> {
    fn from(fault: Fault) -> Self {
        match fault {
            Fault::OutOfMemory => Failure::NoMemory,
            other => Failure::NotDecided(other),
        }
    }
}

impl<'a> Failure<'a> {
    /// Why the text at a path is not at hand.
    pub(crate) fn of_text(path: &'a str, fault: TextFault) -> Failure<'a> {
        match fault {
            TextFault::NoMemory => Failure::NoMemory,
            TextFault::CannotRead(why) => Failure::CannotRead(path, why),
        }
    }

    /// Why there is no machine file.
    pub(crate) fn of_machine(fault: FileFault) -> Failure<'a> {
        match fault {
            FileFault::OutOfMemory => Failure::NoMemory,
            other => Failure::Machine(other),
        }
    }
}

impl Failure<'_> {
    /// The status that the command ends with.
    ///
    /// Source: project rule.
    pub fn status(&self) -> u8
        ensures within { result ≤ 5 }
        ensures no_report { result ≢ 0 }
        ensures no_alert { result ≢ 3 }
    {
        match self {
            Failure::Machine(_) => 1,
            Failure::Kinds => 2,
            Failure::NoMemory | Failure::CannotRead(_, _) | Failure::WriteFailed => 4,
            Failure::NotCovered(_) | Failure::NotDecided(_) => 5,
        }
    }
}

/// Writes why states cannot be gone over.
fn show_not_decided<W: fmt::Write>(fault: Fault, f: &mut fmt::Formatter<W>) -> fmt::Result {
    match fault {
        Fault::OutOfMemory => f.write_str("no memory"),
        Fault::TooLong => {
            f.write_str("not decided: more than 1000000 ticks come to a state of this machine")
        }
        Fault::NoKey => f.write_str("not decided: no key distinguishes the states of this machine"),
        Fault::IsOther => f.write_str("not decided: the check contradicts the search"),
    }
}

/// Writes which command the keys of states do not cover.
fn show_beyond<W: fmt::Write>(beyond: &Beyond, f: &mut fmt::Formatter<W>) -> fmt::Result {
    let owner = beyond.owner;
    let name = Shown(beyond.name.as_str());
    let number = beyond.number;
    let word = beyond.word.text();
    write!(
        f,
        "not decided: in {owner} \"{name}\", command {number} of its code: --all does not cover {word} yet; it covers plain words and those of signals, nesting, tasks and interrupts"
    )
}

/// What the command says after its name.
impl fmt::Display for Failure<'_> {
    fn fmt<W: fmt::Write>(&self, f: &mut fmt::Formatter<W>) -> fmt::Result {
        match self {
            Failure::NoMemory => f.write_str("no memory"),
            Failure::CannotRead(path, why) => write!(f, "{}", CannotRead(path, *why)),
            Failure::WriteFailed => f.write_str("write failed"),
            Failure::Machine(fault) => write!(f, "machine: {}", fault.name()),
            Failure::Kinds => f.write_str(
                "--of takes tick, PORTS and EXTER, each at most once, with commas between",
            ),
            Failure::NotCovered(beyond) => show_beyond(beyond, f),
            Failure::NotDecided(fault) => show_not_decided(*fault, f),
        }
    }
}

/// Says on standard error why there is no report, and answers the status. A write that fails there changes nothing.
///
/// Source: project rule.
pub fn report<E: Write>(failure: &Failure<'_>, err: &mut E) -> u8
    ensures within { result ≤ 5 }
    ensures no_report { result ≢ 0 }
    ensures no_alert { result ≢ 3 }
{
    let _ = writeln!(err, "execexplore: {failure}");
    failure.status()
}
