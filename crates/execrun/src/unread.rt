//! Why a text is not at hand, by the system's reason, and the words for it. A path is shown as a terminal may get it.
ghost use Rattle.std.specs.Prelude.{◌≡◌, Some};
ghost use Rattle.execrun.specs.Unread.{text_fault_by, unread_by};

use escape::Shown;
use std::io::{ErrorKind, Read};
use std::{fmt, io};

/// Why a text cannot be read.
#[derive(Clone, Copy, PartialEq, Eq)]
pub enum Unread {
    /// There is no file at the path.
    NoSuchFile,
    /// A folder is at the path.
    Folder,
    /// The system does not let the user read it.
    NoPermission,
    /// It is longer than the limit.
    TooLong,
    /// The system has another reason.
    Failed,
}

impl Unread {
    /// The reason, by the kind of the system's error.
    ///
    /// Source: project rule.
    pub fn by_kind(kind: ErrorKind) -> Unread
        ensures { result ≡ unread_by kind }
    {
        match kind {
            ErrorKind::NotFound | ErrorKind::NotADirectory => Unread::NoSuchFile,
            ErrorKind::IsADirectory => Unread::Folder,
            ErrorKind::PermissionDenied => Unread::NoPermission,
            _ => Unread::Failed,
        }
    }
}

/// The reason as a sentence that goes on after the path.
impl fmt::Display for Unread {
    ghost use Rattle.execrun.specs.Unread.{reason_text};

    ghost output = { λ why. Some (reason_text why) };

    fn fmt<W: fmt::Write>(&self, f: &mut fmt::Formatter<W>) -> fmt::Result {
        match *self {
            Unread::NoSuchFile => f.write_str("there is no such file"),
            Unread::Folder => f.write_str("it is a folder"),
            Unread::NoPermission => f.write_str("you have no permission to read it"),
            Unread::TooLong => f.write_str("it is longer than 4194304 bytes"),
            Unread::Failed => f.write_str("the system could not read it"),
        }
    }
}

/// What a command says of a text that cannot be read: its path, and why.
#[derive(Clone, Copy)]
pub struct CannotRead<'a>(pub &'a str, pub Unread);

impl fmt::Display for CannotRead<'_> {
    ghost use Rattle.execrun.specs.Unread.{unread_text};

    ghost output = { λ text. Some (unread_text text.0.now text.1) };

    fn fmt<W: fmt::Write>(&self, f: &mut fmt::Formatter<W>) -> fmt::Result {
        write!(f, "cannot read {}: {}", Shown(self.0), self.1)
    }
}

/// Why a text is not at hand.
#[derive(Clone, Copy)]
pub enum TextFault {
    /// Memory was refused.
    NoMemory,
    /// It cannot be read.
    CannotRead(Unread),
}

impl From<io::Error> for TextFault {
    ghost use Rattle.std.specs.IoError.{error_kind};
    ghost use Rattle.execrun.specs.Unread.{text_fault_by};

    ghost from_gives = { λ error fault. fault ≡ text_fault_by (error_kind error) };

    fn from(error: io::Error) -> TextFault {
        match error.kind() {
            ErrorKind::OutOfMemory => TextFault::NoMemory,
            kind => TextFault::CannotRead(Unread::by_kind(kind)),
        }
    }
}

/// A reader, and why the last of its reads failed that did.
#[derive(Drop)]
pub(crate) struct Heard<R> {
    pub(crate) reader: R,
    pub(crate) why: Unread,
}

impl<R: Read> Read for Heard<R> {
    ghost remaining = { λ heard. R.remaining heard.reader };

    fn read(&mut self, buf: &mut [u8]) -> io::Result<usize> {
        match self.reader.read(buf) {
            Ok(count) => Ok(count),
            Err(error) => {
                self.why = Unread::by_kind(error.kind());
                Err(error)
            }
        }
    }
}
