//! How a text is written in place of another: into a new file beside it, which then takes its name.
ghost use Rattle.std.specs.Prelude.{◌≡◌};

use execrun::{SystemTexts, TextFault, Texts, read_text};
use std::alloc::{AllocError, Global};
use std::io::{ErrorKind, Write};
use std::rt::Files;
use std::{fs, io};

/// Why nothing was written into a file.
#[derive(Clone, Copy, PartialEq, Eq)]
pub enum Unwritten {
    /// Memory was refused.
    NoMemory,
    /// Its text is another than the one that was read.
    Changed,
    /// The new file is there already.
    Taken,
    /// The system does not let the user write there.
    NoPermission,
    /// The system has another reason.
    Failed,
}

impl Unwritten {
    /// The reason, by the kind of the system's error.
    fn by_kind(kind: ErrorKind) -> Unwritten {
        match kind {
            ErrorKind::OutOfMemory => Unwritten::NoMemory,
            ErrorKind::AlreadyExists => Unwritten::Taken,
            ErrorKind::PermissionDenied | ErrorKind::ReadOnlyFilesystem => Unwritten::NoPermission,
            _ => Unwritten::Failed,
        }
    }

    /// The reason as a sentence that goes on after the path.
    pub(crate) fn reason(self) -> &'static str {
        match self {
            Unwritten::NoMemory => "memory was refused",
            Unwritten::Changed => "its text was changed since it was read",
            Unwritten::Taken => "a file of its name with .new after it is there, and is left alone",
            Unwritten::NoPermission => "you have no permission to write there",
            Unwritten::Failed => "the system could not write it",
        }
    }
}

impl From<AllocError> for Unwritten {
    fn from(_error: AllocError) -> Unwritten {
        Unwritten::NoMemory
    }
}

impl From<io::Error> for Unwritten {
    fn from(error: io::Error) -> Unwritten {
        Unwritten::by_kind(error.kind())
    }
}

impl From<TextFault> for Unwritten {
    fn from(fault: TextFault) -> Unwritten {
        match fault {
            TextFault::NoMemory => Unwritten::NoMemory,
            TextFault::CannotRead(_) => Unwritten::Changed,
        }
    }
}

/// Texts by path that may be written anew.
pub trait Shelf: Texts {
    /// Puts a text in place of the one at a path, if that is the old one still.
    ///
    /// # Errors
    ///
    /// Why not; the text at the path is what it was then.
    fn replace(&self, alloc: Global, path: &str, old: &[u8], new: &[u8]) -> Result<(), Unwritten>;
}

/// Writes a text into a new file, with the permissions of the file at a path.
fn write_new<R: Files>(files: &R, beside: &str, path: &str, text: &[u8]) -> io::Result<()> {
    let mut file = fs::File::create_new(files, beside)?;
    if let Ok(like) = fs::metadata(files, path) {
        let _ = fs::set_permissions(files, beside, like.permissions());
    }
    file.write_all(text)?;
    file.flush()
}

/// Gives a new file the name of another one, whose text is still what it was.
fn take_name<R: Files>(
    files: &R,
    beside: &str,
    path: &str,
    now: &[u8],
    old: &[u8],
) -> io::Result<()>
    requires unchanged { now.now ≡ old.now }
{
    fs::rename(files, beside, path)
}

/// Gives a new file the name of another one, if the text of that is still what it was.
fn take_place<R: Files>(
    texts: &SystemTexts<'_, R>,
    alloc: Global,
    beside: &str,
    path: &str,
    old: &[u8],
) -> Result<(), Unwritten> {
    let again = read_text(texts, alloc, path)?;
    let now = again.as_slice();
    if now == old {
        take_name(texts.0, beside, path, now, old)?;
        return Ok(());
    }
    Err(Unwritten::Changed)
}

/// Whether a file is at a path that can be read once more: not a pipe, which would be waited for.
fn is_file<R: Files>(files: &R, path: &str) -> bool {
    match fs::metadata(files, path) {
        Ok(found) => found.is_file(),
        Err(_) => false,
    }
}

/// Writes a text into a new file beside another one, and gives it the name of that.
fn replace_at<R: Files>(
    texts: &SystemTexts<'_, R>,
    alloc: Global,
    path: &str,
    old: &[u8],
    new: &[u8],
) -> Result<(), Unwritten> {
    if !is_file(texts.0, path) {
        return Err(Unwritten::Failed);
    }
    let beside = format!(in alloc; "{path}.new")?;
    let beside = beside.as_str();
    let done = match write_new(texts.0, beside, path, new) {
        Err(error) if error.kind() == ErrorKind::AlreadyExists => return Err(Unwritten::Taken),
        Err(error) => Err(Unwritten::from(error)),
        Ok(()) => take_place(texts, alloc, beside, path, old),
    };
    if done.is_err() {
        let _ = fs::remove_file(texts.0, beside);
    }
    done
}

impl<R: Files> Shelf for SystemTexts<'_, R> {
    fn replace(&self, alloc: Global, path: &str, old: &[u8], new: &[u8]) -> Result<(), Unwritten> {
        match self.0.canonicalize(alloc, path) {
            Ok(own) => replace_at(self, alloc, own.as_str(), old, new),
            Err(_) => replace_at(self, alloc, path, old, new),
        }
    }
}
