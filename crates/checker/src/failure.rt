//! Why there is no answer, and what the program says of it.
ghost use Rattle.std.specs.Prelude.{◌≡◌, ◌++◌, ◌⊎◌, IfOk, codes, string_bytes};
ghost use Rattle.execrun.specs.Unread.{unread_text};
ghost use Rattle.checker.specs.Failing.{IsUsage};

use crate::command_line::usage_error;
use crate::writing::Unwritten;
use escape::Shown;
use execrun::{CannotRead, Unread};
use std::alloc::{AllocError, Global};
use std::io::Write;

/// The status with which the program ends if there is no answer.
pub(crate) const FAILED: u8 = 4;

/// The status if the command line is refused.
pub const COMMAND_LINE_REFUSED: u8 = 2;

/// What is said if memory was refused.
const NO_MEMORY: &[u8] = b"execcheck: no memory\n";

/// Why there is no answer. Its text is what the program says of it.
#[derive(Drop)]
pub enum Failure<'a> {
    /// Memory was refused.
    NoMemory,
    /// The file at this path cannot be read, and why.
    CannotRead(&'a str, Unread),
    /// Nothing was written into the file at this path, and why.
    CannotWrite(&'a str, Unwritten),
    /// Standard output did not take all that was to be written.
    WriteFailed,
    /// The command line is refused, and why.
    Usage(String),
}

impl From<AllocError> for Failure<'_> {
    ghost use Rattle.std.specs.Prelude.{◌≡◌};
    ghost use Rattle.checker.specs.declared.failure.Failure.TheVariants.{NoMemory};

    ghost from_gives = { λ _ e. e ≡ NoMemory };

    fn from(_error: AllocError) -> Self {
        Failure::NoMemory
    }
}

/// What is said of a file that cannot be read.
fn cannot_read_text(alloc: Global, path: &str, why: Unread) -> Result<String, AllocError>
    ensures { IfOk result (λ text. string_bytes text ≡ codes "execcheck: " ++ (unread_text path.now why ++ codes "\n")) }
{
    format!(in alloc; "execcheck: {}\n", CannotRead(path, why))
}

/// What is said of a file into which nothing was written.
fn cannot_write_text(alloc: Global, path: &str, why: Unwritten) -> Result<String, AllocError> {
    let reason = why.reason();
    format!(in alloc; "execcheck: cannot write {}: {reason}\n", Shown(path))
}

/// Says something on standard error, in one write, or that memory was refused.
fn say<E: Write>(text: Result<String, AllocError>, err: &mut E) {
    let _ = match text {
        Ok(text) => err.write_all(text.as_str().as_bytes()),
        Err(_) => err.write_all(NO_MEMORY),
    };
}

/// Refuses the command line for a reason, and answers the status that represents that.
fn refuse<E: Write>(alloc: Global, sentence: &str, err: &mut E) -> u8
    ensures { (result ≡ 2) ⊎ (result ≡ 4) }
{
    match usage_error(alloc, sentence) {
        Ok(error) => {
            let _ = write!(err, "{error}");
            COMMAND_LINE_REFUSED
        }
        Err(_) => {
            let _ = err.write_all(NO_MEMORY);
            FAILED
        }
    }
}

/// Says on standard error, in one write, why there is no answer, and answers the status that represents that. A write
/// that fails there changes nothing.
pub fn report<E: Write>(alloc: Global, failure: &Failure<'_>, err: &mut E) -> u8
    ensures status { (result ≡ 2) ⊎ (result ≡ 4) }
    ensures usage { result ≡ 2 → IsUsage failure.now }
{
    match failure {
        Failure::Usage(sentence) => return refuse(alloc, sentence.as_str(), err),
        Failure::NoMemory => {
            let _ = err.write_all(NO_MEMORY);
        }
        Failure::WriteFailed => {
            let _ = err.write_all(b"execcheck: write failed\n");
        }
        Failure::CannotRead(path, why) => say(cannot_read_text(alloc, path, *why), err),
        Failure::CannotWrite(path, why) => say(cannot_write_text(alloc, path, *why), err),
    }
    FAILED
}
