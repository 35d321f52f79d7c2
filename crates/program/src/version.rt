//! Which version of the program this is.
ghost use Rattle.std.specs.Prelude.{◌≡◌, ◌⊎◌};

use crate::command::Command;
use std::io;
use std::io::Write;

/// What follows a command's name: the version, the commit of the sources, and the kit that proved them. The forty zeros
/// are the place of the commit, which `tools/release` writes into the linked file, since no source can name its own
/// commit.
const VERSION: &str =
    " 1.0, commit 0000000000000000000000000000000000000000, rattle-kit-13f logic dac8208d650f15bf\n";

/// The status if the version was printed.
const DONE: u8 = 0;

/// The status if it could not be written.
const FAILED: u8 = 4;

/// Writes a command's name and what follows it.
fn write_version<W: Write>(command: Command, out: &mut W) -> io::Result<()> {
    out.write_all(command.name().as_bytes())?;
    out.write_all(VERSION.as_bytes())?;
    out.flush()
}

/// Prints the version of a command, and answers the status with which the program ends.
///
/// Source: project rule.
pub fn print_version<W: Write, E: Write>(command: Command, out: &mut W, err: &mut E) -> u8
    ensures { (result ≡ 0) ⊎ (result ≡ 4) }
{
    match write_version(command, out) {
        Ok(()) => DONE,
        Err(_) => {
            let _ = writeln!(err, "{}: write failed", command.name());
            FAILED
        }
    }
}
