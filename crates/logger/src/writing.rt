//! Writing a text whole.

ghost use Rattle.std.specs.Prelude.{◌≡◌, IfErr, OnOk};
ghost use Rattle.std.specs.Io.KnownBytes.{Appends};

use crate::failure::Failure;
use std::io;
use std::io::Write;

/// Writes bytes and flushes them.
fn write_whole<W: Write>(bytes: &[u8], out: &mut W) -> io::Result<()>
    ensures { OnOk result (Appends (W.contents out.old) (W.contents out.new) bytes.now) }
{
    out.write_all(bytes)?;
    out.flush()
}

/// Writes a text to its end.
///
/// # Errors
///
/// `WriteFailed`, if the writer did not take all of it.
///
/// Source: project rule.
pub fn write_text<'a, W: Write>(bytes: &[u8], out: &mut W) -> Result<(), Failure<'a>>
    ensures written { OnOk result (Appends (W.contents out.old) (W.contents out.new) bytes.now) }
    ensures failed { IfErr result (λ failure. failure ≡ Failure.WriteFailed) }
{
    match write_whole(bytes, out) {
        Ok(()) => Ok(()),
        Err(_) => Err(Failure::WriteFailed),
    }
}
