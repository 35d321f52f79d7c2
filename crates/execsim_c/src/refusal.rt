//! Why a caller's buffer does not have what was asked for: the status, and words at the front of the buffer, as far as
//! there is room.
ghost use Rattle.std.specs.Prelude.{◌≡◌, ◌⊎◌};
ghost use Rattle.execsim_c.specs.Buffers.{IsEventsFault, IsMachineFault};

use crate::status::{NO_MEMORY, status_of_fault};
use execsim::SimFault;
use std::fmt::Display;
use std::io::{Cursor, Write};

/// Puts words at the front of a buffer, and their length in bytes, or what there was room for, in `length`. Answers the
/// status.
pub(crate) fn refuse_with<D: Display>(
    words: &D,
    status: u32,
    out: &mut [u8],
    length: &mut u64,
) -> u32
    ensures { result ≡ status }
{
    let mut text = Cursor::new(out);
    let _ = write!(text, "{words}");
    *length = text.position();
    status
}

/// Says that memory was refused. Which part of a run was refused it is not said.
pub(crate) fn no_memory(out: &mut [u8], length: &mut u64) -> u32
    ensures { result ≡ 4 }
{
    refuse_with(&"no memory", NO_MEMORY, out, length)
}

/// Says for which fault a run did not come to its end, in the words of the program.
pub(crate) fn refuse(fault: SimFault, out: &mut [u8], length: &mut u64) -> u32
    ensures machine { result ≡ 1 → IsMachineFault fault }
    ensures events { result ≡ 2 → IsEventsFault fault }
    ensures others { (result ≡ 1) ⊎ (result ≡ 2) ⊎ (result ≡ 4) }
{
    let status = status_of_fault(fault);
    if status == NO_MEMORY {
        no_memory(out, length)
    } else {
        refuse_with(&fault, status, out, length)
    }
}
