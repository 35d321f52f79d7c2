//! The last line of a text.
ghost use Rattle.std.specs.Prelude.{◌≡◌, ◌∷◌, List, ℕ, IfOk, OnOk};
ghost use Rattle.closure.specs.Closed.{last_from, last_line};

use closure::Fault;

/// Adds a byte to a line that had ended or not, and answers whether it has ended now.
fn push_on(ended: bool, byte: u8, line: &mut Vec<u8>) -> Result<bool, Fault>
    ensures { IfOk result (λ now. (rest : List ℕ) → last_from line.new.items now rest ≡ last_from line.old.items ended (byte ∷ rest)) }
{
    if byte == b'\n' {
        return Ok(true);
    }
    if ended {
        line.clear();
        line.push(byte)?;
        return Ok(false);
    }
    line.push(byte)?;
    Ok(false)
}

/// Leaves in `line` the last line of a text that is not empty, without its end.
pub fn take_last_line(text: &[u8], line: &mut Vec<u8>) -> Result<(), Fault>
    ensures { OnOk result (line.new.items ≡ last_line text.now) }
{
    line.clear();
    let mut ended = false;
    for byte in text {
        ended = push_on(ended, *byte, line)?;
    }
    Ok(())
}
