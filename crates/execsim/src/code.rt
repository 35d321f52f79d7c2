//! The commands of the bodies are copied from the file when the machine is made, and when it is reset.
ghost use Rattle.std.specs.Prelude.{◌≡◌, ◌↔◌, length, true, false, IfOk};

use script::Command;
use std::alloc::{AllocError, Global};

/// A copy of the commands of a body. An error means that memory is refused.
pub fn copied_code(alloc: Global, code: &[Command]) -> Result<Vec<Command>, AllocError>
    ensures { IfOk result (λ v. v.items ≡ code.now) }
{
    let mut copied = Vec::with_capacity(alloc, code.len())?;
    copied.extend_from_slice(code)?;
    Ok(copied)
}

/// Copies the commands of a body over others, if they are as many, and answers whether they are.
pub fn copy_code(code: &[Command], copied: &mut Vec<Command>) -> bool
    ensures answer { (result ≡ true) ↔ (length copied.old.items ≡ length code.now) }
    ensures same { result ≡ true → copied.new.items ≡ code.now }
    ensures kept { result ≡ false → copied.new.items ≡ copied.old.items }
{
    if copied.len() != code.len() {
        return false;
    }
    copied.copy_from_slice(code);
    true
}
