//! What a fault, an alert or a warning is.
ghost use Rattle.std.specs.Prelude.{◌≡◌, IfOk};

use crate::failure::Failure;
use escape::Shown;
use execadvice::nearest;
use explain::{section_named, section_text, sections};
use std::alloc::{AllocError, Global};
use std::io::Write;

/// The status if it was explained.
const DONE: u8 = 0;

/// What is said of a name that no section has.
fn no_section(alloc: Global, name: &str) -> Result<String, AllocError> {
    let names: Vec<&str> = sections(alloc)?
        .iter()
        .map(|section| section.name)
        .collect(alloc)?;
    let shown = Shown(name);
    match nearest(alloc, name, &names)? {
        Some(near) => format!(in alloc;
            "--explain {shown}: nothing has that name; did you mean {near}?"
        ),
        None => {
            let names = names.join(alloc, ", ")?;
            format!(in alloc; "--explain {shown}: nothing has that name; the names are {names}")
        }
    }
}

/// Writes the section of that name, and answers the status.
///
/// # Errors
///
/// `Usage` if there is none, `WriteFailed`, and `NoMemory`.
pub fn explain_name<'a, W: Write>(alloc: Global, name: &str, out: &mut W) -> Result<u8, Failure<'a>>
    ensures { IfOk result (λ status. status ≡ 0) }
{
    let Some(section) = section_named(name) else {
        return Err(Failure::Usage(no_section(alloc, name)?));
    };
    let text = section_text(alloc, section)?;
    if out.write_all(text.as_str().as_bytes()).is_err() || out.flush().is_err() {
        return Err(Failure::WriteFailed);
    }
    Ok(DONE)
}
