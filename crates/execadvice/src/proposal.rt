//! Proposals of lines. Each is read before it is handed out, so that what is proposed is accepted.
ghost use Rattle.std.specs.Prelude.{◌≡◌, IfOk, IfSome, is_some, true};
ghost use Rattle.taskscript.specs.Meaning.{line_meaning};

use crate::made::Made;
use crate::reads::says_something;
use crate::show::{Fix, Span, field_span, width_of};
use std::alloc::{AllocError, Global};
use taskscript::fields_of;

/// Whether two lines have as many parts, and differ at most in the part of that number.
fn differ_in_part(given: &[&str], proposed: &[&str], part: usize) -> bool {
    if given.len() != proposed.len() {
        return false;
    }
    for (i, field) in proposed.iter().enumerate() {
        if i != part && given.get(i).copied().unwrap_or("") != *field {
            return false;
        }
    }
    true
}

/// What makes a line another one: a text for the part of that number if no other part differs, and else for the whole
/// line.
pub(crate) fn change(alloc: Global, given: &str, part: usize, proposed: &str) -> Made<Fix> {
    let old = fields_of(alloc, given)?;
    let new = fields_of(alloc, proposed)?;
    match new.get(part).copied() {
        Some(field) if differ_in_part(&old, &new, part) => Ok(Fix {
            span: field_span(given, part),
            text: String::from_str(alloc, field)?,
        }),
        _ => {
            let (start, width) = (0, width_of(given));
            let span = Span { start, width };
            let text = String::from_str(alloc, proposed)?;
            Ok(Fix { span, text })
        }
    }
}

/// What makes a line, in which the part of that number is wrong, the proposed one, if that says something: it is a
/// label or a command.
///
/// # Errors
///
/// If memory is refused.
///
/// Source: project rule.
pub fn fix_of_line(
    alloc: Global,
    given: &str,
    part: usize,
    proposed: &str,
) -> Result<Option<Fix>, AllocError>
    ensures { IfOk result (λ fix. IfSome fix (λ f. is_some (line_meaning proposed.now) ≡ true)) }
{
    if !says_something(alloc, proposed)? {
        return Ok(None);
    }
    Ok(Some(change(alloc, given, part, proposed)?))
}

/// What puts a text in place of the part of that number of a line, if there is one, and the line says something with
/// it.
pub(crate) fn fix_of_part(
    alloc: Global,
    given: &str,
    part: usize,
    text: Option<&str>,
) -> Made<Option<Fix>> {
    let Some(text) = text else {
        return Ok(None);
    };
    let mut proposed = String::new(alloc);
    for (i, field) in given.split(' ').enumerate() {
        if i > 0 {
            proposed.push(' ')?;
        }
        proposed.push_str(if i == part { text } else { field })?;
    }
    fix_of_line(alloc, given, part, proposed.as_str())
}
