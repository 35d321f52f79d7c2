//! The nearest of some texts, for proposals.

use std::alloc::{AllocError, Global};
use strsim::osa_distance;

/// The length in bytes of the longest text for which a proposal is looked for.
const LONGEST: usize = 40;

/// Whether all characters of a text are decimal digits.
pub fn are_digits(text: &str) -> bool {
    text.as_bytes().iter().all(|b| b.is_ascii_digit())
}

/// The one of some texts that was likely meant: it differs in at most a third of its letters, and no other in fewer.
/// Upper and lower case are the same, and two letters that changed places are one.
///
/// # Errors
///
/// If memory is refused.
pub fn nearest<'a>(
    alloc: Global,
    text: &str,
    among: &[&'a str],
) -> Result<Option<&'a str>, AllocError> {
    if text.len() > LONGEST {
        return Ok(None);
    }
    let text = text.to_ascii_lowercase(alloc)?;
    let mut found = None;
    let mut least = LONGEST;
    for other in among {
        let most = least.min(other.len() / 3);
        if text.len().abs_diff(other.len()) <= most {
            let lower = other.to_ascii_lowercase(alloc)?;
            let edits = osa_distance(alloc, text.as_str(), lower.as_str())?;
            if edits == 0 {
                return Ok(Some(*other));
            }
            if edits <= most {
                least = edits.saturating_sub(1);
                found = Some(*other);
            }
        }
    }
    Ok(found)
}
