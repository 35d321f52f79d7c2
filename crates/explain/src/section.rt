//! The section of a fault, an alert or a warning.
ghost use Rattle.std.specs.Prelude.{◌≡◌, IfSome};

use crate::alerts::ALERTS;
use crate::faults::FAULTS;
use crate::warnings::WARNINGS;
use std::alloc::{AllocError, Global};

/// The texts of a run.
#[derive(Clone, Copy)]
pub struct Example {
    /// The machine file.
    pub machine: &'static str,
    /// The event text, if it takes one to show it.
    pub events: Option<&'static str>,
}

/// What a fault, an alert or a warning is.
#[derive(Clone, Copy)]
pub struct Section {
    /// The name that findings have.
    pub name: &'static str,
    /// What it is, in some words.
    pub title: &'static str,
    /// What there is to know of it.
    pub text: &'static str,
    /// Texts that have it; none if it takes a long text, or is not of a text.
    pub shows: Option<Example>,
    /// The same texts, which do not have it any more.
    pub mended: Option<Example>,
}

/// All sections: of the faults, of the alerts and of the warnings.
///
/// # Errors
///
/// If memory is refused.
pub fn sections(alloc: Global) -> Result<Vec<&'static Section>, AllocError> {
    let mut list = Vec::new(alloc);
    for section in FAULTS.iter().chain(ALERTS.iter()).chain(WARNINGS.iter()) {
        list.push(section)?;
    }
    Ok(list)
}

/// The section of some that has a name.
fn named_in(list: &'static [Section], name: &str) -> Option<&'static Section>
    ensures { IfSome result (λ section. section.now.name.now ≡ name.now) }
{
    for section in list {
        if section.name == name {
            return Some(section);
        }
    }
    None
}

/// The section that has a name.
///
/// Source: project rule.
pub fn section_named(name: &str) -> Option<&'static Section>
    ensures { IfSome result (λ section. section.now.name.now ≡ name.now) }
{
    match named_in(&FAULTS, name) {
        Some(section) => Some(section),
        None => match named_in(&ALERTS, name) {
            Some(section) => Some(section),
            None => named_in(&WARNINGS, name),
        },
    }
}
