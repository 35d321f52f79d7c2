//! What a report has in it.
ghost use Rattle.std.specs.Prelude.{◌≡◌, ◌++◌, [], map, take, IfOk, OnOk, string_bytes};
ghost use Rattle.ways.specs.Entries.{entry_of, entries_of};
ghost use Rattle.wayreport.specs.Reports.{found_view, told};

use crate::events::first_text;
use std::alloc::{AllocError, Global};
use std::marker::Model;
use ways::Outcome;

/// An outcome of a report: what is seen, the number of ways that show it, and the text of the first of them.
#[derive(Drop)]
pub struct Found {
    pub seen: Vec<u8>,
    pub count: u64,
    pub first: String,
}

/// Which part of the ways a report is of.
#[derive(Clone, Copy)]
pub struct Part {
    /// The number of the part, from 1.
    pub number: u32,
    /// The number of parts.
    pub of: u32,
    /// The number of ways in the part.
    pub ways: u64,
}

/// A report.
#[derive(Drop)]
pub struct Report {
    /// What was searched: the names of both texts, the actions and the extras.
    pub title: String,
    /// The number of all ways.
    pub all: u64,
    /// The SHA-256 of the machine file, in hexadecimal digits.
    pub machine: String,
    /// The SHA-256 of the event text.
    pub events: String,
    /// What is seen of a way, by its word.
    pub see: String,
    /// The part, unless the report is of all ways.
    pub part: Option<Part>,
    /// The number of ways that end in an alert.
    pub alerts: u64,
    /// The outcomes, in the order in which they were first seen.
    pub found: Vec<Found>,
}

/// The outcome of a report, of one of a table.
fn found_in(alloc: Global, outcome: &Outcome) -> Result<Found, AllocError>
    ensures { IfOk result (λ found. found_view found ≡ told (entry_of outcome.now)) }
{
    Ok(Found {
        seen: Vec::from_slice(alloc, outcome.seen.as_slice())?,
        count: outcome.count,
        first: first_text(alloc, outcome.first.as_slice())?,
    })
}

/// The outcomes of a report, of those of a table.
///
/// # Errors
///
/// Memory was refused.
///
/// Source: project rule.
pub fn found_of(alloc: Global, outcomes: &[Outcome]) -> Result<Vec<Found>, AllocError>
    ensures { IfOk result (λ found. map found_view found.items ≡ map told (entries_of outcomes.now)) }
{
    let mut found = Vec::new(alloc);
    for outcome in outcomes {
        found.push(found_in(alloc, outcome)?)?;
    }
    Ok(found)
}
