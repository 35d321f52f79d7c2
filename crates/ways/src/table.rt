//! The table of what is seen: an outcome for each different text, in the order in which they are first seen.
ghost use Rattle.std.specs.Prelude.{◌≡◌, [], ℕ, length, OnOk, IfOk};
ghost use Rattle.script.specs.declared.event.Event.{Event};
ghost use Rattle.ways.specs.{Tables.noted, Entries.entries_in, Entries.entries_of};

use crate::fault::SearchFault;
use indexmap::IndexMap;
use script::Event;
use std::alloc::{AllocError, Global};
use std::marker::Model;

/// How many outcomes a table may have.
pub const MOST_OUTCOMES: usize = 65_536;

/// How many bytes the outcomes of a table may take: the bytes of their texts, and those of the actions of their first
/// ways.
pub const MOST_BYTES: usize = 160_000_000;

/// How many bytes an action takes.
const ACTION_BYTES: usize = 8;

/// A text that was seen, the number of ways that show it, and the first of them.
#[derive(Drop)]
pub struct Outcome {
    pub seen: Vec<u8>,
    pub count: u64,
    pub first: Vec<Event>,
}

/// The number of ways that show a text, and the first of them.
#[derive(Drop)]
pub struct Tally {
    pub count: u64,
    pub first: Vec<Event>,
}

/// The table of some ways. A text is found by its hash, so that a table of many outcomes is as fast as one of few.
#[derive(Drop)]
pub struct Table {
    tallies: IndexMap<Vec<u8>, Tally>,
    /// The bytes that the outcomes take.
    bytes: usize,
}

impl Model for Table {
    ghost use Rattle.ways.specs.{Entries.entries_in, Tables.Entry};
    ghost use Rattle.std.specs.Prelude.{List};
    ghost use Rattle.script.specs.declared.event.Event.{Event};

    ghost Value = { List (Entry (List Event)) };

    ghost view = { λ t. entries_in t.tallies.entries };
}

/// A copy of a text.
fn copied_text(alloc: Global, text: &[u8]) -> Result<Vec<u8>, AllocError>
    ensures { IfOk result (λ copy. copy.items ≡ text.now) }
{
    let mut copy = Vec::new(alloc);
    copy.extend_from_slice(text)?;
    Ok(copy)
}

/// A copy of a way.
fn copied_way(alloc: Global, way: &[Event]) -> Result<Vec<Event>, AllocError>
    ensures { IfOk result (λ copy. copy.items ≡ way.now) }
{
    let mut copy = Vec::new(alloc);
    copy.extend_from_slice(way)?;
    Ok(copy)
}

/// The bytes of some outcomes and of one more, as far as 64 bits count them.
fn bytes_with(bytes: usize, text: &[u8], way: &[Event]) -> usize {
    bytes
        .saturating_add(text.len())
        .saturating_add(way.len().saturating_mul(ACTION_BYTES))
}

impl Table {
    /// A table of no ways.
    pub fn new(alloc: Global) -> Table
        ensures { result ≡ [] }
    {
        Table {
            tallies: IndexMap::new(alloc),
            bytes: 0,
        }
    }

    /// The number of outcomes.
    pub fn len(&self) -> usize
        ensures { result ≡ length self.now }
    {
        self.tallies.len()
    }

    /// Notes what is seen of one more way, after that many.
    ///
    /// # Errors
    ///
    /// `OutOfMemory`; `TooManyOutcomes`; `TooMuch`, with the number of ways before, for outcomes of more than
    /// `MOST_BYTES`.
    pub fn note(
        &mut self,
        alloc: Global,
        text: &[u8],
        way: &[Event],
        before: u64,
    ) -> Result<(), SearchFault>
        ensures { OnOk result (self.new ≡ noted self.old text.now way.now) }
    {
        if let Some(tally) = self.tallies.get_mut(text) {
            match tally.count.checked_add(1) {
                None => return Err(SearchFault::TooManyOutcomes),
                Some(count) => tally.count = count,
            }
            return Ok(());
        }
        if self.tallies.len() >= MOST_OUTCOMES {
            return Err(SearchFault::TooManyOutcomes);
        }
        let bytes = bytes_with(self.bytes, text, way);
        if bytes > MOST_BYTES {
            return Err(SearchFault::TooMuch(before));
        }
        let seen = copied_text(alloc, text)?;
        let first = copied_way(alloc, way)?;
        self.tallies.insert(seen, Tally { count: 1, first })?;
        self.bytes = bytes;
        Ok(())
    }

    /// The outcomes, in the order in which they were first seen.
    pub fn into_outcomes(self, alloc: Global) -> Result<Vec<Outcome>, AllocError>
        ensures { IfOk result (λ outcomes. entries_of outcomes.items ≡ self) }
    {
        let mut outcomes = Vec::new(alloc);
        for (seen, tally) in self.tallies {
            outcomes.push(Outcome {
                seen,
                count: tally.count,
                first: tally.first,
            })?;
        }
        Ok(outcomes)
    }
}
