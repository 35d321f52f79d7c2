//! The outcomes of several parts, each text once.
ghost use Rattle.std.specs.Prelude.{◌≡◌, ◌+◌, ◌≤◌, ◌^◌, [], length, map, IfErr, IfOk, OnOk, string_bytes};
ghost use Rattle.ways.specs.Tables.{added, total};
ghost use Rattle.wayreport.specs.{Reports.found_view, Totals.entries_in, declared.sum.SumFault.TheVariants.OutOfMemory};

use crate::report::Found;
use crate::sum::SumFault;
use indexmap::IndexMap;
use std::alloc::{AllocError, Global};
use std::marker::Model;

/// The number of ways that show a text, and the text of the first of them.
#[derive(Drop)]
pub struct Tally {
    pub count: u64,
    pub first: String,
}

/// The outcomes of some parts, in the order in which they were first seen. A text is found by its hash, so that a sum
/// of many outcomes is as fast as one of few.
#[derive(Drop)]
pub struct Total {
    tallies: IndexMap<Vec<u8>, Tally>,
}

impl Model for Total {
    ghost use Rattle.std.specs.Prelude.{ℕ, List};
    ghost use Rattle.ways.specs.Tables.{Entry};
    ghost use Rattle.wayreport.specs.Totals.{entries_in};

    ghost Value = { List (Entry (List ℕ)) };

    ghost view = { λ t. entries_in t.tallies.entries };
}

impl Total {
    /// The outcomes of no part.
    pub fn new(alloc: Global) -> Total
        ensures { result ≡ [] }
    {
        Total {
            tallies: IndexMap::new(alloc),
        }
    }

    /// The number of outcomes.
    pub fn len(&self) -> usize
        ensures { result ≡ length self.now }
    {
        self.tallies.len()
    }

    /// Adds an outcome of later ways.
    pub fn add(&mut self, alloc: Global, one: &Found) -> Result<(), SumFault>
        ensures ok { OnOk result (self.new ≡ added self.old (found_view one.now)) }
        ensures err { IfErr result (λ fault. ¬ (fault ≡ OutOfMemory) → 2 ^ 64 ≤ total self.old + one.now.count) }
    {
        let text = one.seen.as_slice();
        if let Some(tally) = self.tallies.get_mut(text) {
            match tally.count.checked_add(one.count) {
                None => return Err(SumFault::TooManyWays),
                Some(count) => tally.count = count,
            }
            return Ok(());
        }
        let seen = Vec::from_slice(alloc, text)?;
        let first = one.first.clone()?;
        let count = one.count;
        self.tallies.insert(seen, Tally { count, first })?;
        Ok(())
    }

    /// The outcomes, in the order in which they were first seen.
    pub fn into_found(self, alloc: Global) -> Result<Vec<Found>, AllocError>
        ensures { IfOk result (λ found. map found_view found.items ≡ self) }
    {
        let mut found = Vec::new(alloc);
        for (seen, tally) in self.tallies {
            found.push(Found {
                seen,
                count: tally.count,
                first: tally.first,
            })?;
        }
        Ok(found)
    }
}
