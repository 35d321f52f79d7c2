//! Shows each way, and notes what is seen.
ghost use Rattle.std.specs.Prelude.{◌≡◌, ◌≤◌, ◌+◌, [], Bool, IfOk, OnOk, List, ℕ, length};
ghost use Rattle.script.specs.declared.event.Event.{Event};
ghost use Rattle.ways.specs.{Ways.ways as ways_of, Ways.part_of, Tables.noted, Tables.number_where, Tables.one_if, Tables.table_of, Entries.entries_of, Tabled.Tabled};

use crate::fault::SearchFault;
use crate::sizes::Sizes;
use crate::table::{Outcome, Table};
use crate::visiting::{Visitor, Window, visit_part};
use script::Event;
use std::alloc::{AllocError, Global};
use std::marker::Model;

/// What shows a way as a text.
pub trait Show {
    /// What is seen of a way.
    ghost seen: { Self → List Event → List ℕ };

    /// Whether a way ends in an alert.
    ghost alerted: { Self → List Event → Bool };

    /// Leaves in `text` what is seen of a way, and answers whether it ends in an alert.
    fn show(&mut self, way: &[Event], text: &mut Vec<u8>) -> Result<bool, SearchFault>
        ensures same { OnOk result (self.new ≡ self.old) }
        ensures seen { OnOk result (text.new.items ≡ seen self.old way.now) }
        ensures alerted { IfOk result (λ found. found ≡ alerted self.old way.now) };
}

/// What a long search is reported to.
pub trait Watcher {
    /// So far `tried` ways were tried, and `outcomes` different texts were seen.
    fn report(&mut self, tried: u64, outcomes: usize);
}

/// Notes what is seen of each way, and counts those that end in an alert.
#[derive(Drop)]
pub struct Tabler<S: Show, P: Watcher> {
    alloc: Global,
    shows: S,
    watcher: P,
    text: Vec<u8>,
    tried: u64,
    alerts: u64,
    table: Table,
}

impl<S: Show, P: Watcher> Model for Tabler<S, P> {
    ghost use Rattle.ways.specs.{Tabled.Tabled, Entries.entries_of};

    ghost Value = { Tabled S };

    ghost view = { λ t. record { shows = t.shows; table = t.table; alerts = t.alerts } };
}

impl<S: Show, P: Watcher> Tabler<S, P> {
    /// A table of no ways.
    ///
    /// Source: project rule.
    pub fn new(alloc: Global, shows: S, watcher: P) -> Tabler<S, P>
        ensures { result ≡ record { shows = shows; table = []; alerts = 0 } }
    {
        Tabler {
            alloc,
            shows,
            watcher,
            text: Vec::new(alloc),
            tried: 0,
            alerts: 0,
            table: Table::new(alloc),
        }
    }

    /// The number of ways that end in an alert.
    ///
    /// Source: project rule.
    pub fn alerts(&self) -> u64
        ensures { result ≡ self.now.alerts }
    {
        self.alerts
    }
}

impl<S: Show + Drop, P: Watcher + Drop> Tabler<S, P> {
    /// The outcomes, in the order in which they were first seen.
    ///
    /// # Errors
    ///
    /// Memory was refused.
    ///
    /// Source: project rule.
    pub fn into_outcomes(self) -> Result<Vec<Outcome>, AllocError>
        ensures { IfOk result (λ outcomes. entries_of outcomes.items ≡ self.table) }
    {
        self.table.into_outcomes(self.alloc)
    }
}

/// One more, if it is so.
fn counted(number: u64, is_so: bool) -> Result<u64, SearchFault>
    ensures { IfOk result (λ more. more ≡ number + one_if is_so) }
{
    if !is_so {
        return Ok(number);
    }
    match number.checked_add(1) {
        None => Err(SearchFault::TooManyOutcomes),
        Some(more) => Ok(more),
    }
}

impl<S: Show, P: Watcher> Visitor for Tabler<S, P> {
    ghost use Rattle.std.specs.Prelude.{◌+◌};
    ghost use Rattle.ways.specs.Tables.{noted, one_if};

    ghost after = { λ t way. record { shows = t.shows; table = noted t.table (S.seen t.shows way) way; alerts = t.alerts + one_if (S.alerted t.shows way) } };

    fn visit(&mut self, way: &[Event]) -> Result<(), SearchFault> {
        let alerted = self.shows.show(way, &mut self.text)?;
        self.alerts = counted(self.alerts, alerted)?;
        self.table
            .note(self.alloc, self.text.as_slice(), way, self.tried)?;
        self.tried = self.tried.saturating_add(1);
        self.watcher.report(self.tried, self.table.len());
        Ok(())
    }
}

/// Notes what is seen of each way of a part: of the ways with at most `sizes.most` extras of these kinds among the
/// actions those that the part names by their numbers.
///
/// # Errors
///
/// `OutOfMemory`, `TooManyOutcomes`, `TooMuch`, and what showing a way answers.
///
/// Source: project rule.
pub fn table_of_part<S: Show, P: Watcher>(
    alloc: Global,
    tabler: &mut Tabler<S, P>,
    sizes: &Sizes,
    kinds: &[Event],
    actions: &[Event],
    part: Window,
) -> Result<(), SearchFault>
    requires kinds { sizes.now.kinds ≡ length kinds.now }
    requires places { length actions.now ≤ sizes.now.places }
    ensures table { OnOk result (tabler.new.table ≡ table_of (S.seen tabler.old.shows) tabler.old.table (part_of part.skip part.left (ways_of kinds.now sizes.now.most actions.now))) }
    ensures alerts { OnOk result (tabler.new.alerts ≡ tabler.old.alerts + number_where (S.alerted tabler.old.shows) (part_of part.skip part.left (ways_of kinds.now sizes.now.most actions.now))) }
{
    visit_part(alloc, tabler, sizes, kinds, actions, part)
}
